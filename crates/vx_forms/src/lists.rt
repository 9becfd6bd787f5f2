// A search in a list, over operands.
ghost use Rattle.std.specs.Prelude.{[], ◌∷◌};
ghost use Rattle.vx_fn.specs.Functions.{list_contains};
ghost use Rattle.vx_forms.specs.Given.{GivesOver};

use crate::operands::Operand;
use std::alloc::Global;
use vx_tree::{TreeNode, VortexResult};

/// Whether the value is among the list's elements, by SQL's rule for nulls. Refuses as the first operand
/// that was refused, else over sources with `OutOfMemory` (1) alone, over bound trees as the node does:
/// `NotComparable` (8), `BaseTypesDiffer` (6).
pub fn list_contains<T: TreeNode, A: Operand<T>, B: Operand<T>>(
    alloc: Global,
    list: A,
    value: B,
) -> VortexResult<T>
    ensures { GivesOver T.seen (T.over list_contains) (A.given list ∷ B.given value ∷ []) result }
{
    let list = list.into_tree()?;
    vx_build::list_contains(alloc, list, value.into_tree()?)
}

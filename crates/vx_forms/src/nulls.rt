// What deals with null, over operands.
ghost use Rattle.std.specs.Prelude.{[], ◌∷◌};
ghost use Rattle.vx_fn.specs.Functions.{fill_null, is_null, is_not_null};
ghost use Rattle.vx_forms.specs.Given.{GivesOver};

use crate::operands::Operand;
use std::alloc::Global;
use vx_tree::{TreeNode, VortexResult};

/// Whether the child is null. Refuses as the first operand that was refused, else over sources with
/// `OutOfMemory` (1) alone, over bound trees too.
pub fn is_null<T: TreeNode, O: Operand<T>>(alloc: Global, child: O) -> VortexResult<T>
    ensures { GivesOver T.seen (T.over is_null) (O.given child ∷ []) result }
{
    vx_build::is_null(alloc, child.into_tree()?)
}

/// Whether the child isn't null. Refuses as the first operand that was refused, else over sources
/// with `OutOfMemory` (1) alone, over bound trees too.
pub fn is_not_null<T: TreeNode, O: Operand<T>>(alloc: Global, child: O) -> VortexResult<T>
    ensures { GivesOver T.seen (T.over is_not_null) (O.given child ∷ []) result }
{
    vx_build::is_not_null(alloc, child.into_tree()?)
}

/// The child, or the fill value where the child is null. Refuses as the first operand that was
/// refused, else over sources with `OutOfMemory` (1) alone, over bound trees as the node does:
/// `BaseTypesDiffer` (6).
pub fn fill_null<T: TreeNode, A: Operand<T>, B: Operand<T>>(
    alloc: Global,
    child: A,
    fill_value: B,
) -> VortexResult<T>
    ensures { GivesOver T.seen (T.over fill_null) (A.given child ∷ B.given fill_value ∷ []) result }
{
    let child = child.into_tree()?;
    vx_build::fill_null(alloc, child, fill_value.into_tree()?)
}

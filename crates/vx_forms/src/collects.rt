// Operands joined by And and by Or.
ghost use Rattle.std.specs.Prelude.{map};
ghost use Rattle.vx_fn.specs.Functions.{and_also, or_else};
ghost use Rattle.vx_tree.specs.Views.{tree_of};
ghost use Rattle.vx_build.specs.Collects.{CollectsTrees};
ghost use Rattle.vx_forms.specs.Collected.{CollectsGiven};

use crate::operands::{Operand, trees_given};
use std::alloc::Global;
use vx_tree::{Expression, VortexResult};

/// The items joined by And in their order, balanced, None exactly for an empty list. Refuses as the
/// first item that was refused, and with `OutOfMemory` (1).
pub fn and_collect<O: Operand<Expression>, const N: usize>(
    alloc: Global,
    items: [O; N],
) -> VortexResult<Option<Expression>>
    ensures { CollectsGiven tree_of (CollectsTrees and_also) (map O.given items) result }
{
    let items = trees_given(alloc, Vec::from_array(alloc, items)?)?;
    vx_build::and_collect(alloc, items)
}

/// The items joined by Or in their order, balanced, as [`and_collect`] joins them by And.
pub fn or_collect<O: Operand<Expression>, const N: usize>(
    alloc: Global,
    items: [O; N],
) -> VortexResult<Option<Expression>>
    ensures { CollectsGiven tree_of (CollectsTrees or_else) (map O.given items) result }
{
    let items = trees_given(alloc, Vec::from_array(alloc, items)?)?;
    vx_build::or_collect(alloc, items)
}

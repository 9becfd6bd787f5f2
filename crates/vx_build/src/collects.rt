// Items joined by And and by Or.
ghost use Rattle.std.specs.Prelude.{◌≤◌, IsOk, length, map};
ghost use Rattle.vx_fn.specs.Functions.{and_also, or_else};
ghost use Rattle.vx_tree.specs.Views.{tree_of};
ghost use Rattle.vx_build.specs.Collects.{CollectsTrees};

use crate::rounds::collect;
use std::alloc::Global;
use vx_tree::{Expression, Operator, VortexResult};

/// The items joined by Or in their order, None exactly for an empty list. Neighbours are paired
/// in rounds, and an odd last item is carried on to the next round, so that each item is at
/// most the rounded-up binary logarithm of their number deep. The cost is linear in the items.
///
/// Refuses with `OutOfMemory` (1) alone, and never where there is at most one item.
pub fn or_collect(alloc: Global, items: Vec<Expression>) -> VortexResult<Option<Expression>>
    ensures collected { CollectsTrees or_else (map tree_of items.items) result }
    ensures alone { length items.items ≤ 1 → IsOk result }
{
    collect(alloc, Operator::Or, items)
}

/// The items joined by And in their order, None exactly for an empty list. Neighbours are
/// paired in rounds, and an odd last item is carried on to the next round, so that each item is
/// at most the rounded-up binary logarithm of their number deep. The cost is linear in the
/// items.
///
/// Refuses with `OutOfMemory` (1) alone, and never where there is at most one item.
pub fn and_collect(alloc: Global, items: Vec<Expression>) -> VortexResult<Option<Expression>>
    ensures collected { CollectsTrees and_also (map tree_of items.items) result }
    ensures alone { length items.items ≤ 1 → IsOk result }
{
    collect(alloc, Operator::And, items)
}

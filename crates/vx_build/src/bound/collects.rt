// Bound items joined by And and by Or.
ghost use Rattle.std.specs.Prelude.{◌≤◌, IsOk, length, map};
ghost use Rattle.vx_fn.specs.Functions.{and_also, or_else};
ghost use Rattle.vx_tree.specs.Views.{bound_of};
ghost use Rattle.vx_build.specs.Collects.{CollectsBound};

use crate::rounds::collect;
use std::alloc::Global;
use vx_tree::{BoundExpression, Operator, VortexResult};

/// The items joined by Or in their order, None exactly for an empty list. Neighbours are paired
/// in rounds, and an odd last item is carried on to the next round, so that each item is at
/// most the rounded-up binary logarithm of their number deep. The cost is linear in the items.
///
/// Refuses with `NotBool` (7) exactly where there are at least two items and some item isn't of
/// type `Bool`; a single item comes back as it is, and takes no memory.
pub fn or_collect(
    alloc: Global,
    items: Vec<BoundExpression>,
) -> VortexResult<Option<BoundExpression>>
    ensures collected { CollectsBound or_else (map bound_of items.items) result }
    ensures alone { length items.items ≤ 1 → IsOk result }
{
    collect(alloc, Operator::Or, items)
}

/// The items joined by And in their order, None exactly for an empty list. Neighbours are
/// paired in rounds, and an odd last item is carried on to the next round, so that each item is
/// at most the rounded-up binary logarithm of their number deep. The cost is linear in the
/// items.
///
/// Refuses with `NotBool` (7) exactly where there are at least two items and some item isn't of
/// type `Bool`; a single item comes back as it is, and takes no memory.
pub fn and_collect(
    alloc: Global,
    items: Vec<BoundExpression>,
) -> VortexResult<Option<BoundExpression>>
    ensures collected { CollectsBound and_also (map bound_of items.items) result }
    ensures alone { length items.items ≤ 1 → IsOk result }
{
    collect(alloc, Operator::And, items)
}

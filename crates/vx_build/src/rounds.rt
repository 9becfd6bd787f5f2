// Trees paired with their neighbours, round after round, until one is left.
ghost use Rattle.std.specs.Prelude.{◌≡◌, ◌≤◌, IsOk, length, map, option_map};
ghost use Rattle.vx_dtype.specs.Returns.{ReturnsOrOom};
ghost use Rattle.vx_fn.specs.Views.{operation_of};
ghost use Rattle.vx_build.specs.Rounds.{paired_by, round, collected};

use crate::binary;
use std::alloc::Global;
use vx_tree::{Operator, TreeNode, VortexResult};

// What is left of the items after all rounds, none of none.
pub(crate) fn collect<T: TreeNode>(
    alloc: Global,
    operator: Operator,
    items: Vec<T>,
) -> VortexResult<Option<T>>
    ensures left { ReturnsOrOom (option_map T.seen) result (collected (paired_by T.over (operation_of operator)) (map T.seen items.items)) }
    ensures alone { length items.items ≤ 1 → IsOk result }
{
    let mut left = items;
    while left.len() > 1 {
        left = round(alloc, operator, left)?;
    }
    Ok(left.into_iter().next())
}

// One round.
fn round<T: TreeNode>(alloc: Global, operator: Operator, items: Vec<T>) -> VortexResult<Vec<T>>
    ensures { ReturnsOrOom (λ left. map T.seen left.items) result (round (paired_by T.over (operation_of operator)) (map T.seen items.items)) }
{
    let mut left = Vec::with_capacity(alloc, items.len() / 2 + 1)?;
    let mut items = items.into_iter();
    while let Some(lhs) = items.next() {
        left.push(match items.next() {
            Some(rhs) => join(alloc, operator, lhs, rhs)?,
            None => lhs,
        })?;
    }
    Ok(left)
}

// The two under the operator.
fn join<T: TreeNode>(alloc: Global, operator: Operator, lhs: T, rhs: T) -> VortexResult<T>
    ensures { ReturnsOrOom T.seen result (paired_by T.over (operation_of operator) (T.seen lhs) (T.seen rhs)) }
{
    binary(alloc, operator, lhs, rhs)
}

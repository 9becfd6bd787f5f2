// The walk that puts holes in place of the pieces.
ghost use Rattle.std.specs.Prelude.{◌≡◌, IfOk};
ghost use Rattle.std.specs.Option.{option_map};
ghost use Rattle.std.specs.Slice.Iter.{iter_rest};
ghost use Rattle.vx_tree.specs.Views.{bound_of, bounds_of};
ghost use Rattle.vx_partition.specs.Filling.{filled, filled_each, holes_seen};
ghost use Rattle.vx_partition.specs.Packing.{hole_at};

use crate::mark::Mark;
use std::alloc::{AllocError, Global};
use std::slice::Iter;
use std::sync::Arc;
use vx_tree::BoundExpression;

// The tree as the next marks say, which are its own. What stands above no piece is shared.
#[cycle(fill)]
pub(crate) fn fill(
    alloc: Global,
    e: &BoundExpression,
    marks: &mut Iter<'_, Mark>,
    holes: &[Vec<BoundExpression>],
) -> Result<BoundExpression, AllocError>
    ensures { IfOk result (λ u. filled (holes_seen holes.now) (bound_of e.now) (iter_rest marks.old) ≡ (bound_of u, iter_rest marks.new)) }
{
    match marks.next() {
        Some(Mark::Hole { group, index }) => match hole_at(holes, *group, *index) {
            Some(hole) => hole.clone(),
            None => e.clone(),
        },
        Some(Mark::Above) => match e {
            BoundExpression::Root { .. } => e.clone(),
            BoundExpression::Scalar {
                dtype,
                scalar_fn,
                children,
            } => {
                let filled = fill_each(alloc, children.as_slice(), marks, holes)?;
                let children = Arc::new(alloc, filled)?;
                let dtype = dtype.clone()?;
                let scalar_fn = scalar_fn.clone()?;
                Ok(BoundExpression::Scalar {
                    dtype,
                    scalar_fn,
                    children,
                })
            }
        },
        Some(Mark::Kept) => e.clone(),
        None => e.clone(),
    }
}

#[cycle(fill)]
fn fill_each(
    alloc: Global,
    es: &[BoundExpression],
    marks: &mut Iter<'_, Mark>,
    holes: &[Vec<BoundExpression>],
) -> Result<Vec<BoundExpression>, AllocError>
    ensures { IfOk result (λ us. filled_each (holes_seen holes.now) (bounds_of es.now) (iter_rest marks.old) ≡ (bounds_of us.items, iter_rest marks.new)) }
{
    let mut filled = Vec::with_capacity(alloc, es.len())?;
    for e in es {
        filled.push(fill(alloc, e, marks, holes)?)?;
    }
    Ok(filled)
}

// The hole of that index of that group, if there is one.
fn hole_at(holes: &[Vec<BoundExpression>], group: usize, index: usize) -> Option<&BoundExpression>
    ensures { option_map (λ b. bound_of b.now) result ≡ hole_at (holes_seen holes.now) group index }
{
    match holes.get(group) {
        Some(own) => own.get(index),
        None => None,
    }
}

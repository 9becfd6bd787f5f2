// Trees over whole arrays, children first.
ghost use Rattle.vx_dtype.specs.Returns.{ReturnsOrOom};
ghost use Rattle.vx_tree.specs.Trees.{WellTyped, EachWellTyped};
ghost use Rattle.vx_tree.specs.Views.{bound_of, bounds_of};
ghost use Rattle.vx_array.specs.Rows.{lanes_rows, lanes_each};
ghost use Rattle.vx_eval.specs.Evaluation.{tree_answer, each_answer};

use crate::node::Node;
use crate::nodes::apply;
use std::alloc::Global;
use vx_array::Lanes;
use vx_dtype::VortexResult;
use vx_tree::BoundExpression;

/// The tree's value in each row of a batch, or the first fault. Refuses with `OutOfMemory` (1) too.
#[cycle(evaluate)]
pub fn evaluate(alloc: Global, b: &BoundExpression, batch: &Lanes) -> VortexResult<Lanes>
    requires { WellTyped (bound_of b.now) }
    ensures { ReturnsOrOom lanes_rows result (tree_answer (bound_of b.now) (lanes_rows batch.now)) }
{
    match b {
        BoundExpression::Root { .. } => Ok(batch.clone()?),
        BoundExpression::Scalar {
            scalar_fn,
            children,
            ..
        } => {
            let children = children.as_slice();
            let below = evaluate_each(alloc, children, batch)?;
            let node = Node {
                count: batch.len(),
                function: scalar_fn,
                children,
                below: below.as_slice(),
            };
            apply(alloc, node)
        }
    }
}

// Lanes for each child.
#[cycle(evaluate)]
fn evaluate_each(
    alloc: Global,
    children: &[BoundExpression],
    batch: &Lanes,
) -> VortexResult<Vec<Lanes>>
    requires { EachWellTyped (bounds_of children.now) }
    ensures { ReturnsOrOom (λ v. lanes_each v.items) result (each_answer (bounds_of children.now) (lanes_rows batch.now)) }
{
    let mut columns = Vec::with_capacity(alloc, children.len())?;
    for child in children {
        columns.push(evaluate(alloc, child, batch)?)?;
    }
    Ok(columns)
}

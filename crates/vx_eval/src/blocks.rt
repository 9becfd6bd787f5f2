// Trees over a whole batch, a block of its rows after another where no node looks across rows.
ghost use Rattle.std.specs.Prelude.{◌≡◌, ◌<◌, false, length, IfOk};
ghost use Rattle.vx_dtype.specs.Returns.{ReturnsOrOom};
ghost use Rattle.vx_value.specs.Fits.{IsBatch};
ghost use Rattle.vx_tree.specs.Nodes.{bound_children_of};
ghost use Rattle.vx_tree.specs.Trees.{node_type, WellTyped, Over};
ghost use Rattle.vx_tree.specs.Views.{bound_of, bounds_of};
ghost use Rattle.vx_eval.specs.Across.{looks_across};
ghost use Rattle.vx_eval.specs.Columns.{values_of};
ghost use Rattle.vx_eval.specs.Evaluation.{tree_answer};
ghost use Rattle.vx_eval.specs.Leaves.{are_leaves, is_leaf, is_scope};

use crate::across::looks_across;
use crate::rows::Rows;
use crate::searches::searches;
use crate::trees::evaluate;
use std::alloc::Global;
use std::sync::Arc;
use vx_dtype::{VortexError, VortexResult};
use vx_fn::ScalarFnRef;
use vx_tree::BoundExpression;
use vx_value::{Column, Value};

// How many rows go through the whole tree before the next ones: so few that what the nodes make of
// them stays in the processor's cache.
const BLOCK: usize = 1_024;

/// The tree's value in each row of a batch of its scope's type, or the first fault. Refuses with
/// `OutOfMemory` (1) too.
///
/// The scope's rows are shared where the batch shares them, and else copied where they are all that
/// is asked.
pub fn evaluate_over(
    alloc: Global,
    batch: &Column,
    b: &BoundExpression,
) -> VortexResult<Arc<Vec<Value>>>
    requires typed { WellTyped (bound_of b.now) }
    requires over { Over (bound_of b.now) batch.now.type }
    ensures answer { ReturnsOrOom (λ values. values_of values.value.items) result (tree_answer (bound_of b.now) batch.now.rows) }
    ensures fit { IfOk result (λ values. IsBatch (node_type (bound_of b.now)) (values_of values.value.items)) }
{
    let rows = batch.rows();
    match b {
        BoundExpression::Root { .. } => Rows::of(batch).into_shared(alloc),
        BoundExpression::Scalar { .. } => {
            let values = values_over(alloc, b, rows)?;
            Ok(Arc::new(alloc, values)?)
        }
    }
}

// The tree's value in each row, or the first fault. Of several blocks one may fault in a node, and a
// later one in a node whose fault comes first: so where a block faults all rows are asked together, as
// they are where a long list is made ready for look-ups.
fn values_over(alloc: Global, b: &BoundExpression, rows: &[Value]) -> VortexResult<Vec<Value>>
    requires { WellTyped (bound_of b.now) }
    ensures { ReturnsOrOom (λ values. values_of values.items) result (tree_answer (bound_of b.now) (values_of rows.now)) }
{
    if rows.len() <= BLOCK || reads_leaves_alone(b) || looks_across(b) || searches(b) {
        return together(alloc, b, rows);
    }
    match by_blocks(alloc, b, rows) {
        Ok(values) => Ok(values),
        Err(VortexError::OutOfMemory) => Err(VortexError::OutOfMemory),
        Err(_) => together(alloc, b, rows),
    }
}

// Whether the first node reads nothing but leaves, which are lent: it walks the rows once then, and by
// blocks its values would be moved once more.
fn reads_leaves_alone(b: &BoundExpression) -> bool
    ensures { result ≡ are_leaves (bound_children_of (bound_of b.now)) }
{
    let children = b.children();
    for child in children {
        if !is_leaf(child) {
            return false;
        }
    }
    true
}

// Whether the tree is the scope, a field of it or a literal.
fn is_leaf(b: &BoundExpression) -> bool
    ensures { result ≡ is_leaf (bound_of b.now) }
{
    match b {
        BoundExpression::Root { .. } => true,
        BoundExpression::Scalar {
            scalar_fn,
            children,
            ..
        } => match scalar_fn {
            ScalarFnRef::Literal(_) => true,
            ScalarFnRef::GetItem(_) => is_scope(children.as_slice()),
            _ => false,
        },
    }
}

// Whether the trees are one alone, the scope.
fn is_scope(trees: &[BoundExpression]) -> bool
    ensures { result ≡ is_scope (bounds_of trees.now) }
{
    match trees {
        [tree] => matches!(tree, BoundExpression::Root { .. }),
        _ => false,
    }
}

// The tree's value in each row, or the first fault, with all rows at once.
fn together(alloc: Global, b: &BoundExpression, rows: &[Value]) -> VortexResult<Vec<Value>>
    requires { WellTyped (bound_of b.now) }
    ensures { ReturnsOrOom (λ values. values_of values.items) result (tree_answer (bound_of b.now) (values_of rows.now)) }
{
    evaluate(alloc, b, rows)?.into_values(alloc)
}

// The tree's value in each row where no block faults, each block let go before the next. Asks for
// rows, since a node may fault over none.
fn by_blocks(alloc: Global, b: &BoundExpression, rows: &[Value]) -> VortexResult<Vec<Value>>
    requires typed { WellTyped (bound_of b.now) }
    requires some { 0 < length rows.now }
    requires apart { looks_across (bound_of b.now) ≡ false }
    ensures { IfOk result (λ values. tree_answer (bound_of b.now) (values_of rows.now) ≡ Ok (values_of values.items)) }
{
    let mut values = Vec::with_capacity(alloc, rows.len())?;
    let mut from = 0;
    while from < rows.len() {
        let to = from + BLOCK.min(rows.len() - from);
        values = evaluate(alloc, b, &rows[from..to])?.put_behind(values)?;
        from = to;
    }
    Ok(values)
}

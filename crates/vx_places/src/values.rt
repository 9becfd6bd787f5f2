// The values of a node over a batch on which no node below it faults.
ghost use Rattle.std.specs.Prelude.{◌≡◌, ◌∷◌, [], ◌++◌, MatchResult};
ghost use Rattle.vx_dtype.specs.declared.error.VortexError.TheVariants.{OutOfMemory};
ghost use Rattle.vx_fn.specs.Views.{function_of};
ghost use Rattle.vx_tree.specs.Nodes.{bound_children_of};
ghost use Rattle.vx_tree.specs.Trees.{WellTyped, Over};
ghost use Rattle.vx_tree.specs.Views.{bound_of};
ghost use Rattle.vx_places.specs.Walked.{may_fault, AddsSeen, AreSeen, IsSeen, SaysOrFaults};

use crate::holes::value_over_holes;
use std::alloc::Global;
use vx_dtype::VortexResult;
use vx_eval::apply_bound;
use vx_fn::{Operator, ScalarFnRef};
use vx_tree::BoundExpression;
use vx_value::Column;

/// Adds the column of the node's values to the columns, or none where no node of the tree may fault.
/// Asks for what is seen of its children.
#[inline(never)]
pub fn push_value(
    alloc: Global,
    b: &BoundExpression,
    batch: &Column,
    below: Vec<Option<Column>>,
    columns: &mut Vec<Option<Column>>,
) -> VortexResult<()>
    requires typed { WellTyped (bound_of b.now) }
    requires over { Over (bound_of b.now) batch.now.type }
    requires seen { AreSeen batch.now.rows (bound_children_of (bound_of b.now)) below.items }
    ensures { SaysOrFaults (λ _. AddsSeen batch.now.rows (bound_of b.now) columns.old.items columns.new.items) batch.now.rows (bound_of b.now) result }
{
    columns.push(value_of(alloc, b, batch, below)?)?;
    Ok(())
}

/// Adds that there is no column of a tree that never faults.
#[inline(never)]
pub fn push_none(columns: &mut Vec<Option<Column>>) -> VortexResult<()>
    ensures { MatchResult result (λ _. columns.new.items ≡ columns.old.items ++ None ∷ []) (λ e. e ≡ OutOfMemory) }
{
    columns.push(None)?;
    Ok(())
}

// The column of the node's values, or none where no node of the tree may fault. Where no column is
// there for a child, nothing below the node was evaluated yet, and the tree is evaluated as it is.
fn value_of(
    alloc: Global,
    b: &BoundExpression,
    batch: &Column,
    below: Vec<Option<Column>>,
) -> VortexResult<Option<Column>>
    requires typed { WellTyped (bound_of b.now) }
    requires over { Over (bound_of b.now) batch.now.type }
    requires seen { AreSeen batch.now.rows (bound_children_of (bound_of b.now)) below.items }
    ensures { SaysOrFaults (IsSeen batch.now.rows (bound_of b.now)) batch.now.rows (bound_of b.now) result }
{
    let Some(scalar_fn) = b.as_scalar() else {
        return Ok(None);
    };
    if below.iter().any(|column| column.is_some()) {
        return Ok(Some(value_over_holes(alloc, b, scalar_fn, batch, below)?));
    }
    if may_fault(scalar_fn) {
        return Ok(Some(apply_bound(alloc, batch, b)?));
    }
    Ok(None)
}

// Whether a node of the function may fault.
fn may_fault(scalar_fn: &ScalarFnRef) -> bool
    ensures { result ≡ may_fault (function_of scalar_fn.now) }
{
    matches!(
        scalar_fn,
        ScalarFnRef::Binary(
            Operator::Add | Operator::Sub | Operator::Mul | Operator::Div | Operator::Rem
        ) | ScalarFnRef::Cast(_)
            | ScalarFnRef::FillNull(_)
    )
}

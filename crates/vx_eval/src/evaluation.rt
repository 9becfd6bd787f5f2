// The evaluation of bound trees over columns.
ghost use Rattle.std.specs.Prelude.{IsErrOf};
ghost use Rattle.vx_dtype.specs.Returns.{ReturnsOrOom};
ghost use Rattle.vx_dtype.specs.declared.error.VortexError.TheVariants.{ScopeMismatch};
ghost use Rattle.vx_tree.specs.Trees.{WellTyped, Over};
ghost use Rattle.vx_tree.specs.Views.{bound_of};
ghost use Rattle.vx_eval.specs.Evaluation.{evaluation};

use crate::blocks::evaluate_over;
use std::alloc::Global;
use vx_dtype::{VortexError, VortexResult};
use vx_tree::BoundExpression;
use vx_value::Column;

/// The value of the tree in each row of the batch: a column of the node's type, as long as the
/// batch, in whose rows stands what the tree's source means there. Asks a well-typed tree. Every
/// node is evaluated, also in a branch that no row chooses.
///
/// Refuses with `ScopeMismatch` (12) exactly where some scope root has another type than the
/// batch; that refusal takes no memory. Else exactly where some node faults on the batch, with the
/// first such fault: the children's from left to right, then the node's, with its lowest row. A
/// result of arithmetic out of the range of its type is `AddOverflow` (13), a whole number by zero
/// `DivisionByZero` (20), a value that a cast's target doesn't take `CastNull` (14), and a fill that
/// is null, not one value, or of a type that isn't filled `BadFill` (15). Refuses with `OutOfMemory`
/// (1) too.
pub fn apply_bound(alloc: Global, batch: &Column, b: &BoundExpression) -> VortexResult<Column>
    requires { WellTyped (bound_of b.now) }
    ensures mismatch { (Over (bound_of b.now) batch.now.type → ⊥) → IsErrOf result ScopeMismatch }
    ensures meaning { Over (bound_of b.now) batch.now.type →
        ReturnsOrOom (λ c. c) result (evaluation (bound_of b.now) batch.now) }
{
    if !b.is_root_bound_to(batch.dtype()) {
        return Err(VortexError::ScopeMismatch);
    }
    let rows = evaluate_over(alloc, batch, b)?;
    let dtype = b.dtype().clone()?;
    Ok(Column::from_shared(dtype, rows))
}

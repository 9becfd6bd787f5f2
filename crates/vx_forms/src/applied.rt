// A source over a batch, in one call.
ghost use Rattle.vx_dtype.specs.Returns.{ReturnsOrOom};
ghost use Rattle.vx_tree.specs.Views.{tree_of};
ghost use Rattle.vx_forms.specs.Applied.{application};

use std::alloc::Global;
use vx_eval::apply_bound;
use vx_tree::{Column, Expression, VortexResult};

/// The value of the expression in each row of the batch: it is bound to the batch's type and evaluated.
/// Who evaluates it over many batches binds it once, and calls `apply_bound`.
///
/// Refuses as binding does (2 and 4 to 11), and else with the first fault (13 to 15 and 20), as
/// `apply_bound` does, or with `OutOfMemory` (1).
pub fn apply(alloc: Global, batch: &Column, expr: &Expression) -> VortexResult<Column>
    ensures { ReturnsOrOom (λ c. c) result (application (tree_of expr.now) batch.now) }
{
    let bound = expr.bind(alloc, batch.dtype())?;
    apply_bound(alloc, batch, &bound)
}

// What the row `fused` shows: the bounds of the row `kleene` as one range.
ghost use Rattle.std.specs.Prelude.{◌≡◌, Ok};
ghost use Rattle.vx_dtype.specs.Returns.{ReturnsOrOom};
ghost use Rattle.vx_value.specs.Views.{type_of};
ghost use Rattle.vx_eval.specs.Evaluation.{evaluation};
ghost use Rattle.vx_tree.specs.Binding.{binding};
ghost use Rattle.vx_tree.specs.Trees.{BoundTree};
ghost use Rattle.vx_tree.specs.Views.{bound_of};
ghost use Rattle.vx_run.specs.Fused.{fused};

use crate::kleene;
use std::alloc::Global;
use vx_dtype::{DType, VortexResult};
use vx_query::run_query;
use vx_rewrite::{Pass, find_between};
use vx_tree::BoundExpression;
use vx_value::Column;

/// `null <= $.x <= 5`, found in the expression of `kleene` over a scope of that type. Asks the type
/// of its rows.
pub fn tree(alloc: Global, scope: &DType) -> VortexResult<BoundExpression>
    requires { type_of scope.now ≡ fused.batch.type }
    ensures { ReturnsOrOom bound_of result (binding fused.source fused.batch.type) }
{
    let unfused = kleene::source(alloc)?;
    let bound = unfused.bind(alloc, scope)?;
    find_between(alloc, bound)
}

/// What the expression of `kleene` gives over the batch, as a query by `find_between`. Asks a batch
/// of the type of its rows.
pub fn result(alloc: Global, batch: &Column) -> VortexResult<Column>
    requires { batch.now.type ≡ fused.batch.type }
    ensures { (b : BoundTree) → binding fused.source fused.batch.type ≡ Ok b → ReturnsOrOom (λ c. c) result (evaluation b batch.now) }
{
    let unfused = kleene::source(alloc)?;
    let answer = run_query(alloc, &unfused, batch, &[Pass::FindBetween], false);
    drop(unfused);
    answer
}

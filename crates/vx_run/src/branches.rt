// What the row `branches` shows: a CASE whose first condition never holds, after the branch rules.
ghost use Rattle.std.specs.Prelude.{◌≡◌, false, Ok, IfOk, IfErr};
ghost use Rattle.vx_dtype.specs.Returns.{ReturnsOrOom};
ghost use Rattle.vx_dtype.specs.declared.error.VortexError.TheVariants.{OutOfMemory};
ghost use Rattle.vx_value.specs.Types.{bool};
ghost use Rattle.vx_value.specs.Views.{type_of};
ghost use Rattle.vx_fn.specs.Functions.{is_null, truth_type};
ghost use Rattle.vx_eval.specs.Evaluation.{evaluation};
ghost use Rattle.vx_tree.specs.Binding.{binding};
ghost use Rattle.vx_tree.specs.Examples.{one, x, lit, lit_i32};
ghost use Rattle.vx_tree.specs.Trees.{BoundTree, call};
ghost use Rattle.vx_tree.specs.Views.{bound_of, tree_of};
ghost use Rattle.vx_run.specs.Branches.{branches, never_then_zero};

use crate::examples::{field_x, number};
use std::alloc::Global;
use vx_build::{is_null, lit, nested_case_when};
use vx_dtype::{DType, VortexResult};
use vx_query::run_query;
use vx_rewrite::{BranchRules, Pass};
use vx_rewrite_core::optimized;
use vx_tree::{BoundExpression, Expression};
use vx_value::{Column, Scalar};

/// `vortex.fill_null($.x, 0)`, left by the branch rules of the CASE over a scope of that type. Asks
/// the type of the rows of `coalesce`.
pub fn tree(alloc: Global, scope: &DType) -> VortexResult<BoundExpression>
    requires { type_of scope.now ≡ branches.batch.type }
    ensures { ReturnsOrOom bound_of result (binding branches.source branches.batch.type) }
{
    let case = source(alloc)?;
    let bound = case.bind(alloc, scope)?;
    optimized(alloc, &BranchRules, &bound)
}

/// What the CASE gives over the batch, as a query by the branch rules. Asks a batch of the type of
/// the rows of `coalesce`.
pub fn result(alloc: Global, batch: &Column) -> VortexResult<Column>
    requires { batch.now.type ≡ branches.batch.type }
    ensures { (b : BoundTree) → binding branches.source branches.batch.type ≡ Ok b → ReturnsOrOom (λ c. c) result (evaluation b batch.now) }
{
    let case = source(alloc)?;
    let answer = run_query(alloc, &case, batch, &[Pass::Branches], false);
    drop(case);
    answer
}

// `CASE WHEN false THEN $.x WHEN $.x is null THEN 0 ELSE $.x END`.
fn source(alloc: Global) -> VortexResult<Expression>
    ensures { ReturnsOrOom tree_of result (Ok never_then_zero) }
{
    let mut cases = Vec::with_capacity(alloc, 2)?;
    cases.push(never(alloc)?)?;
    cases.push(zero_for_null(alloc)?)?;
    let otherwise = field_x(alloc)?;
    nested_case_when(alloc, cases, Some(otherwise))
}

// The condition that never holds, and x beside it.
fn never(alloc: Global) -> VortexResult<(Expression, Expression)>
    ensures condition { IfOk result (λ c. tree_of c.0 ≡ lit (truth_type false) (bool false)) }
    ensures value { IfOk result (λ c. tree_of c.1 ≡ x) }
    ensures memory { IfErr result (λ e. e ≡ OutOfMemory) }
{
    let condition = lit(alloc, Scalar::from_bool(false))?;
    let value = field_x(alloc)?;
    Ok((condition, value))
}

// The condition that x is null, and 0 beside it.
fn zero_for_null(alloc: Global) -> VortexResult<(Expression, Expression)>
    ensures condition { IfOk result (λ c. tree_of c.0 ≡ call is_null (one x)) }
    ensures value { IfOk result (λ c. tree_of c.1 ≡ lit_i32 0) }
    ensures memory { IfErr result (λ e. e ≡ OutOfMemory) }
{
    let condition = is_null(alloc, field_x(alloc)?)?;
    let value = number(alloc, 0)?;
    Ok((condition, value))
}

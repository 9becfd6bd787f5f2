// A plan, with the text that it was made of.
ghost use Rattle.std.specs.Prelude.{◌≡◌, IfErr, IfOk, string_bytes};
ghost use Rattle.vx_command_pages.specs.Inputs.{IsCommandError};
ghost use Rattle.vx_ffi_calls.specs.Stops.{Stops};
ghost use Rattle.vx_ffi_plan.specs.Kept.{IsKept};

use std::alloc::{AllocError, Global};
use vx_command_pages::{CommandError, ReadQuery, plan_of, read_query};
use vx_ffi_calls::{CallError, Given, GivenQuery, read_text, stop_of};
use vx_scan::ScanPlan;
use vx_source::Placed;

/// A plan that is kept between calls, with the expression's text and the places of its nodes, for
/// messages.
#[derive(Drop)]
pub struct KeptPlan {
    pub(crate) text: String,
    pub(crate) placed: Box<Placed>,
    pub(crate) plan: Box<ScanPlan>,
}

/// The plan of the expression over batches of the schema's type, by the folding rules. Stops at what
/// can't be read, and at the first refusal, as [`plan_of`] fails.
pub fn kept_plan(alloc: Global, query: &GivenQuery<'_>) -> Result<Box<KeptPlan>, CallError>
    ensures kept { IfOk result (λ kept. IsKept query.now.expression.now query.now.schema.now kept.value) }
    ensures stop { IfErr result (Stops (IsCommandError query.now.expression.now query.now.schema.now) query.now.expression.now query.now.schema.now) }
{
    let expression = read_text(alloc, Given::Expression, query.expression)?;
    let schema = read_text(alloc, Given::Schema, query.schema)?;
    match planned(alloc, expression, schema) {
        Ok(kept) => Ok(kept),
        Err(error) => Err(stop_of(alloc, &error, expression, schema)),
    }
}

fn planned(alloc: Global, expression: &str, schema: &str) -> Result<Box<KeptPlan>, CommandError>
    ensures kept { IfOk result (λ kept. IsKept expression.now schema.now kept.value) }
    ensures error { IfErr result (IsCommandError expression.now schema.now) }
{
    let ReadQuery { placed, scope } = read_query(alloc, expression, schema)?;
    let plan = plan_of(alloc, &placed, &scope)?;
    Ok(kept(alloc, expression, placed, plan)?)
}

fn kept(
    alloc: Global,
    text: &str,
    placed: Box<Placed>,
    plan: Box<ScanPlan>,
) -> Result<Box<KeptPlan>, AllocError>
    ensures text { IfOk result (λ kept. string_bytes kept.value.text ≡ text.now) }
    ensures placed { IfOk result (λ kept. kept.value.placed ≡ placed) }
    ensures plan { IfOk result (λ kept. kept.value.plan ≡ plan) }
{
    let text = String::from_str(alloc, text)?;
    Ok(Box::new(alloc, KeptPlan { text, placed, plan })?)
}

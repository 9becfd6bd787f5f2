// Plans, and their pages.
ghost use Rattle.std.specs.Prelude.{◌≡◌, false, IfOk, IfErr, string_bytes};
ghost use Rattle.serde_json.specs.View.{view};
ghost use Rattle.serde_json.specs.Written.{compact_text, has_float};
ghost use Rattle.vx_value.specs.Paths.{minimal_paths};
ghost use Rattle.vx_value.specs.Views.{type_of};
ghost use Rattle.vx_tree.specs.Views.{bound_of, tree_of};
ghost use Rattle.vx_query_split.specs.Division.{parts_of};
ghost use Rattle.vx_rewrite_rule_laws.specs.Folding.{FoldingRuleAt};
ghost use Rattle.vx_scan.specs.Plans.{IsPlanFor};
ghost use Rattle.vx_command_pages.specs.Inputs.{IsCommandError, IsRefusal};
ghost use Rattle.vx_command_pages.specs.Spans.{IsRefusalAt};
ghost use Rattle.vx_command_pages.specs.Pages.{line};
ghost use Rattle.vx_command_pages.specs.PlanData.{plan_data};
ghost use Rattle.vx_command_pages.specs.PlanPages.{IsPlanPage, paths_line};

use crate::error::CommandError;
use crate::input::{read_query, refused};
use crate::json::{paths_value, plan_value};
use serde_json::Value;
use std::alloc::{AllocError, Global};
use vx_rewrite::FoldingRules;
use vx_scan::{ScanPlan, plan_with};
use vx_source::Placed;
use vx_tree::DType;
use vx_value::FieldPathSet;

/// The plan of the expression over rows of the schema's type, by the folding rules, as JSON on one line. Fails at what
/// can't be read, at the expression first; else at the first refusal, with its place; and for want of
/// memory.
pub fn plan_page(alloc: Global, expression: &str, schema: &str) -> Result<String, CommandError>
    ensures prints { IfOk result (λ page. IsPlanPage expression.now schema.now (string_bytes page)) }
    ensures error { IfErr result (λ c. IsCommandError expression.now schema.now c) }
{
    let query = read_query(alloc, expression, schema)?;
    let plan = plan_of(alloc, &query.placed, &query.scope)?;
    Ok(plan_line(alloc, &plan)?)
}

/// The plan of an expression that was read, over rows of that type, by the folding rules. Fails at the
/// first refusal, with its place, and for want of memory.
pub fn plan_of(alloc: Global, placed: &Placed, scope: &DType) -> Result<Box<ScanPlan>, CommandError>
    ensures planned { IfOk result (λ p. IsPlanFor FoldingRuleAt (tree_of placed.now.expression) (type_of scope.now) (type_of p.value.scope) (bound_of p.value.tree)) }
    ensures error { IfErr result (λ c. IsRefusal (tree_of placed.now.expression) (type_of scope.now) c) }
    ensures place { IfErr result (λ c. IsRefusalAt placed.now (type_of scope.now) c) }
{
    match plan_with(alloc, &FoldingRules, &placed.expression, scope) {
        Ok(plan) => Ok(Box::new(alloc, plan)?),
        Err(refusal) => Err(refused(alloc, placed, scope, refusal)),
    }
}

/// The paths of which no other is a proper prefix, in their order, as JSON on one line: each as the array of
/// its names.
pub fn paths_page(alloc: Global, paths: &FieldPathSet) -> Result<String, AllocError>
    ensures { IfOk result (λ page. string_bytes page ≡ paths_line paths.now) }
{
    value_line(alloc, &paths_value(alloc, paths)?)
}

// The plan as JSON, on one line.
fn plan_line(alloc: Global, plan: &ScanPlan) -> Result<String, AllocError>
    ensures { IfOk result (λ page. string_bytes page ≡ line (compact_text (plan_data (type_of plan.now.scope) (bound_of plan.now.tree) (minimal_paths plan.now.paths) (parts_of plan.now.split)))) }
{
    value_line(alloc, &plan_value(alloc, plan)?)
}

/// The value on one line. Asks one without floats.
pub(crate) fn value_line(alloc: Global, value: &Value) -> Result<String, AllocError>
    requires { has_float (view value.now) ≡ false }
    ensures { IfOk result (λ page. string_bytes page ≡ line (compact_text (view value.now))) }
{
    let mut page = value.to_string(alloc)?;
    page.push_str("\n")?;
    Ok(page)
}

// The page of `explain`.
ghost use Rattle.std.specs.Prelude.{IfErr};
ghost use Rattle.vx_value.specs.Views.{type_of};
ghost use Rattle.vx_tree.specs.Views.{tree_of};
ghost use Rattle.vx_command_pages.specs.Inputs.{IsCommandError, IsRefusal};
ghost use Rattle.vx_command_pages.specs.Spans.{IsRefusalAt};

use crate::error::CommandError;
use crate::input::{bind, read_query};
use crate::passes::push_passes;
use crate::paths::ReadPaths;
use crate::planned::plan_of;
use crate::shown::{Shown, ShownLines};
use std::alloc::{AllocError, Global};
use vx_rewrite::BoundPartitionedExpr;
use vx_scan::ScanPlan;
use vx_source::{Placed, SourceText, TypeText};
use vx_tree::{BoundExpression, DType, Expression, FieldName};

/// What becomes of the expression over rows of the schema's type: its source text, type and tree; what
/// each pass makes of it, where that changes it; and of its plan the tree, the paths that are read,
/// the root and the partitions. Fails as [`plan_page`](crate::planned::plan_page) does.
pub fn explanation_page(
    alloc: Global,
    expression: &str,
    schema: &str,
) -> Result<String, CommandError>
    ensures { IfErr result (λ c. IsCommandError expression.now schema.now c) }
{
    let query = read_query(alloc, expression, schema)?;
    explanation_of(alloc, &query.placed, &query.scope)
}

/// The same of an expression and a type that were read.
pub fn explanation_of(alloc: Global, placed: &Placed, scope: &DType) -> Result<String, CommandError>
    ensures error { IfErr result (λ c. IsRefusal (tree_of placed.now.expression) (type_of scope.now) c) }
    ensures place { IfErr result (λ c. IsRefusalAt placed.now (type_of scope.now) c) }
{
    let plan = plan_of(alloc, placed, scope)?;
    explanation(alloc, placed, scope, &plan)
}

/// The same of its plan, too.
pub(crate) fn explanation(
    alloc: Global,
    placed: &Placed,
    scope: &DType,
    plan: &ScanPlan,
) -> Result<String, CommandError>
    ensures error { IfErr result (λ c. IsRefusal (tree_of placed.now.expression) (type_of scope.now) c) }
    ensures place { IfErr result (λ c. IsRefusalAt placed.now (type_of scope.now) c) }
{
    let bound = bind(alloc, placed, scope)?;
    let mut page = tree_lines(alloc, &placed.expression, &bound)?;
    push_passes(alloc, &bound, &mut page)?;
    push_plan(alloc, plan, &mut page)?;
    Ok(page)
}

// The lines of the expression as it is.
fn tree_lines(
    alloc: Global,
    source: &Expression,
    bound: &BoundExpression,
) -> Result<String, AllocError> {
    let text = Shown(SourceText(source));
    let dtype = Shown(TypeText(bound.dtype()));
    let tree = ShownLines(bound.display_tree());
    format!(in alloc; "text: {text}\ntype: {dtype}\ntree:\n{tree}\n")
}

// Adds the lines of the plan.
fn push_plan(alloc: Global, plan: &ScanPlan, page: &mut String) -> Result<(), AllocError> {
    let tree = Shown(SourceText(plan.tree()));
    let paths = Shown(ReadPaths(plan.paths()));
    page.push_str(format!(in alloc; "plan: {tree}\nreads: {paths}\n")?.as_str())?;
    match plan.split() {
        Some(split) => push_split(alloc, split, page),
        None => page.push_str("partitions: none\n"),
    }
}

// Adds the lines of the root and the partitions.
fn push_split(
    alloc: Global,
    split: &BoundPartitionedExpr<FieldName>,
    page: &mut String,
) -> Result<(), AllocError> {
    push_tree(alloc, "root", &split.root, page)?;
    let names = split.partition_names.as_slice();
    for (name, tree) in names.iter().zip(split.partitions.as_slice()) {
        let name = format!(in alloc; "partition {}", Shown(name))?;
        push_tree(alloc, name.as_str(), tree, page)?;
    }
    Ok(())
}

// Adds the line of a tree.
fn push_tree(
    alloc: Global,
    name: &str,
    tree: &BoundExpression,
    page: &mut String,
) -> Result<(), AllocError> {
    let text = Shown(SourceText(tree));
    page.push_str(format!(in alloc; "{name}: {text}\n")?.as_str())
}

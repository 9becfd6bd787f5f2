// Trees evaluated over one row.
ghost use Rattle.vx_tree.specs.Trees.{WellTyped};
ghost use Rattle.vx_tree.specs.Views.{bound_of};

use crate::subject::Subject;
use std::alloc::Global;
use vx_dtype::{DType, VortexResult};
use vx_eval::apply_bound;
use vx_query::run_query;
use vx_rewrite::Pass;
use vx_scan::plan;
use vx_value::{Column, Value};

/// The bound tree evaluated.
pub fn evaluate(alloc: Global, subject: &Subject) -> VortexResult<()>
    requires { WellTyped (bound_of subject.now.bound) }
{
    let row = row(alloc, &subject.scope)?;
    drop(apply_bound(alloc, &row, &subject.bound)?);
    Ok(())
}

/// The source as a query, passed by all passes and split.
pub fn query(alloc: Global, subject: &Subject) -> VortexResult<()> {
    let row = row(alloc, &subject.scope)?;
    let passes = [
        Pass::OptimizeRecursive,
        Pass::FindBetween,
        Pass::Branches,
        Pass::Fold,
    ];
    drop(run_query(alloc, &subject.tree, &row, &passes, true)?);
    Ok(())
}

/// The source planned and scanned.
pub fn scan(alloc: Global, subject: &Subject) -> VortexResult<()> {
    let row = row(alloc, &subject.scope)?;
    let plan = plan(alloc, &subject.tree, row.dtype())?;
    let reader = plan.reader_of(row);
    let answer = vx_scan::scan(alloc, &reader, &plan);
    drop(reader);
    drop(answer?);
    Ok(())
}

// One row of a scope `{b: bool, x: i32?}`.
fn row(alloc: Global, scope: &DType) -> VortexResult<Column> {
    let values = vec![in alloc; Value::Bool(true), Value::Int(7)]?;
    let rows = vec![in alloc; Value::Struct(values)]?;
    Column::try_new(scope.clone()?, rows)
}

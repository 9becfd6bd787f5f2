// What `filter` writes.
ghost use Rattle.std.specs.Prelude.{◌≡◌, IfErr, IfOk, IsTrue, OnOk};
ghost use Rattle.vx_value.specs.Views.{type_of};
ghost use Rattle.vx_fn.specs.Functions.{is_truth};
ghost use Rattle.vx_tree.specs.Trees.{node_type};
ghost use Rattle.vx_tree.specs.Views.{bound_of, tree_of};
ghost use Rattle.vx_commands.specs.Rows.{IsBoundCondition, IsFiltered, IsKeptUntil, IsNoCondition, IsNotBool};
ghost use Rattle.vx_commands.specs.Spans.{IsToldAt};

use crate::error::RowsError;
use crate::evaluated::stopped;
use crate::records_query::RecordsQuery;
use std::alloc::Global;
use std::io::Write;
use vx_command_pages::{CommandError, bind};
use vx_dtype::DType;
use vx_records::{RecordReader, filter_records};
use vx_source::Placed;
use vx_tree::BoundExpression;

/// Writes, of the first `limit` records, or of all where there are fewer, those of which the
/// expression is true, each as it stands and on a line of its own, behind the records' heading.
/// Fails at the expression's first refusal over the records' type, at one of another type than
/// bool, and for want of memory, and then nothing is written; and at what stops going over the
/// records, as [`filter_records`] does.
pub fn filter<R: RecordReader, W: Write>(
    alloc: Global,
    query: &RecordsQuery<'_>,
    records: &mut R,
    out: &mut W,
) -> Result<(), RowsError>
    ensures kept { OnOk result (IsFiltered R.leaves (R.scope records.old) (R.head records.old) (tree_of query.now.placed.now.expression) query.now.limit records.old records.new (W.contents out.old) (W.contents out.new)) }
    ensures error { IfErr result (λ c. IsKeptUntil R.leaves (R.scope records.old) (R.head records.old) (tree_of query.now.placed.now.expression) c records.old (W.contents out.old) (W.contents out.new)) }
    ensures place { IfErr result (λ c. IsToldAt query.now.placed.now (R.scope records.old) c) }
{
    let tree = match condition(alloc, query.placed, records.dtype()) {
        Ok(tree) => tree,
        Err(error) => return Err(error),
    };
    match filter_records(alloc, &tree, query.limit, records, out) {
        Ok(()) => Ok(()),
        Err(error) => Err(stopped(query.placed, error)),
    }
}

/// The expression bound to the type of the records. Fails at its first refusal over that type, at
/// one of another type than bool, and for want of memory.
pub fn condition(
    alloc: Global,
    placed: &Placed,
    scope: &DType,
) -> Result<Box<BoundExpression>, RowsError>
    ensures bound { IfOk result (λ tree. IsBoundCondition (tree_of placed.now.expression) (type_of scope.now) (bound_of tree.value)) }
    ensures truth { IfOk result (λ tree. IsTrue (is_truth (node_type (bound_of tree.value)))) }
    ensures error { IfErr result (λ c. IsNoCondition (tree_of placed.now.expression) (type_of scope.now) c) }
    ensures place { IfErr result (λ c. IsToldAt placed.now (type_of scope.now) c) }
{
    let tree = match bind(alloc, placed, scope) {
        Ok(tree) => tree,
        Err(error) => return Err(RowsError::Query(error)),
    };
    match tree.dtype() {
        DType::Bool(_) => Ok(tree),
        dtype => Err(not_bool(dtype)),
    }
}

// The error that the expression is of that type, or want of memory.
fn not_bool(dtype: &DType) -> RowsError
    ensures { IsNotBool (type_of dtype.now) result }
{
    match dtype.clone() {
        Ok(dtype) => RowsError::NotBool(dtype),
        Err(_) => RowsError::Query(CommandError::OutOfMemory),
    }
}

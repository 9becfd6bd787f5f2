// What `eval` writes.
ghost use Rattle.std.specs.Prelude.{◌≡◌, IfErr, OnOk};
ghost use Rattle.vx_tree.specs.Views.{tree_of};
ghost use Rattle.vx_commands.specs.Rows.{IsMeant, IsMeantUntil};
ghost use Rattle.vx_commands.specs.Spans.{IsToldAt, records_span};
ghost use Rattle.vx_commands.specs.declared.error.RowsError.TheVariants.{Records};

use crate::error::RowsError;
use crate::records_query::RecordsQuery;
use std::alloc::Global;
use vx_command_pages::{bind, span_at};
use vx_records::{RecordReader, RecordsError, RowWriter, evaluate_records};
use vx_source::Placed;

/// Writes what the expression means at each of the first `limit` records, or at all where there are
/// fewer, in order. Fails at the expression's first refusal over the records' type, and for want of
/// memory, and then no row is written; and at what stops going over the records, as
/// [`evaluate_records`] does.
pub fn evaluate<R: RecordReader, W: RowWriter>(
    alloc: Global,
    query: &RecordsQuery<'_>,
    records: &mut R,
    out: &mut W,
) -> Result<(), RowsError>
    ensures meant { OnOk result (IsMeant R.leaves (R.scope records.old) (tree_of query.now.placed.now.expression) query.now.limit records.old records.new (W.written out.old) (W.written out.new)) }
    ensures error { IfErr result (λ c. IsMeantUntil R.leaves (R.scope records.old) (tree_of query.now.placed.now.expression) c records.old (W.written out.old) (W.written out.new)) }
    ensures place { IfErr result (λ c. IsToldAt query.now.placed.now (R.scope records.old) c) }
{
    let tree = match bind(alloc, query.placed, records.dtype()) {
        Ok(tree) => tree,
        Err(error) => return Err(RowsError::Query(error)),
    };
    match evaluate_records(alloc, &tree, query.limit, records, out) {
        Ok(()) => Ok(()),
        Err(error) => Err(stopped(query.placed, error)),
    }
}

/// The error of what stopped going over the records, with the bytes of the node that faults, else of the
/// whole expression.
pub(crate) fn stopped(placed: &Placed, error: RecordsError) -> RowsError
    ensures { result ≡ Records error (records_span placed.now error) }
{
    let span = match &error {
        RecordsError::Fault(fault) => span_at(&placed.places, fault.path.as_slice()),
        _ => span_at(&placed.places, &[]),
    };
    RowsError::Records { error, span }
}

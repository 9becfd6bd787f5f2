// What `filter --select` writes.
ghost use Rattle.std.specs.Prelude.{IfErr, OnOk};
ghost use Rattle.vx_tree.specs.Views.{tree_of};
ghost use Rattle.vx_commands.specs.Selected.{IsSelected, IsSelectedUntil};
ghost use Rattle.vx_commands.specs.Spans.{IsSelectToldAt};

use crate::error::RowsError;
use crate::evaluated::stopped;
use crate::filtered::condition;
use std::alloc::Global;
use vx_command_pages::bind;
use vx_records::{RecordReader, RecordsError, RowWriter, SelectError, Selection, select_records};
use vx_source::Placed;

/// An expression that keeps records, what is written of each of these, and how many records are gone
/// over.
#[derive(Clone, Copy)]
pub struct SelectQuery<'a> {
    /// The expression that keeps records, with the bytes that its nodes were read from.
    pub placed: &'a Placed,
    /// The expression that is written of each, with the bytes that its nodes were read from.
    pub value: &'a Placed,
    /// How many records are gone over at most.
    pub limit: u64,
}

/// Why what is selected isn't written of all records that are kept.
#[derive(Debug, Drop)]
pub enum SelectStop {
    /// The expression that keeps records is refused or faults, or going over the records stopped.
    Condition(RowsError),
    /// What is selected of them is refused or faults.
    Value(RowsError),
}

/// Writes what the value means at those of the first `limit` records, or of all where there are fewer,
/// of which the expression is true, in order. Fails at the expression's first refusal over the records'
/// type, at one of another type than bool, at the value's first refusal, and for want of memory, and
/// then no row is written; and at what stops going over the records, as [`select_records`] does.
pub fn select<R: RecordReader, W: RowWriter>(
    alloc: Global,
    query: &SelectQuery<'_>,
    records: &mut R,
    out: &mut W,
) -> Result<(), SelectStop>
    ensures selected { OnOk result (IsSelected R.leaves (R.scope records.old) (tree_of query.now.placed.now.expression) (tree_of query.now.value.now.expression) query.now.limit records.old records.new (W.written out.old) (W.written out.new)) }
    ensures error { IfErr result (λ c. IsSelectedUntil R.leaves (R.scope records.old) (tree_of query.now.placed.now.expression) (tree_of query.now.value.now.expression) c records.old (W.written out.old) (W.written out.new)) }
    ensures place { IfErr result (λ c. IsSelectToldAt query.now.placed.now query.now.value.now (R.scope records.old) c) }
{
    let tree = match condition(alloc, query.placed, records.dtype()) {
        Ok(tree) => tree,
        Err(error) => return Err(SelectStop::Condition(error)),
    };
    let value = match bind(alloc, query.value, records.dtype()) {
        Ok(value) => value,
        Err(error) => return Err(SelectStop::Value(RowsError::Query(error))),
    };
    let selection = Selection {
        condition: &tree,
        value: &value,
    };
    match select_records(alloc, &selection, query.limit, records, out) {
        Ok(()) => Ok(()),
        Err(SelectError::Kept(error)) => {
            Err(SelectStop::Condition(stopped(query.placed, error)))
        }
        Err(SelectError::Selected(fault)) => {
            let error = RecordsError::Fault(fault);
            Err(SelectStop::Value(stopped(query.value, error)))
        }
    }
}

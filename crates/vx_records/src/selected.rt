// What an expression means at the records of which another is true.
ghost use Rattle.std.specs.Prelude.{◌≡◌, IfErr, IfOk, OnOk};
ghost use Rattle.vx_tree.specs.Trees.{WellTyped, Over, unbound};
ghost use Rattle.vx_tree.specs.Views.{bound_of};
ghost use Rattle.vx_records.specs.Outcomes.{EndsRecords, Gains, StopsSelecting};
ghost use Rattle.vx_records.specs.Records.{kept, meanings};

use crate::answers::{are_last, values_of};
use crate::kept::{KeptBatch, next_kept};
use crate::portions::{Gone, Portion, in_portions};
use crate::{RecordReader, RecordsError, RowWriter, SelectError};
use std::alloc::Global;
use vx_tree::BoundExpression;

/// Which records are kept, and what is written of each.
#[derive(Clone, Copy)]
pub struct Selection<'a> {
    /// The tree that is true of those that are kept.
    pub condition: &'a BoundExpression,
    /// The tree whose meaning at each of them is written.
    pub value: &'a BoundExpression,
}

/// Reads the first `limit` records, or all where there are fewer, and writes what the value means at
/// each of them of which the condition is true, in order, behind what its type begins with. The value
/// isn't evaluated at others. Asks well-typed trees over the type of the rows.
///
/// Costs, and stops, as [`filter_records`](crate::filter_records) does, and with `Selected` at the
/// first of the value's faults on those kept of the records that are read together.
pub fn select_records<R: RecordReader, W: RowWriter>(
    alloc: Global,
    selection: &Selection<'_>,
    limit: u64,
    records: &mut R,
    out: &mut W,
) -> Result<(), SelectError>
    requires condition { WellTyped (bound_of selection.now.condition.now) × Over (bound_of selection.now.condition.now) (R.scope records.old) }
    requires value { WellTyped (bound_of selection.now.value.now) × Over (bound_of selection.now.value.now) (R.scope records.old) }
    ensures meant { OnOk result (EndsRecords R.leaves limit records.old records.new
        (λ rs. Gains (W.written out.old) (W.written out.new) (meanings (unbound (bound_of selection.now.value.now)) (R.scope records.old) (kept (unbound (bound_of selection.now.condition.now)) (R.scope records.old) rs)))) }
    ensures stopped { IfErr result (λ e. StopsSelecting R.leaves (bound_of selection.now.condition.now) (bound_of selection.now.value.now) (R.scope records.old) records.old e
        (λ rs. Gains (W.written out.old) (W.written out.new) (meanings (unbound (bound_of selection.now.value.now)) (R.scope records.old) (kept (unbound (bound_of selection.now.condition.now)) (R.scope records.old) rs)))) }
{
    if let Err(e) = out.begin(alloc, selection.value.dtype()) {
        return Err(SelectError::Kept(RecordsError::Write(e)));
    }
    in_portions(alloc, selection, limit, records, out)
}

impl<R: RecordReader, W: RowWriter> Portion<R, W, SelectError> for Selection<'_> {
    ghost asks = { λ f s. (WellTyped (bound_of f.condition.now) × Over (bound_of f.condition.now) s) × (WellTyped (bound_of f.value.now) × Over (bound_of f.value.now) s) };

    ghost writes = { λ f s a b rs. Gains (W.written a) (W.written b) (meanings (unbound (bound_of f.value.now)) s (kept (unbound (bound_of f.condition.now)) s rs)) };

    ghost stops = { λ f s before a b e. StopsSelecting R.leaves (bound_of f.condition.now) (bound_of f.value.now) s before e
        (λ rs. Gains (W.written a) (W.written b) (meanings (unbound (bound_of f.value.now)) s (kept (unbound (bound_of f.condition.now)) s rs))) };

    fn go(&self, alloc: Global, count: usize, records: &mut R, out: &mut W) -> Gone<SelectError> {
        let batch = match next_kept(alloc, self.condition, count, records) {
            Ok(batch) => batch,
            Err(e) => return Err(SelectError::Kept(e)),
        };
        let KeptBatch {
            rows,
            lines,
            read,
            stop,
        } = Box::into_inner(batch);
        let values = match values_of(alloc, self.value, &rows, lines.as_slice()) {
            Ok(values) => values,
            Err(RecordsError::Fault(fault)) => return Err(SelectError::Selected(fault)),
            Err(_) => return Err(SelectError::Kept(RecordsError::OutOfMemory)),
        };
        if let Err(e) = out.write(alloc, &values) {
            return Err(SelectError::Kept(RecordsError::Write(e)));
        }
        match are_last(read, stop, count) {
            Ok(last) => Ok(last),
            Err(e) => Err(SelectError::Kept(e)),
        }
    }
}

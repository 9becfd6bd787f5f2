// What an expression means at records.
ghost use Rattle.std.specs.Prelude.{◌≡◌, IfErr, IfOk, OnOk};
ghost use Rattle.vx_tree.specs.Trees.{WellTyped, Over, unbound};
ghost use Rattle.vx_tree.specs.Views.{bound_of};
ghost use Rattle.vx_records.specs.Outcomes.{EndsRecords, Gains, Stops};
ghost use Rattle.vx_records.specs.Records.{meanings};

use crate::answers::{ended, next_answers};
use crate::portions::{Gone, Portion, in_portions};
use crate::{RecordReader, RecordsError};
use std::alloc::Global;
use vx_data::WriteError;
use vx_dtype::DType;
use vx_tree::BoundExpression;
use vx_value::Column;

/// What rows are written to, one column behind the other.
pub trait RowWriter {
    ghost use Rattle.std.specs.Prelude.{List, Option, None};
    ghost use Rattle.vx_value.specs.Types.{Datum};

    /// The rows that it holds, where they are known.
    ghost written: { Self → Option (List Datum) } = { λ _. None };

    /// Writes what stands before all rows of that type, as a header does.
    fn begin(&mut self, alloc: Global, dtype: &DType) -> Result<(), WriteError>
        ensures { OnOk result (written self.new ≡ written self.old) };

    /// Writes the rows of the column. Refuses a row that can't be written as it is, with the writer's
    /// error, and with `OutOfMemory`.
    fn write(&mut self, alloc: Global, rows: &Column) -> Result<(), WriteError>
        ensures { OnOk result (Gains (written self.old) (written self.new) rows.now.rows) };
}

/// Reads the first `limit` records, or all where there are fewer, and writes what the tree means at
/// each of them, in order, behind what its type begins with. Asks a well-typed tree over the type of
/// the rows.
///
/// Costs, and stops, as [`filter_records`](crate::filter_records) does.
pub fn evaluate_records<R: RecordReader, W: RowWriter>(
    alloc: Global,
    tree: &BoundExpression,
    limit: u64,
    records: &mut R,
    out: &mut W,
) -> Result<(), RecordsError>
    requires typed { WellTyped (bound_of tree.now) }
    requires over { Over (bound_of tree.now) (R.scope records.old) }
    ensures meant { OnOk result (EndsRecords R.leaves limit records.old records.new
        (λ rs. Gains (W.written out.old) (W.written out.new) (meanings (unbound (bound_of tree.now)) (R.scope records.old) rs))) }
    ensures stopped { IfErr result (λ e. Stops R.leaves (bound_of tree.now) records.old e
        (λ rs. Gains (W.written out.old) (W.written out.new) (meanings (unbound (bound_of tree.now)) (R.scope records.old) rs))
        (λ rs. Unit {0})) }
{
    if let Err(e) = out.begin(alloc, tree.dtype()) {
        return Err(RecordsError::Write(e));
    }
    in_portions(alloc, &Evaluated { tree }, limit, records, out)
}

// What a tree means at records.
#[derive(Clone, Copy)]
struct Evaluated<'a> {
    tree: &'a BoundExpression,
}

impl<R: RecordReader, W: RowWriter> Portion<R, W, RecordsError> for Evaluated<'_> {
    ghost asks = { λ f s. WellTyped (bound_of f.tree.now) × Over (bound_of f.tree.now) s };

    ghost writes = { λ f s a b rs. Gains (W.written a) (W.written b) (meanings (unbound (bound_of f.tree.now)) s rs) };

    ghost stops = { λ f s before a b e. Stops R.leaves (bound_of f.tree.now) before e
        (λ rs. Gains (W.written a) (W.written b) (meanings (unbound (bound_of f.tree.now)) s rs)) (λ rs. Unit {0}) };

    fn go(&self, alloc: Global, count: usize, records: &mut R, out: &mut W) -> Gone<RecordsError> {
        let answers = match next_answers(alloc, self.tree, count, records) {
            Ok(answers) => answers,
            Err(e) => return Err(e),
        };
        if let Err(e) = out.write(alloc, &answers.values) {
            return Err(RecordsError::Write(e));
        }
        ended(answers, count)
    }
}

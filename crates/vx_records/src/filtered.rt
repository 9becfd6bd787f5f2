// The records of which an expression is true.
ghost use Rattle.std.specs.Prelude.{◌≡◌, ◌++◌, IfOk, IfErr, OnOk};
ghost use Rattle.std.specs.Io.KnownBytes.{Appends};
ghost use Rattle.vx_tree.specs.Trees.{WellTyped, Over, unbound};
ghost use Rattle.vx_tree.specs.Views.{bound_of};
ghost use Rattle.vx_records.specs.Outcomes.{Breaks, EndsRecords, Stops};
ghost use Rattle.vx_records.specs.Records.{kept_lines};

use crate::answers::{ended, next_answers};
use crate::lines::lines_of;
use crate::portions::{Gone, Portion, in_portions};
use crate::writing::write_text;
use crate::{RecordReader, RecordsError};
use std::alloc::Global;
use std::io::Write;
use vx_tree::BoundExpression;

/// Reads the first `limit` records, or all where there are fewer, and writes the heading and the
/// records of which the tree is true, each as it stands and on a line of its own. A record at which
/// the tree means null or false, or no truth value, isn't written. Asks a well-typed tree over the
/// type of the rows.
///
/// Records are read and written so many at a time, so that the cost is linear in what is read, and
/// in memory are at most 4,096 of them. Stops with `Data` at the first record that isn't read, with
/// `Fault` at the first of the tree's faults on records that are read together, with `Write` where
/// the writer fails, and with `OutOfMemory`; what stands before those records is written.
pub fn filter_records<R: RecordReader, W: Write>(
    alloc: Global,
    tree: &BoundExpression,
    limit: u64,
    records: &mut R,
    out: &mut W,
) -> Result<(), RecordsError>
    requires typed { WellTyped (bound_of tree.now) }
    requires over { Over (bound_of tree.now) (R.scope records.old) }
    ensures kept { OnOk result (EndsRecords R.leaves limit records.old records.new
        (λ rs. Appends (W.contents out.old) (W.contents out.new) (R.head records.old ++ kept_lines (unbound (bound_of tree.now)) (R.scope records.old) rs))) }
    ensures stopped { IfErr result (λ e. Stops R.leaves (bound_of tree.now) records.old e
        (λ rs. Appends (W.contents out.old) (W.contents out.new) (R.head records.old ++ kept_lines (unbound (bound_of tree.now)) (R.scope records.old) rs))
        (λ rs. Breaks (W.contents out.old) (W.contents out.new) (R.head records.old ++ kept_lines (unbound (bound_of tree.now)) (R.scope records.old) rs))) }
{
    write_text(out, records.heading())?;
    in_portions(alloc, &Filtered { tree }, limit, records, out)
}

// The records of which a tree is true.
#[derive(Clone, Copy)]
struct Filtered<'a> {
    tree: &'a BoundExpression,
}

impl<R: RecordReader, W: Write> Portion<R, W, RecordsError> for Filtered<'_> {
    ghost asks = { λ f s. WellTyped (bound_of f.tree.now) × Over (bound_of f.tree.now) s };

    ghost writes = { λ f s a b rs. Appends (W.contents a) (W.contents b) (kept_lines (unbound (bound_of f.tree.now)) s rs) };

    ghost stops = { λ f s before a b e. Stops R.leaves (bound_of f.tree.now) before e
        (λ rs. Appends (W.contents a) (W.contents b) (kept_lines (unbound (bound_of f.tree.now)) s rs))
        (λ rs. Breaks (W.contents a) (W.contents b) (kept_lines (unbound (bound_of f.tree.now)) s rs)) };

    fn go(&self, alloc: Global, count: usize, records: &mut R, out: &mut W) -> Gone<RecordsError> {
        let answers = match next_answers(alloc, self.tree, count, records) {
            Ok(answers) => answers,
            Err(e) => return Err(e),
        };
        let lines = match lines_of(alloc, answers.batch.texts.as_slice(), answers.values.rows()) {
            Ok(lines) => lines,
            Err(_) => return Err(RecordsError::OutOfMemory),
        };
        write_text(out, lines.as_slice())?;
        ended(answers, count)
    }
}

// How many records there are of which an expression is true.
ghost use Rattle.std.specs.Prelude.{◌≡◌, ◌≤◌, IfErr, IfOk, count_by};
ghost use Rattle.vx_value.specs.Views.{value_of};
ghost use Rattle.vx_fn.specs.Values.{is_true};
ghost use Rattle.vx_tree.specs.Trees.{WellTyped, Over, unbound};
ghost use Rattle.vx_tree.specs.Views.{bound_of};
ghost use Rattle.vx_records.specs.Chunks.{IsStep};
ghost use Rattle.vx_records.specs.Outcomes.{EndsRecords, Stops};
ghost use Rattle.vx_records.specs.Records.{kept_count};

use crate::answers::{ended, next_answers};
use crate::{CHUNK, RecordReader, RecordsError};
use std::alloc::Global;
use vx_tree::BoundExpression;
use vx_value::Value;

/// Reads the first `limit` records, or all where there are fewer, and says of how many of them the tree
/// is true. Asks a well-typed tree over the type of the rows.
///
/// Costs, and stops, as [`filter_records`](crate::filter_records) does, but that nothing is written.
pub fn count_records<R: RecordReader>(
    alloc: Global,
    tree: &BoundExpression,
    limit: u64,
    records: &mut R,
) -> Result<u64, RecordsError>
    requires typed { WellTyped (bound_of tree.now) }
    requires over { Over (bound_of tree.now) (R.scope records.old) }
    ensures counted { IfOk result (λ count. EndsRecords R.leaves limit records.old records.new
        (λ rs. count ≡ kept_count (unbound (bound_of tree.now)) (R.scope records.old) rs)) }
    ensures stopped { IfErr result (λ e. Stops R.leaves (bound_of tree.now) records.old e (λ rs. Unit {0}) (λ rs. ⊥)) }
{
    let mut kept: u64 = 0;
    let mut left = limit;
    while left > 0 {
        let count = left.min(CHUNK);
        match count_some(alloc, tree, count as usize, records) {
            Ok(counted) => {
                kept += counted.kept as u64;
                if counted.last {
                    return Ok(kept);
                }
                left -= count;
            }
            Err(e) => return Err(e),
        }
    }
    Ok(kept)
}

// Of how many of some records the tree is true, and whether these were the last.
#[derive(Clone, Copy)]
struct Counted {
    kept: usize,
    last: bool,
}

// The same of so many records.
fn count_some<R: RecordReader>(
    alloc: Global,
    tree: &BoundExpression,
    count: usize,
    records: &mut R,
) -> Result<Counted, RecordsError>
    requires typed { WellTyped (bound_of tree.now) }
    requires over { Over (bound_of tree.now) (R.scope records.old) }
    ensures step { IfOk result (λ counted. IsStep R.leaves count records.old records.new counted.last
        (λ rs. counted.kept ≡ kept_count (unbound (bound_of tree.now)) (R.scope records.old) rs)) }
    ensures stopped { IfErr result (λ e. Stops R.leaves (bound_of tree.now) records.old e (λ rs. Unit {0}) (λ rs. ⊥)) }
    ensures few { IfOk result (λ counted. counted.kept ≤ count) }
    ensures scope { R.scope records.new ≡ R.scope records.old }
{
    let answers = match next_answers(alloc, tree, count, records) {
        Ok(answers) => answers,
        Err(e) => return Err(e),
    };
    let kept = true_count(answers.values.rows());
    match ended(answers, count) {
        Ok(last) => Ok(Counted { kept, last }),
        Err(e) => Err(e),
    }
}

// How many of the values are true.
fn true_count(values: &[Value]) -> usize
    ensures { result ≡ count_by (λ v. is_true (value_of v)) values.now }
{
    values.iter().filter(|value| is_true(value)).count()
}

fn is_true(value: &Value) -> bool
    ensures { result ≡ is_true (value_of value.now) }
{
    matches!(value, Value::Bool(true))
}

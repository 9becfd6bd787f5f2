// What `filter --count` counts.
ghost use Rattle.std.specs.Prelude.{IfErr, IfOk};
ghost use Rattle.vx_tree.specs.Views.{tree_of};
ghost use Rattle.vx_commands.specs.Selected.{IsCounted, IsCountedUntil};
ghost use Rattle.vx_commands.specs.Spans.{IsToldAt};

use crate::error::RowsError;
use crate::evaluated::stopped;
use crate::filtered::condition;
use crate::records_query::RecordsQuery;
use std::alloc::Global;
use vx_records::{RecordReader, count_records};

/// Of how many of the first `limit` records, or of all where there are fewer, the expression is true.
/// Fails as [`filter`](crate::filtered::filter) does, but that nothing is written.
pub fn count<R: RecordReader>(
    alloc: Global,
    query: &RecordsQuery<'_>,
    records: &mut R,
) -> Result<u64, RowsError>
    ensures counted { IfOk result (λ n. IsCounted R.leaves (R.scope records.old) (tree_of query.now.placed.now.expression) query.now.limit records.old records.new n) }
    ensures error { IfErr result (λ c. IsCountedUntil R.leaves (R.scope records.old) (tree_of query.now.placed.now.expression) c records.old) }
    ensures place { IfErr result (λ c. IsToldAt query.now.placed.now (R.scope records.old) c) }
{
    let tree = match condition(alloc, query.placed, records.dtype()) {
        Ok(tree) => tree,
        Err(error) => return Err(error),
    };
    match count_records(alloc, &tree, query.limit, records) {
        Ok(count) => Ok(count),
        Err(error) => Err(stopped(query.placed, error)),
    }
}

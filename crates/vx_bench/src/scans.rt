// Queries that are planned and scanned.
ghost use Rattle.std.specs.Prelude.{◌≡◌};

use crate::digest::Digest;
use crate::query::Query;
use std::alloc::Global;
use vx_dtype::VortexResult;
use vx_projection::ColumnReader;
use vx_scan::{ScanPlan, plan, scan};

/// The digest of the query's column over its batch, by scans.
pub fn scanned(alloc: Global, query: Query, rows: usize, repeats: u32) -> VortexResult<Digest> {
    let batch = query.batch(alloc, rows)?;
    let source = query.tree(alloc)?;
    let plan = plan(alloc, &source, batch.dtype())?;
    let reader = plan.reader_of(batch);
    let answer = repeated(alloc, &reader, &plan, repeats);
    drop(reader);
    answer
}

// Scans the reader's batch so often, for the digest of the last column.
fn repeated(
    alloc: Global,
    reader: &ColumnReader<'_>,
    plan: &ScanPlan,
    repeats: u32,
) -> VortexResult<Digest>
    requires { reader.now.allowed.now ≡ plan.now.paths }
{
    if repeats == 0 {
        return Ok(Digest::default());
    }
    for _ in 1..repeats {
        drop(scan(alloc, reader, plan)?);
    }
    let column = scan(alloc, reader, plan)?;
    Ok(Digest::of(&column))
}

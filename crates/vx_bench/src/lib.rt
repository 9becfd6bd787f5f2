// Calls for the benchmark's driver, which isn't Rattle.
#![tactic(auto)]

ghost use Rattle.std.specs.Prelude.{◌≡◌, ◌≢◌, ◌<◌};

mod arrays;
mod batch;
mod chunks;
mod digest;
mod family;
mod fields;
mod over_a_row;
mod pass;
mod passes;
mod query;
mod query_trees;
mod scans;
mod splits;
mod subject;
mod texts;
mod trees;
mod verdicts;
mod walks;
mod way;

use arrays::over_arrays;
use digest::Digest;
use query::Query;
use scans::scanned;
use std::alloc::Global;
use vx_dtype::{VortexError, VortexResult};
use vx_eval::apply_bound;
use way::Way;

/// How a call ended.
#[derive(Clone, Copy, Debug, PartialEq, Eq)]
pub enum Status {
    /// 0: what was asked for is written.
    Answered,
    /// 1: memory ran out.
    OutOfMemory,
    /// 2: a call was refused for another cause.
    Refused,
    /// 3: nothing has that number.
    NoSuchNumber,
}

/// Makes the batch of so many rows and the bound tree of the query with that number, evaluates the
/// tree so often in the way of that number, each result let go before the next, and writes the digest
/// of the last one; with no repeat nothing is evaluated. Answers the number of a [`Status`]; where
/// that isn't 0, `digest` stays.
#[unsafe(no_mangle)]
pub extern "C" fn vx_evaluate(
    alloc: Global,
    number: u8,
    way: u8,
    rows: usize,
    repeats: u32,
    digest: &mut Digest,
) -> u8
    ensures status { result < 4 }
    ensures kept { result ≢ 0 → digest.new ≡ digest.old }
{
    let (Some(query), Some(way)) = (Query::of(number), Way::of(way)) else {
        return Status::NoSuchNumber as u8;
    };
    let last = match way {
        Way::Column => evaluated(alloc, query, rows, repeats),
        Way::Scan => scanned(alloc, query, rows, repeats),
        Way::Array => over_arrays(alloc, query, rows, repeats),
    };
    answered(last, digest)
}

// The number of the status, with the digest written where there is one.
fn answered(last: VortexResult<Digest>, digest: &mut Digest) -> u8
    ensures status { result < 4 }
    ensures kept { result ≢ 0 → digest.new ≡ digest.old }
{
    match last {
        Ok(last) => {
            *digest = last;
            Status::Answered as u8
        }
        Err(refusal) => refused(refusal),
    }
}

// The number of a refusal's status.
fn refused(refusal: VortexError) -> u8
    ensures status { result < 4 }
    ensures refused { result ≢ 0 }
{
    match refusal {
        VortexError::OutOfMemory => Status::OutOfMemory as u8,
        _ => Status::Refused as u8,
    }
}

// The digest of the query's column over its batch.
fn evaluated(alloc: Global, query: Query, rows: usize, repeats: u32) -> VortexResult<Digest> {
    let batch = query.batch(alloc, rows)?;
    let source = query.tree(alloc)?;
    let tree = source.bind(alloc, batch.dtype())?;
    match last_of(repeats, || apply_bound(alloc, &batch, &tree))? {
        Some(column) => Ok(Digest::of(&column)),
        None => Ok(Digest::default()),
    }
}

// What the last of so many evaluations gives, each let go before the next.
fn last_of<T: Drop, F: Fn() -> VortexResult<T>>(
    repeats: u32,
    evaluate: F,
) -> VortexResult<Option<T>>
    requires { F.IsAlwaysCallable evaluate }
{
    let mut last = None;
    for _ in 0..repeats {
        drop(last);
        last = Some(evaluate()?);
    }
    Ok(last)
}

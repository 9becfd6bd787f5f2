// Records gone over so many at a time.
ghost use Rattle.std.specs.Prelude.{◌≡◌, ◌++◌, [], IfErr, IfOk, List, OnOk};
ghost use Rattle.vx_records.specs.Chunks.{IsStep};
ghost use Rattle.vx_records.specs.Outcomes.{EndsRecords};
ghost use Rattle.vx_records.specs.Reading.{Reads};
ghost use Rattle.vx_records.specs.Records.{Record};

use crate::{CHUNK, RecordReader};
use std::alloc::Global;

/// Whether the records that were gone over were the last, or what stopped there.
pub(crate) type Gone<E> = Result<bool, E>;

/// What is done with the next records of a reader, and a writer.
pub(crate) trait Portion<R: RecordReader, W, E> {
    ghost use Rattle.vx_value.specs.Types.{LogicalType};

    /// What it asks of the type of the rows.
    ghost asks: { Self → LogicalType → Type 0 };

    /// What is written by it of these records, of that type.
    ghost writes: { Self → LogicalType → W → W → List Record → Type 0 };

    /// How it stops at records of that type, with that error.
    ghost stops: { Self → LogicalType → R → W → W → E → Type 0 };

    /// Does it with up to so many records.
    fn go(&self, alloc: Global, count: usize, records: &mut R, out: &mut W) -> Gone<E>
        requires { asks self.now (R.scope records.old) }
        ensures step { IfOk result (λ last. IsStep R.leaves count records.old records.new last (writes self.now (R.scope records.old) out.old out.new)) }
        ensures stopped { IfErr result (λ e. stops self.now (R.scope records.old) records.old out.old out.new e) }
        ensures scope { R.scope records.new ≡ R.scope records.old };
}

/// Does it with the first `limit` records, or with all where there are fewer, in portions of at most 4,096. Asks that what
/// is written of some records stands behind what was written of those before.
pub(crate) fn in_portions<R: RecordReader, W, E, P: Portion<R, W, E>>(
    alloc: Global,
    portion: &P,
    limit: u64,
    records: &mut R,
    out: &mut W,
) -> Result<(), E>
    requires asks { P.asks portion.now (R.scope records.old) }
    requires none { (a : W) → P.writes portion.now (R.scope records.old) a a [] }
    requires on { (a b c : W) (xs ys : List Record) → P.writes portion.now (R.scope records.old) a b xs → P.writes portion.now (R.scope records.old) b c ys → P.writes portion.now (R.scope records.old) a c (xs ++ ys) }
    requires later { (start mid : R) (a b c : W) (e : E) (xs : List Record) → Reads (R.leaves start) (R.leaves mid) xs → P.writes portion.now (R.scope records.old) a b xs → P.stops portion.now (R.scope records.old) mid b c e → P.stops portion.now (R.scope records.old) start a c e }
    ensures written { OnOk result (EndsRecords R.leaves limit records.old records.new (P.writes portion.now (R.scope records.old) out.old out.new)) }
    ensures stopped { IfErr result (λ e. P.stops portion.now (R.scope records.old) records.old out.old out.new e) }
{
    let mut left = limit;
    while left > 0 {
        let count = left.min(CHUNK);
        match portion.go(alloc, count as usize, records, out) {
            Ok(true) => return Ok(()),
            Ok(false) => left -= count,
            Err(e) => return Err(e),
        }
    }
    Ok(())
}

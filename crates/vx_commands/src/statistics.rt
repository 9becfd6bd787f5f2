// Statistics of chunks, as records say them.
use std::alloc::Global;
use vx_data::{DataError, Expected, Fault};
use vx_dtype::FieldName;
use vx_prune::{ChunkRecords, ChunkStats, StatsError};
use vx_records::Record;

/// What the record says of a chunk. Fails at more nulls than rows and at a greatest value below the least
/// one, with the line of the record and the path in it, and for want of memory.
pub fn read_statistics(
    alloc: Global,
    chunks: &ChunkRecords<'_>,
    record: &Record,
) -> Result<ChunkStats, DataError> {
    match chunks.stats(alloc, &record.row) {
        Ok(stats) => Ok(stats),
        Err(error) => Err(fault_of(alloc, chunks, error).on_line(alloc, record.line)),
    }
}

fn fault_of(alloc: Global, chunks: &ChunkRecords<'_>, error: StatsError) -> Fault {
    match error {
        StatsError::OutOfMemory => Fault::OutOfMemory,
        StatsError::Misfit => match chunks.record_type() {
            Ok(dtype) => Fault::new(alloc, Expected::Value(dtype)),
            Err(_) => Fault::OutOfMemory,
        },
        StatsError::MoreNullsThanRows(place) => {
            fault_at(alloc, &place, "nulls", Expected::NoMoreThanRows)
        }
        StatsError::LeastAboveGreatest(place) => {
            fault_at(alloc, &place, "greatest", Expected::NotBelowLeast)
        }
    }
}

// The fault of what is said by that word of the place that is called so.
fn fault_at(alloc: Global, place: &FieldName, word: &str, expected: Expected) -> Fault {
    let Ok(fields) = FieldName::new(alloc, "fields") else {
        return Fault::OutOfMemory;
    };
    let Ok(word) = FieldName::new(alloc, word) else {
        return Fault::OutOfMemory;
    };
    let fault = Fault::new(alloc, expected);
    fault.within(&word).within(place).within(&fields)
}

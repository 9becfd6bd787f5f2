// Records of which those are left out that can't be read.
ghost use Rattle.std.specs.Prelude.{◌≡◌};

use crate::{Record, RecordReader};
use std::alloc::Global;
use vx_data::DataError;
use vx_dtype::DType;

/// The records of a reader, but those that it refuses for what they hold.
#[derive(Drop)]
pub struct Skipping<R> {
    records: R,
    skipped: u64,
    first: Option<DataError>,
}

impl<R: RecordReader> Skipping<R> {
    /// None is read yet.
    pub fn new(records: R) -> Skipping<R> {
        Skipping {
            records,
            skipped: 0,
            first: None,
        }
    }

    /// How many records were left out so far.
    pub fn skipped(&self) -> u64 {
        self.skipped
    }

    /// Why the first of them was refused, if there is one.
    pub fn first_refusal(&self) -> Option<&DataError> {
        self.first.as_ref()
    }

    // Counts a record that is refused, of which the first refusal is kept.
    fn leave_out(&mut self, refusal: DataError)
        ensures { self.new.records ≡ self.old.records }
    {
        self.skipped = self.skipped.saturating_add(1);
        if self.first.is_none() {
            self.first = Some(refusal);
        }
    }
}

impl<R: RecordReader> RecordReader for Skipping<R> {
    ghost use Rattle.vx_records.specs.Skipped.{Skips};

    // What the records' own reader gives, but its refusals of what a record holds.
    ghost leaves = { λ r gs. Skips (R.leaves r.records) gs };

    ghost scope = { λ r. R.scope r.records };

    ghost head = { λ r. R.head r.records };

    fn dtype(&self) -> &DType {
        self.records.dtype()
    }

    fn heading(&self) -> &[u8] {
        self.records.heading()
    }

    fn read(&mut self, alloc: Global) -> Result<Option<Record>, DataError> {
        'refused: for _ in 0..u64::MAX {
            match self.records.read(alloc) {
                Ok(found) => return Ok(found),
                Err(DataError::OutOfMemory) => return Err(DataError::OutOfMemory),
                Err(DataError::Read(e)) => return Err(DataError::Read(e)),
                Err(DataError::Unexpected { line, at, expected }) => {
                    self.leave_out(DataError::Unexpected { line, at, expected });
                }
            }
        }
        // No file has so many records.
        Err(DataError::OutOfMemory)
    }
}

// Records, and what they are read from.
ghost use Rattle.std.specs.Prelude.{◌≡◌, IfOk, IfSome, MatchResult, OnOk, option_map};
ghost use Rattle.vx_value.specs.Fits.{Fits};
ghost use Rattle.vx_value.specs.Views.{type_of, value_of};
ghost use Rattle.vx_records.specs.Reading.{Goes, Refuses};
ghost use Rattle.vx_records.specs.Records.{record_of};

use std::alloc::Global;
use vx_data::{DataError, Expected, Fault};
use vx_dtype::DType;
use vx_value::Value;

/// A record of a file.
#[derive(Debug, Drop)]
pub struct Record {
    /// The record as it stands in the file, without the end of its last line.
    pub text: Vec<u8>,
    /// The row that it is.
    pub row: Value,
    /// The line at which it begins, counted from 1.
    pub line: u64,
}

/// What records are read from, one after another. An impl says by `leaves` what reading may give from
/// here on to the end.
pub trait RecordReader {
    ghost use Rattle.std.specs.Prelude.{ℕ, List};
    ghost use Rattle.vx_value.specs.Types.{LogicalType};
    ghost use Rattle.vx_records.specs.Reading.{Reading};

    /// What reading may give from here on, up to the end: records, and refusals of those that can't be
    /// read.
    ghost leaves: { Self → List Reading → Type 0 };

    /// The type of their rows.
    ghost scope: { Self → LogicalType };

    /// The text before the first record that belongs to any part of them, as a header does.
    ghost head: { Self → List ℕ };

    /// The type of the rows.
    fn dtype(&self) -> &DType
        ensures { type_of result.now ≡ scope self.now };

    /// The text before the first record that belongs to any part of them, with the end of its line:
    /// the header of a CSV file, and nothing where there is none.
    fn heading(&self) -> &[u8]
        ensures { result.now ≡ head self.now };

    /// Reads the next record, whose row is of the type, None at the end. Refuses a record that isn't of
    /// the type, with the reader's error, and with `OutOfMemory`, after which nothing is known of what is
    /// left.
    fn read(&mut self, alloc: Global) -> Result<Option<Record>, DataError>
        ensures read { MatchResult result
            (λ found. Goes (leaves self.old) (leaves self.new) (option_map record_of found))
            (λ e. Refuses (leaves self.old) (leaves self.new) e) }
        ensures fit { IfOk result (λ found. IfSome found (λ r. Fits (value_of r.row) (scope self.old))) }
        ensures scope { scope self.new ≡ scope self.old };
}

/// Refuses a row on that line that isn't of the type, and with `OutOfMemory`.
pub(crate) fn require_fit(
    alloc: Global,
    dtype: &DType,
    line: u64,
    row: &Value,
) -> Result<(), DataError>
    ensures { OnOk result (Fits (value_of row.now) (type_of dtype.now)) }
{
    if row.fits(dtype) {
        return Ok(());
    }
    let fault = Fault::new(alloc, Expected::Value(dtype.clone()?));
    Err(fault.on_line(alloc, line))
}

// Columns of CSV files.
ghost use Rattle.std.specs.Prelude.{◌≡◌, IfOk};
ghost use Rattle.vx_value.specs.Views.{type_of};

use crate::builder::ColumnBuilder;
use crate::csv_files::format::CsvFormat;
use crate::csv_files::parser::CsvParser;
use crate::csv_files::records::CsvRecords;
use crate::error::DataError;
use std::alloc::Global;
use std::io::Read;
use vx_dtype::DType;
use vx_value::Column;

/// The rows of that type that the reader's records are, behind a header with the names of their cells (`CsvParser`).
/// Refuses with the line of the first record that is none, the path of the field, and what is expected there; a file
/// without a header, a header that isn't the type's, a type that no cells make; with the reader's error; and with
/// `OutOfMemory`. Time is linear in what is read. In memory are the rows and one record.
pub fn rows_from_csv<R: Read + Drop>(
    alloc: Global,
    dtype: &DType,
    reader: R,
) -> Result<Column, DataError>
    ensures { IfOk result (λ c. c.type ≡ type_of dtype.now) }
{
    rows_from_csv_with(alloc, dtype, CsvFormat::default(), reader)
}

/// The same of records of that format. Where it has no header, a file without a record is refused.
pub fn rows_from_csv_with<R: Read + Drop>(
    alloc: Global,
    dtype: &DType,
    format: CsvFormat<'_>,
    reader: R,
) -> Result<Column, DataError>
    ensures { IfOk result (λ c. c.type ≡ type_of dtype.now) }
{
    let mut records = CsvRecords::with_format(alloc, reader, format);
    records.read_first()?;
    let parser = CsvParser::with_format(alloc, dtype, records.line(), records.cells(), format)?;
    let mut rows = ColumnBuilder::new(alloc, dtype.clone()?);
    'records: for _ in 0..u64::MAX {
        if !records.read_record()? {
            break;
        }
        let row = parser.parse(records.line(), records.cells())?;
        if let Err(fault) = rows.push(alloc, row) {
            return Err(fault.on_line(alloc, records.line()));
        }
    }
    Ok(rows.finish())
}

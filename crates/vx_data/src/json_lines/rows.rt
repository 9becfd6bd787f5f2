// Columns of files of JSON.
ghost use Rattle.std.specs.Prelude.{◌≡◌, IfOk};
ghost use Rattle.vx_value.specs.Views.{type_of};

use crate::builder::ColumnBuilder;
use crate::error::DataError;
use crate::json_lines::file::JsonFile;
use crate::json_lines::format::JsonFormat;
use crate::json_lines::parser::JsonParser;
use std::alloc::Global;
use std::io::BufRead;
use vx_dtype::DType;
use vx_value::Column;

/// The rows of that type that the reader's lines are, one a line, blank lines left out. Refuses with the first line
/// that is none, the path of the field, and what is expected there; with the reader's error; and with `OutOfMemory`.
/// Time is linear in what is read. In memory are the rows and one line.
pub fn rows_from_json_lines<R: BufRead + Drop>(
    alloc: Global,
    dtype: &DType,
    reader: R,
) -> Result<Column, DataError>
    ensures { IfOk result (λ c. c.type ≡ type_of dtype.now) }
{
    rows_from_json(alloc, dtype, JsonFormat::default(), reader)
}

/// The same of a file of that format.
pub fn rows_from_json<R: BufRead + Drop>(
    alloc: Global,
    dtype: &DType,
    format: JsonFormat,
    reader: R,
) -> Result<Column, DataError>
    ensures { IfOk result (λ c. c.type ≡ type_of dtype.now) }
{
    let mut file = JsonFile::new(alloc, reader, format);
    let mut parser = JsonParser::with_format(alloc, format);
    let mut rows = ColumnBuilder::new(alloc, dtype.clone()?);
    'records: for _ in 0..u64::MAX {
        if !file.read_record()? {
            break;
        }
        let row = parser.parse(dtype, file.line(), file.record())?;
        if let Err(fault) = rows.push(alloc, row) {
            return Err(fault.on_line(alloc, file.line()));
        }
    }
    Ok(rows.finish())
}

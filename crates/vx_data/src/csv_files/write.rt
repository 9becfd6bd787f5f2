// Rows written as CSV files.
use crate::cells::hex_text;
use crate::csv_files::plan::{Cells, FieldPlan, Plan};
use crate::error::WriteError;
use crate::expected::Expected;
use crate::fault::Fault;
use crate::numbers::{float_text, number_text};
use csv::{ByteRecord, Error, ErrorKind, Writer};
use std::alloc::{AllocError, Global};
use std::io::Write;
use vx_dtype::{DType, FieldNames};
use vx_value::{Column, Value};

/// A CSV file that is written column by column, behind a header with the names of the cells.
#[derive(Drop)]
pub struct CsvWriter<W: Write + Drop> {
    alloc: Global,
    dtype: DType,
    plan: Plan,
    writer: Writer<W>,
    record: ByteRecord,
    rows: usize,
}

impl<W: Write + Drop> CsvWriter<W> {
    /// The header of rows of that type is written. Refuses a list with its type, two cells of one name, and a type without
    /// a cell, as row 0; with the writer's error; and with `OutOfMemory`.
    pub fn new(alloc: Global, dtype: &DType, writer: W) -> Result<CsvWriter<W>, WriteError> {
        let Cells { plan, names } = match Cells::of(alloc, dtype) {
            Ok(cells) => cells,
            Err(fault) => return Err(fault.in_row(alloc, 0)),
        };
        let mut writer = Writer::from_writer(writer);
        let header = header_of(alloc, &names)?;
        write_record(&mut writer, &header)?;
        Ok(CsvWriter {
            alloc,
            dtype: dtype.clone()?,
            plan,
            writer,
            record: ByteRecord::new(alloc),
            rows: 0,
        })
    }

    /// Writes the column's rows behind those that were written. Refuses with the row, counted over all columns, and the
    /// path of what would be read back as something else: an empty text of a nullable type, a struct of a nullable type
    /// whose cells are all empty, a row of another type than the header's; with the writer's error; and with
    /// `OutOfMemory`.
    pub fn write(&mut self, column: &Column) -> Result<(), WriteError> {
        if *column.dtype() != self.dtype {
            let expected = Expected::Value(self.dtype.clone()?);
            return Err(Fault::new(self.alloc, expected).in_row(self.alloc, self.rows));
        }
        for row in column.rows() {
            self.write_row(row)?;
        }
        Ok(())
    }

    fn write_row(&mut self, row: &Value) -> Result<(), WriteError> {
        self.record.clear();
        if let Err(fault) = put_value(&self.plan, self.alloc, row, &mut self.record) {
            return Err(fault.in_row(self.alloc, self.rows));
        }
        self.rows = self.rows.saturating_add(1);
        write_record(&mut self.writer, &self.record)
    }

    /// Hands on what waits to be written. Refuses with the writer's error.
    pub fn finish(mut self) -> Result<(), WriteError> {
        match self.writer.flush() {
            Ok(()) => Ok(()),
            Err(e) => Err(refusal(e)),
        }
    }
}

/// Writes the column as a CSV file: a header with the names of the cells, of a field of a field with a dot between the names,
/// and `value` where the type is no struct; then each row as a record, null as an empty cell, a floating-point number with as
/// few digits behind its point as tell it, or as `nan`, `inf`, `-inf`, or `0x` and its bits where it is very large or very
/// small, a decimal with all places of its scale, a day and an instant as a text, or as its number outside the years 1 to
/// 9999, bytes as `0x` and two digits each. It is read back as the column by its type. Refuses what `CsvWriter` refuses.
/// Time is linear in the column.
pub fn write_csv<W: Write + Drop>(
    alloc: Global,
    column: &Column,
    writer: W,
) -> Result<(), WriteError> {
    let mut file = CsvWriter::new(alloc, column.dtype(), writer)?;
    file.write(column)?;
    file.finish()
}

fn header_of(alloc: Global, names: &FieldNames) -> Result<ByteRecord, AllocError> {
    let mut header = ByteRecord::new(alloc);
    for name in names.iter() {
        header.push_field(name.as_str().as_bytes())?;
    }
    Ok(header)
}

fn write_record<W: Write + Drop>(
    writer: &mut Writer<W>,
    record: &ByteRecord,
) -> Result<(), WriteError> {
    match writer.write_byte_record(record) {
        Ok(()) => Ok(()),
        Err(e) => Err(refusal(e)),
    }
}

fn refusal(e: Error) -> WriteError {
    match e.into_kind() {
        ErrorKind::Io(e) => WriteError::from(e),
        _ => WriteError::OutOfMemory,
    }
}

// Puts the value's cells behind those of the record, and tells whether one isn't empty.
#[cycle(put)]
fn put_value(
    plan: &Plan,
    alloc: Global,
    value: &Value,
    record: &mut ByteRecord,
) -> Result<bool, Fault> {
    match plan {
        Plan::Cell { dtype, .. } => put_cell(alloc, dtype, value, record),
        Plan::Struct(plan) => match value {
            Value::Struct(values) => {
                let shown = put_fields(&plan.fields, alloc, values.as_slice(), record)?;
                if plan.nullable && !shown {
                    return Err(Fault::new(alloc, Expected::NonEmptyCell));
                }
                Ok(shown)
            }
            _ => put_blanks(record, plan.start, plan.end),
        },
    }
}

#[cycle(put)]
fn put_fields(
    fields: &Vec<FieldPlan>,
    alloc: Global,
    values: &[Value],
    record: &mut ByteRecord,
) -> Result<bool, Fault> {
    let mut shown = false;
    for (field, value) in fields.iter().zip(values) {
        match put_value(&field.plan, alloc, value, record) {
            Ok(is_shown) => shown |= is_shown,
            Err(fault) => return Err(fault.within(&field.name)),
        }
    }
    Ok(shown)
}

fn put_blanks(record: &mut ByteRecord, start: usize, end: usize) -> Result<bool, Fault> {
    for _ in start..end {
        record.push_field(&[])?;
    }
    Ok(false)
}

fn put_cell(
    alloc: Global,
    dtype: &DType,
    value: &Value,
    record: &mut ByteRecord,
) -> Result<bool, Fault> {
    match value {
        Value::Null => put_text("", record),
        Value::Bool(true) => put_text("true", record),
        Value::Bool(false) => put_text("false", record),
        Value::Int(number) => put_text(number_text(alloc, *number, dtype)?.as_str(), record),
        Value::Float(number) => put_text(float_text(alloc, *number)?.as_str(), record),
        Value::Utf8(text) => {
            if text.is_empty() && dtype.is_nullable() {
                return Err(Fault::new(alloc, Expected::NonEmptyText));
            }
            put_text(text.as_str(), record)
        }
        Value::Binary(bytes) => put_text(hex_text(alloc, bytes.as_slice())?.as_str(), record),
        _ => Err(Fault::new(alloc, Expected::CellType(dtype.clone()?))),
    }
}

fn put_text(text: &str, record: &mut ByteRecord) -> Result<bool, Fault> {
    record.push_field(text.as_bytes())?;
    Ok(!text.is_empty())
}

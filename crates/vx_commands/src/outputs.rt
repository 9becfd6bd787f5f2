// How the rows are written that an expression means.
use crate::table::Table;
use std::alloc::Global;
use std::io::Write;
use vx_data::{CsvWriter, WriteError, write_json_lines};
use vx_dtype::DType;
use vx_records::RowWriter;
use vx_value::Column;

/// In what form rows are written.
#[derive(Clone, Copy, Debug, PartialEq, Eq)]
pub enum OutputFormat {
    /// A line of JSON for each row.
    JsonLines,
    /// A CSV file.
    Csv,
    /// A table with a column for each field, which is written when the last row is known.
    Table,
}

/// Rows that are written in one of the forms.
#[derive(Drop)]
pub enum Output<'a, W: Write> {
    /// As JSON lines.
    JsonLines(&'a mut W),
    /// As a CSV file.
    Csv(CsvOutput<'a, W>),
    /// As a table.
    Table(&'a mut W, Table),
}

/// A CSV file that is begun once the type of its rows is known.
#[derive(Drop)]
pub struct CsvOutput<'a, W: Write> {
    // Where it is written, until it is begun.
    out: Option<&'a mut W>,
    file: Option<CsvWriter<&'a mut W>>,
}

impl<'a, W: Write> CsvOutput<'a, W> {
    fn begin(&mut self, alloc: Global, dtype: &DType) -> Result<(), WriteError> {
        if let Some(out) = self.out.take() {
            // (nothing that holds a `&mut` is dropped in place)
            let before = self.file.replace(CsvWriter::new(alloc, dtype, out)?);
            drop(before);
        }
        Ok(())
    }

    fn write(&mut self, rows: &Column) -> Result<(), WriteError> {
        match &mut self.file {
            Some(file) => file.write(rows),
            None => Ok(()),
        }
    }

    fn finish(self) -> Result<(), WriteError> {
        let file = self.file;
        match file {
            Some(file) => file.finish(),
            None => Ok(()),
        }
    }
}

impl<'a, W: Write> Output<'a, W> {
    /// No row yet, of that form. Takes no memory.
    pub fn new(alloc: Global, format: OutputFormat, out: &'a mut W) -> Output<'a, W> {
        match format {
            OutputFormat::JsonLines => Output::JsonLines(out),
            OutputFormat::Csv => Output::Csv(CsvOutput {
                out: Some(out),
                file: None,
            }),
            OutputFormat::Table => Output::Table(out, Table::new(alloc)),
        }
    }

    /// Writes what waits to be written: of a table all. Refuses with the writer's error, and with
    /// `OutOfMemory`.
    pub fn finish(self, alloc: Global) -> Result<(), WriteError> {
        match self {
            Output::JsonLines(_) => Ok(()),
            Output::Csv(file) => file.finish(),
            Output::Table(out, table) => table.write(alloc, out),
        }
    }
}

impl<'a, W: Write> RowWriter for Output<'a, W> {
    fn begin(&mut self, alloc: Global, dtype: &DType) -> Result<(), WriteError> {
        match self {
            Output::JsonLines(_) => Ok(()),
            Output::Csv(file) => file.begin(alloc, dtype),
            Output::Table(_, table) => table.begin(alloc, dtype),
        }
    }

    fn write(&mut self, alloc: Global, rows: &Column) -> Result<(), WriteError> {
        match self {
            Output::JsonLines(out) => write_json_lines(alloc, rows, out),
            Output::Csv(file) => file.write(rows),
            Output::Table(_, table) => table.push(alloc, rows),
        }
    }
}

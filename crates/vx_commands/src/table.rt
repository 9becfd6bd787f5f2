// Tables of rows, as text in columns of one width.
use std::alloc::{AllocError, Global};
use std::fmt;
use std::fmt::{Display, Formatter};
use std::io::Write;
use unicode_width::UnicodeWidthStr;
use vx_command_pages::Shown;
use vx_data::WriteError;
use vx_dtype::DType;
use vx_value::{Column, Value};

/// A table that is made: its lines of cells, the names of the columns first.
#[derive(Drop)]
pub struct Table {
    lines: Vec<Vec<String>>,
}

impl Table {
    /// A table without a line. Takes no memory.
    pub(crate) fn new(alloc: Global) -> Table {
        Table {
            lines: Vec::new(alloc),
        }
    }

    /// Adds the names of the fields of that type, or `value` where it is no struct.
    pub(crate) fn begin(&mut self, alloc: Global, dtype: &DType) -> Result<(), WriteError> {
        let mut cells = Vec::new(alloc);
        match dtype {
            DType::Struct(fields, _) => {
                for name in fields.names().iter() {
                    cells.push(format!(in alloc; "{}", Shown(name))?)?;
                }
            }
            _ => cells.push(String::from_str(alloc, "value")?)?,
        }
        self.lines.push(cells)?;
        Ok(())
    }

    /// Adds a line for each row.
    pub(crate) fn push(&mut self, alloc: Global, rows: &Column) -> Result<(), WriteError> {
        for row in rows.rows() {
            self.lines.push(cells_of(alloc, row)?)?;
        }
        Ok(())
    }

    /// Writes the lines, each cell as wide as the widest of its column.
    pub(crate) fn write<W: Write>(self, alloc: Global, out: &mut W) -> Result<(), WriteError> {
        let widths = self.widths(alloc)?;
        let mut text = String::new(alloc);
        for line in &self.lines {
            push_line(line, widths.as_slice(), &mut text)?;
        }
        out.write_all(text.as_bytes())?;
        Ok(())
    }

    // For each column how wide its widest cell is.
    fn widths(&self, alloc: Global) -> Result<Vec<usize>, AllocError> {
        let mut widths: Vec<usize> = Vec::new(alloc);
        for line in &self.lines {
            for (i, cell) in line.iter().enumerate() {
                let width = cell.as_str().width();
                match widths.get_mut(i) {
                    Some(widest) => *widest = width.max(*widest),
                    None => widths.push(width)?,
                }
            }
        }
        Ok(widths)
    }
}

// The cells of a row: its fields, or the row itself where it is no struct.
fn cells_of(alloc: Global, row: &Value) -> Result<Vec<String>, AllocError> {
    let mut cells = Vec::new(alloc);
    match row {
        Value::Struct(values) => {
            for value in values {
                cells.push(format!(in alloc; "{}", CellText(value))?)?;
            }
        }
        _ => cells.push(format!(in alloc; "{}", CellText(row))?)?,
    }
    Ok(cells)
}

// Adds the cells, with two spaces between them and none at the end.
fn push_line(cells: &[String], widths: &[usize], text: &mut String) -> Result<(), AllocError> {
    let mut blanks = 0;
    for (cell, width) in cells.iter().zip(widths) {
        for _ in 0..blanks {
            text.push_str(" ")?;
        }
        text.push_str(cell.as_str())?;
        let filled = cell.as_str().width();
        blanks = width.saturating_sub(filled).saturating_add(2);
    }
    text.push_str("\n")
}

// A value as a person reads it, without its type, and with control characters escaped.
#[derive(Clone, Copy)]
struct CellText<'a>(&'a Value);

impl Display for CellText<'_> {
    fn fmt<W: fmt::Write>(&self, f: &mut Formatter<W>) -> fmt::Result {
        write_cell(self.0, f)
    }
}

#[cycle(cell)]
fn write_cell<W: fmt::Write>(value: &Value, f: &mut Formatter<W>) -> fmt::Result {
    match value {
        Value::Null => f.write_str("null"),
        Value::Bool(truth) => truth.fmt(f),
        Value::Int(number) => number.fmt(f),
        Value::Float(number) => number.fmt(f),
        Value::Utf8(text) => Shown(text.as_str()).fmt(f),
        Value::Binary(bytes) => {
            f.write_str("0x")?;
            for byte in bytes {
                write!(f, "{byte:02x}")?;
            }
            Ok(())
        }
        Value::List(items) => write_cells("[", items, "]", f),
        Value::Struct(values) => write_cells("{", values, "}", f),
    }
}

// Writes the values with commas between them.
#[cycle(cell)]
fn write_cells<W: fmt::Write>(
    open: &str,
    values: &Vec<Value>,
    close: &str,
    f: &mut Formatter<W>,
) -> fmt::Result {
    f.write_str(open)?;
    for (i, value) in values.iter().enumerate() {
        if i > 0 {
            f.write_str(", ")?;
        }
        write_cell(value, f)?;
    }
    f.write_str(close)
}

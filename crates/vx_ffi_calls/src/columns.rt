// What an expression means, kept until all of it is known.
ghost use Rattle.std.specs.Prelude.{◌≡◌, [], IfOk};
ghost use Rattle.vx_ffi_calls.specs.RowPages.{lines_of};

use std::alloc::Global;
use vx_data::{WriteError, write_json_lines};
use vx_dtype::DType;
use vx_records::RowWriter;
use vx_value::Column;

/// Columns in the order in which they were written.
#[derive(Drop)]
pub(crate) struct Columns {
    columns: Vec<Column>,
}

impl Columns {
    /// No column. Takes no memory.
    pub(crate) fn new(alloc: Global) -> Columns
        ensures { result.columns.items ≡ [] }
    {
        Columns {
            columns: Vec::new(alloc),
        }
    }

    /// A line of JSON for each row. Refuses with the first row that can't be written, and with
    /// `OutOfMemory`.
    pub(crate) fn lines(&self, alloc: Global) -> Result<Vec<u8>, WriteError>
        ensures { IfOk result (λ lines. lines.items ≡ lines_of self.now.columns.items) }
    {
        let mut lines = Vec::new(alloc);
        for column in &self.columns {
            write_json_lines(alloc, column, &mut lines)?;
        }
        Ok(lines)
    }
}

impl RowWriter for Columns {
    ghost use Rattle.std.specs.Prelude.{Some};
    ghost use Rattle.vx_ffi_calls.specs.RowPages.{rows_in};

    ghost written = { λ c. Some (rows_in c.columns.items) };

    fn begin(&mut self, _alloc: Global, _dtype: &DType) -> Result<(), WriteError> {
        Ok(())
    }

    fn write(&mut self, _alloc: Global, rows: &Column) -> Result<(), WriteError> {
        Ok(self.columns.push(rows.clone()?)?)
    }
}

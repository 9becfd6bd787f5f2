// Columns that grow row by row.
ghost use Rattle.std.specs.Prelude.{◌≡◌, ◌==◌, ◌++◌, ◌∷◌, [], OnErr, OnOk, length};
ghost use Rattle.vx_value.specs.Columns.{batch};
ghost use Rattle.vx_value.specs.Views.{type_of, value_of};

use crate::fault::{Fault, misfit};
use std::alloc::Global;
use std::marker::Model;
use vx_dtype::DType;
use vx_value::{Column, Value};

/// The rows of a column that is being made, each a value of its type.
#[derive(Debug, Drop)]
pub struct ColumnBuilder {
    dtype: DType,
    rows: Vec<Value>,
}

impl Model for ColumnBuilder {
    ghost use Rattle.std.specs.Prelude.{◌≡◌, None, map};
    ghost use Rattle.vx_value.specs.Columns.{Batch, batch_code, batch, first_misfit};
    ghost use Rattle.vx_value.specs.Views.{type_of, value_of};

    ghost Value = { Batch };

    ghost coded = { batch_code };

    ghost view = { λ c. batch (type_of c.dtype) (map value_of c.rows.items) };

    ghost invariant = { λ c. first_misfit (type_of c.dtype) (map value_of c.rows.items) ≡ None };
}

impl ColumnBuilder {
    /// No row of that type yet. Takes no memory.
    pub fn new(alloc: Global, dtype: DType) -> ColumnBuilder
        ensures { result ≡ batch (type_of dtype) [] }
    {
        ColumnBuilder {
            dtype,
            rows: Vec::new(alloc),
        }
    }

    /// The type of the rows.
    pub fn dtype(&self) -> &DType
        ensures { type_of result.now ≡ self.now.type }
    {
        &self.dtype
    }

    /// How many rows there are.
    pub fn len(&self) -> usize
        ensures { result ≡ length self.now.rows }
    {
        self.rows.len()
    }

    /// Whether there is no row.
    pub fn is_empty(&self) -> bool
        ensures { result ≡ (length self.now.rows == 0) }
    {
        self.rows.is_empty()
    }

    /// One more row. Refuses one that isn't a value of the type, and with `OutOfMemory`; the rows stay as they were
    /// then.
    pub fn push(&mut self, alloc: Global, row: Value) -> Result<(), Fault>
        ensures ok { OnOk result (self.new ≡ batch self.old.type (self.old.rows ++ value_of row ∷ [])) }
        ensures err { OnErr result (self.new ≡ self.old) }
    {
        if !row.fits(&self.dtype) {
            return Err(misfit(alloc, &self.dtype));
        }
        Ok(self.rows.push(row)?)
    }

    /// The column of the rows. Takes no memory.
    pub fn finish(self) -> Column
        ensures { result ≡ self }
    {
        let ColumnBuilder { dtype, rows } = self;
        Column::try_new(dtype, rows).unwrap()
    }
}

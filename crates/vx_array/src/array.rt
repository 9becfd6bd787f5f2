// Columns in typed buffers.
ghost use Rattle.std.specs.Prelude.{◌≡◌, ◌≤◌, ◌<◌, ◌+◌, ◌==◌, IfOk, None, Ok, count_by, drop, get_or, length, map, take};
ghost use Rattle.vx_value.specs.Columns.{batch, first_misfit};
ghost use Rattle.vx_value.specs.Returns.{ReturnsOrOom};
ghost use Rattle.vx_value.specs.Types.{is_null_datum, null};
ghost use Rattle.vx_value.specs.Views.{type_of, value_of};
ghost use Rattle.vx_array.specs.Arrays.{batch_or_misfit};
ghost use Rattle.vx_array.specs.Rows.{lanes_rows};

use crate::lanes::Lanes;
use crate::part::Part;
use crate::texts::write_rows;
use crate::values::{to_values, value_at};
use std::alloc::{AllocError, Global};
use std::fmt;
use std::marker::Model;
use std::sync::Arc;
use vx_dtype::{DType, VortexError, VortexResult};
use vx_value::{Column, Value};

/// Rows in buffers beside their type, each of which is a value of that type. Clones and slices share the
/// buffers. Contracts see an array as the batch that a column of the same rows is.
#[derive(Debug)]
pub struct Array {
    dtype: DType,
    lanes: Lanes,
}

impl Drop for Array {
    fn drop(self) {
        let Array { dtype, lanes } = self;
        drop(dtype);
        drop(lanes);
    }
}

impl Model for Array {
    ghost use Rattle.std.specs.Prelude.{◌≡◌, None};
    ghost use Rattle.vx_value.specs.Columns.{Batch, batch_code, batch, first_misfit};
    ghost use Rattle.vx_value.specs.Views.{type_of};
    ghost use Rattle.vx_array.specs.Rows.{lanes_rows};

    ghost Value = { Batch };

    ghost coded = { batch_code };

    ghost view = { λ a. batch (type_of a.dtype) (lanes_rows a.lanes) };

    ghost invariant = { λ a. first_misfit (type_of a.dtype) (lanes_rows a.lanes) ≡ None };
}

impl Array {
    /// The lanes as rows of that type. Asks rows that all are values of the type.
    pub fn new(dtype: DType, lanes: Lanes) -> Array
        requires { first_misfit (type_of dtype) (lanes_rows lanes) ≡ None }
        ensures { result ≡ batch (type_of dtype) (lanes_rows lanes) }
    {
        Array { dtype, lanes }
    }

    /// The lanes as rows of that type. Refuses with `RowMisfit` (18) and the index of the first row that
    /// isn't a value of the type, and with `OutOfMemory` (1). Reads each row once.
    pub fn try_new(alloc: Global, dtype: DType, lanes: Lanes) -> VortexResult<Array>
        ensures { ReturnsOrOom (λ a. a) result (batch_or_misfit (type_of dtype) (lanes_rows lanes)) }
    {
        match first_misfit(alloc, &dtype, &lanes)? {
            None => Ok(Array { dtype, lanes }),
            Some(row) => Err(VortexError::RowMisfit { row }),
        }
    }

    /// The rows of a column, which share its values where the column does, and else copy them. Refuses with
    /// `OutOfMemory` (1) alone.
    pub fn from_column(alloc: Global, column: &Column) -> VortexResult<Array>
        ensures { ReturnsOrOom (λ a. a) result (Ok column.now) }
    {
        let _ = column.rows();
        let values = rows_of(alloc, column)?;
        let dtype = column.dtype().clone()?;
        Ok(Array {
            dtype,
            lanes: Lanes::Values(values),
        })
    }

    /// The column of the same rows. Refuses with `OutOfMemory` (1) alone.
    pub fn to_column(&self, alloc: Global) -> VortexResult<Column>
        ensures { ReturnsOrOom (λ c. c) result (Ok self.now) }
    {
        let values = to_values(alloc, &self.lanes)?;
        let dtype = self.dtype.clone()?;
        Ok(Column::from_shared(dtype, Arc::new(alloc, values)?))
    }

    /// The type of the rows.
    pub fn dtype(&self) -> &DType
        ensures { type_of result.now ≡ self.now.type }
    {
        &self.dtype
    }

    /// The rows in buffers.
    pub fn lanes(&self) -> &Lanes
        ensures rows { lanes_rows result.now ≡ self.now.rows }
        ensures fit { first_misfit self.now.type self.now.rows ≡ None }
    {
        &self.lanes
    }

    /// The number of rows.
    pub fn len(&self) -> usize
        ensures { result ≡ length self.now.rows }
    {
        self.lanes().len()
    }

    /// Whether there is no row.
    pub fn is_empty(&self) -> bool
        ensures { result ≡ (length self.now.rows == 0) }
    {
        self.len() == 0
    }

    /// The value of that row. Asks an index below `len`, and refuses with `OutOfMemory` (1) alone.
    pub fn value(&self, alloc: Global, i: usize) -> VortexResult<Value>
        requires { i < length self.now.rows }
        ensures { ReturnsOrOom value_of result (Ok (get_or self.now.rows i null)) }
    {
        let value = value_at(alloc, self.lanes(), i)?;
        Ok(value)
    }

    /// Whether the row is null, as one is that isn't there.
    pub fn is_null(&self, i: usize) -> bool
        ensures { result ≡ is_null_datum (get_or self.now.rows i null) }
    {
        self.lanes().is_null(i)
    }

    /// How many rows are null. Looks at each row.
    pub fn null_count(&self) -> usize
        ensures { result ≡ count_by is_null_datum self.now.rows }
    {
        self.lanes().null_count()
    }

    /// So many rows from one on, in the same buffers. Asks rows that are there, and refuses with
    /// `OutOfMemory` (1) alone.
    pub fn slice(&self, from: usize, len: usize) -> VortexResult<Array>
        requires { from + len ≤ length self.now.rows }
        ensures { ReturnsOrOom (λ a. a) result (Ok (batch self.now.type (take len (drop from self.now.rows)))) }
    {
        let lanes = self.lanes.slice(from, len)?;
        let dtype = self.dtype.clone()?;
        Ok(Array { dtype, lanes })
    }
}

impl Clone for Array {
    ghost is_clone = { λ a copy. copy ≡ a };

    fn clone(&self) -> Result<Array, AllocError> {
        Ok(Array {
            dtype: self.dtype.clone()?,
            lanes: self.lanes.clone()?,
        })
    }
}

// The text is that of a column of the same rows, and is written from the buffers.
impl fmt::Display for Array {
    ghost use Rattle.std.specs.Prelude.{Some};
    ghost use Rattle.vx_value.specs.ValueTexts.{column_text};

    ghost output = { λ a. Some (column_text a.rows a.type) };

    fn fmt<W: fmt::Write>(&self, f: &mut fmt::Formatter<W>) -> fmt::Result {
        write_rows(&self.lanes, &self.dtype, f)
    }
}

// The index of the first row that isn't a value of the type.
fn first_misfit(alloc: Global, dtype: &DType, lanes: &Lanes) -> Result<Option<usize>, AllocError>
    ensures { IfOk result (λ row. row ≡ first_misfit (type_of dtype.now) (lanes_rows lanes.now)) }
{
    for i in 0..lanes.len() {
        let value = value_at(alloc, lanes, i)?;
        if !value.fits(dtype) {
            return Ok(Some(i));
        }
    }
    Ok(None)
}

// The values of a column, copied unless they are shared.
fn rows_of(alloc: Global, column: &Column) -> Result<Part<Value>, AllocError>
    ensures { IfOk result (λ p. map value_of p ≡ column.now.rows) }
{
    if let Some(shared) = column.shared_rows() {
        return Part::from_shared(shared);
    }
    Part::new(alloc, copies(alloc, column.rows())?)
}

// A copy of each value.
fn copies(alloc: Global, values: &[Value]) -> Result<Vec<Value>, AllocError>
    ensures { IfOk result (λ copies. map value_of copies.items ≡ map value_of values.now) }
{
    let mut copies = Vec::with_capacity(alloc, values.len())?;
    for value in values {
        copies.push(value.clone()?)?;
    }
    Ok(copies)
}

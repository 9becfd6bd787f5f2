// Columns: rows of one type.
ghost use Rattle.std.specs.Prelude.{◌≡◌, ⊤, ◌<◌, ◌==◌, IsOkAnd, IsErrOf, MatchOption, None, Ok, length, map, get_or};
ghost use Rattle.std.specs.Cmp.{partial_equiv_from_equiv};
ghost use Rattle.vx_value.specs.Returns.{ReturnsOrOom};
ghost use Rattle.vx_value.specs.Columns.{batch, first_misfit, equal_batch};
ghost use Rattle.vx_value.specs.Deciding.{equal_batch_equiv};
ghost use Rattle.vx_value.specs.Types.{null};
ghost use Rattle.vx_value.specs.Fits.{Fits};
ghost use Rattle.vx_value.specs.Views.{rows_held, type_of, value_of};
ghost use Rattle.vx_dtype.specs.declared.error.VortexError.TheVariants.{RowMisfit};

use crate::Value;
use crate::column_rows::ColumnRows;
use crate::value::equal_all;
use crate::value_texts::write_list;
use std::alloc::{AllocError, Global};
use std::fmt;
use std::marker::Model;
use std::sync::Arc;
use vx_dtype::{DType, VortexError, VortexResult};

/// Rows beside their type, each of which is a value of that type. A column holds its rows by itself
/// until it is made to share them (`into_shared`); a clone of one that shares its rows copies none.
#[derive(Debug)]
pub struct Column {
    dtype: DType,
    rows: ColumnRows,
}

impl Drop for Column {
    fn drop(self) {
        let Column { dtype, rows } = self;
        drop(dtype);
        drop(rows);
    }
}

impl Model for Column {
    ghost use Rattle.std.specs.Prelude.{◌≡◌, None};
    ghost use Rattle.vx_value.specs.Columns.{Batch, batch_code, batch, first_misfit};
    ghost use Rattle.vx_value.specs.Views.{rows_held, type_of};

    ghost Value = { Batch };

    ghost coded = { batch_code };

    ghost view = { λ c. batch (type_of c.dtype) (rows_held c.rows) };

    ghost invariant = { λ c. first_misfit (type_of c.dtype) (rows_held c.rows) ≡ None };
}

impl Column {
    /// The column of these rows, which are moved. Refuses with `RowMisfit` (18) and the index of the
    /// first row that isn't a value of the type. Takes no memory.
    pub fn try_new(dtype: DType, rows: Vec<Value>) -> VortexResult<Column>
        ensures { MatchOption (first_misfit (type_of dtype) (map value_of rows.items))
            (IsOkAnd result (λ c. c ≡ batch (type_of dtype) (map value_of rows.items)))
            (λ row. IsErrOf result (RowMisfit row)) }
    {
        match first_misfit(&dtype, rows.as_slice()) {
            None => Ok(Column {
                dtype,
                rows: ColumnRows::Own(rows),
            }),
            Some(row) => Err(VortexError::RowMisfit { row }),
        }
    }

    /// The column of rows that are shared already. Asks rows that all are values of the type.
    pub fn from_shared(dtype: DType, rows: Arc<Vec<Value>>) -> Column
        requires { first_misfit (type_of dtype) (map value_of rows.value.items) ≡ None }
        ensures { result ≡ batch (type_of dtype) (map value_of rows.value.items) }
    {
        Column {
            dtype,
            rows: ColumnRows::Shared(rows),
        }
    }

    /// The same column, whose clones share its rows from now on, and so does what is evaluated over it and
    /// has them as they are. Moves the rows into a block of their own, unless they are in one.
    /// Refuses with `OutOfMemory` (1) alone.
    pub fn into_shared(self, alloc: Global) -> VortexResult<Column>
        ensures { ReturnsOrOom (λ c. c) result (Ok self) }
    {
        let Column { dtype, rows } = self;
        Ok(Column::from_shared(dtype, rows.into_shared(alloc)?))
    }

    /// The rows.
    pub fn rows(&self) -> &[Value]
        ensures rows { map value_of result.now ≡ self.now.rows }
        ensures fit { first_misfit self.now.type self.now.rows ≡ None }
    {
        self.rows.as_slice()
    }

    /// The rows where the column shares them.
    pub fn shared_rows(&self) -> Option<&Arc<Vec<Value>>>
        ensures { MatchOption result ⊤ (λ rows. map value_of rows.now.value.items ≡ self.now.rows) }
    {
        self.rows.shared()
    }

    // The type, and the rows.
    pub(crate) fn into_parts(self) -> (DType, ColumnRows)
        ensures dtype { type_of result.0 ≡ self.type }
        ensures rows { rows_held result.1 ≡ self.rows }
        ensures fit { first_misfit self.type self.rows ≡ None }
    {
        let Column { dtype, rows } = self;
        (dtype, rows)
    }

    /// The number of rows.
    pub fn len(&self) -> usize
        ensures { result ≡ length self.now.rows }
    {
        self.rows().len()
    }

    /// Whether there is no row.
    pub fn is_empty(&self) -> bool
        ensures { result ≡ (length self.now.rows == 0) }
    {
        self.rows().is_empty()
    }

    /// The type of the rows.
    pub fn dtype(&self) -> &DType
        ensures { type_of result.now ≡ self.now.type }
    {
        &self.dtype
    }

    /// The row of that index. Asks an index below `len`.
    pub fn row(&self, i: usize) -> &Value
        requires { i < length self.now.rows }
        ensures value { value_of result.now ≡ get_or self.now.rows i null }
        ensures fits { Fits (value_of result.now) self.now.type }
    {
        &self.rows()[i]
    }
}

impl Clone for Column {
    ghost is_clone = { λ c copy. copy ≡ c };

    fn clone(&self) -> Result<Column, AllocError> {
        Ok(Column {
            dtype: self.dtype.clone()?,
            rows: self.rows.clone()?,
        })
    }
}

impl PartialEq for Column {
    ghost eq = { equal_batch };

    ghost laws = { partial_equiv_from_equiv equal_batch_equiv };

    fn eq(&self, other: &Column) -> bool {
        self.dtype == other.dtype && equal_all(self.rows(), other.rows())
    }
}

impl Eq for Column {
    ghost laws = { equal_batch_equiv };
}

impl fmt::Display for Column {
    ghost use Rattle.std.specs.Prelude.{Some};
    ghost use Rattle.vx_value.specs.ValueTexts.{column_text};

    ghost output = { λ c. Some (column_text c.rows c.type) };

    fn fmt<W: fmt::Write>(&self, f: &mut fmt::Formatter<W>) -> fmt::Result {
        write_list(self.rows(), &self.dtype, f)
    }
}

// The index of the first row that isn't a value of the type.
fn first_misfit(t: &DType, rows: &[Value]) -> Option<usize>
    ensures { result ≡ first_misfit (type_of t.now) (map value_of rows.now) }
{
    for (i, row) in rows.iter().enumerate() {
        if !row.fits(t) {
            return Some(i);
        }
    }
    None
}

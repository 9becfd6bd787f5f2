// Columns joined into a column of structs.
ghost use Rattle.std.specs.Prelude.{◌≡◌, ◌<◌, ℕ, IsErrOf, IfOk, false, length, map};
ghost use Rattle.vx_value.specs.Returns.{ReturnsOrOom};
ghost use Rattle.vx_value.specs.StructColumns.{all_long, rows_in, types_in, HaveRow, struct_rows, struct_column, EachFit, columns_of};
ghost use Rattle.vx_value.specs.Views.{admits_null, type_of, value_of};
ghost use Rattle.vx_dtype.specs.declared.error.VortexError.TheVariants.{LengthMismatch};

use crate::{Column, Value, take_row};
use std::alloc::{AllocError, Global};
use std::sync::Arc;
use vx_dtype::{DType, FieldNames, Nullability, StructFields, VortexError, VortexResult};

impl Column {
    /// The column of so many structs, none of them null, each of the columns' values in its row
    /// under these names; values that no other column shares are moved. Asks one name a column.
    /// Refuses with `LengthMismatch` (19) where some column has another number of rows, before it
    /// takes any memory, and with `OutOfMemory` (1).
    pub fn struct_of(
        alloc: Global,
        names: FieldNames,
        columns: Vec<Column>,
        rows: usize,
        nullability: Nullability,
    ) -> VortexResult<Column>
        requires { length names ≡ length columns.items }
        ensures column { ReturnsOrOom (λ c. c) result (struct_column names columns.items rows (admits_null nullability)) }
        ensures mismatch { all_long rows columns.items ≡ false → IsErrOf result LengthMismatch }
    {
        if !all_long(columns.as_slice(), rows) {
            return Err(VortexError::LengthMismatch);
        }
        let (types, values) = parted(alloc, columns)?;
        let structs = struct_rows(alloc, values, rows)?;
        let fields = StructFields::new(alloc, names, types)?;
        let dtype = DType::Struct(fields, nullability);
        Ok(Column::from_shared(dtype, Arc::new(alloc, structs)?))
    }
}

// Whether each column has so many rows.
fn all_long(columns: &[Column], rows: usize) -> bool
    ensures { result ≡ all_long rows columns.now }
{
    columns.iter().all(|column| column.len() == rows)
}

// The types of the columns, and their values: moved out of those that share them with no other,
// and copied out of the others.
fn parted(alloc: Global, columns: Vec<Column>) -> Result<(Vec<DType>, Vec<Vec<Value>>), AllocError>
    ensures types { IfOk result (λ parts. map type_of parts.0.items ≡ types_in columns.items) }
    ensures values { IfOk result (λ parts. columns_of parts.1.items ≡ rows_in columns.items) }
    ensures fit { IfOk result (λ parts. EachFit columns.items) }
{
    let mut types = Vec::with_capacity(alloc, columns.len())?;
    let mut values = Vec::with_capacity(alloc, columns.len())?;
    for column in columns {
        let (dtype, rows) = column.into_parts();
        types.push(dtype)?;
        values.push(rows.into_values()?)?;
    }
    Ok((types, values))
}

// The structs of the first so many rows of the columns, moved out of them.
fn struct_rows(
    alloc: Global,
    mut columns: Vec<Vec<Value>>,
    rows: usize,
) -> Result<Vec<Value>, AllocError>
    requires { (k : ℕ) → k < rows → HaveRow k (columns_of columns.items) }
    ensures { IfOk result (λ structs. map value_of structs.items ≡ struct_rows rows (columns_of columns.items)) }
{
    let mut structs = Vec::with_capacity(alloc, rows)?;
    for i in 0..rows {
        structs.push(take_row(alloc, &mut columns, i)?)?;
    }
    Ok(structs)
}

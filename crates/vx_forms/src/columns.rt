// Columns of Rust values.
ghost use Rattle.std.specs.Prelude.{◌≡◌, IsErrOf, Ok, false, map};
ghost use Rattle.vx_dtype.specs.Returns.{ReturnsOrOom};
ghost use Rattle.vx_dtype.specs.declared.error.VortexError.TheVariants.{LengthMismatch};
ghost use Rattle.vx_value.specs.Columns.{batch};
ghost use Rattle.vx_value.specs.StructColumns.{all_long, struct_column};
ghost use Rattle.vx_forms.specs.Named.{beside, named};
ghost use Rattle.vx_forms.specs.Rows.{first_length};

use crate::names::{IntoFieldName, unzip_named};
use crate::native::Native;
use std::alloc::Global;
use vx_dtype::{FieldNames, Nullability, VortexResult};
use vx_value::Column;

/// The column of these values, as `[1, 2]`, `[Some("a"), None]` or `[true]`; it is nullable where they
/// are `Option`s. Refuses with `OutOfMemory` (1) alone.
pub fn column<T: Native, const N: usize>(alloc: Global, values: [T; N]) -> VortexResult<Column>
    ensures { ReturnsOrOom (λ c. c) result (Ok (batch T.logical_type (map T.datum values))) }
{
    column_of(alloc, Vec::from_array(alloc, values)?)
}

/// The column of these values, as [`column`] makes it of an array.
pub fn column_of<T: Native>(alloc: Global, values: Vec<T>) -> VortexResult<Column>
    ensures { ReturnsOrOom (λ c. c) result (Ok (batch T.logical_type (map T.datum values.items))) }
{
    let mut rows = Vec::with_capacity(alloc, values.len())?;
    for value in values {
        rows.push(value.into_value(alloc)?)?;
    }
    Column::try_new(T::dtype(), rows)
}

/// The column of structs, none of them null, of these columns under their names: as long as the first
/// one, and empty where there is none. Refuses with `LengthMismatch` (19) where another column is of
/// another length, and with `OutOfMemory` (1).
pub fn struct_column<N: IntoFieldName, const K: usize>(
    alloc: Global,
    fields: [(N, Column); K],
) -> VortexResult<Column>
    ensures { ReturnsOrOom (λ c. c) result (struct_column (named N.name fields) (beside fields) (first_length (beside fields)) false) }
{
    let (names, columns) = unzip_named(alloc, Vec::from_array(alloc, fields)?)?;
    let rows = first_length(columns.as_slice());
    let names = FieldNames::new(alloc, names)?;
    Column::struct_of(alloc, names, columns, rows, Nullability::NonNullable)
}

// The length of the first column, 0 where there is none.
fn first_length(columns: &[Column]) -> usize
    ensures { result ≡ first_length columns.now }
{
    match columns.first() {
        Some(column) => column.len(),
        None => 0,
    }
}

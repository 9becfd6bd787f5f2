// A reader of one's own, as an example: rows kept as arrays, one for each field.
#![tactic(auto)]

ghost use Rattle.std.specs.Prelude.{◌≡◌, IsErrOf, Ok, IfErr, IfOk, false, length, map, true};
ghost use Rattle.std.specs.Coded.{Coded-set};
ghost use Rattle.vx_value.specs.Returns.{ReturnsOrOom};
ghost use Rattle.vx_value.specs.Codes.{type_code};
ghost use Rattle.vx_value.specs.Fits.{IsBatch};
ghost use Rattle.vx_value.specs.Paths.{minimal_paths, path_of};
ghost use Rattle.vx_value.specs.StructColumns.{EachFit, all_long, struct_column, struct_type, types_in};
ghost use Rattle.vx_value.specs.Views.{type_of};
ghost use Rattle.vx_dtype.specs.declared.error.VortexError.TheVariants.{LengthMismatch, OutOfMemory};
ghost use Rattle.vx_example_field_columns.specs.FieldColumns.{is_asked, joined, reaches, read_column, read_columns};

use std::alloc::{AllocError, Global};
use vx_array::Array;
use vx_array_build::struct_of;
use vx_array_projection::{ArrayReader, read_referenced_array};
use vx_dtype::{
    DType, FieldName, FieldNames, Nullability, StructFields, VortexError, VortexResult,
};
use vx_value::{Field, FieldPathSet};

#[cfg(test)]
mod tests;

/// Rows of structs, none of them null, kept as an array for each field, and read by their fields: a read
/// along paths shares the buffers of the arrays whose names some path begins with, and looks at no value of
/// the others, unless the root path asks for all. It costs nothing a row where the structs on the paths'
/// ways are in buffers.
#[derive(Drop)]
pub struct FieldColumns {
    dtype: DType,
    names: FieldNames,
    columns: Vec<Array>,
    rows: usize,
    allowed: FieldPathSet,
    ghost named: { length names ≡ length columns.items },
    ghost typed: { type_of dtype ≡ struct_type names columns.items false } by { Coded-set type_code (type_of dtype) (struct_type names columns.items false) },
    ghost long: { all_long rows columns.items ≡ true },
    ghost fit: { IsBatch (joined names columns.items rows).type (joined names columns.items rows).rows },
}

impl FieldColumns {
    /// So many rows, whose fields have these names and stand in these columns, and of which the paths
    /// of [`FieldPathSet::iter`] may be read. Asks one name a column.
    ///
    /// Refuses with `LengthMismatch` (19) where some column has another number of rows, before it
    /// takes any memory, and with `OutOfMemory` (1).
    pub fn try_new(
        alloc: Global,
        names: FieldNames,
        columns: Vec<Array>,
        rows: usize,
        allowed: FieldPathSet,
    ) -> VortexResult<FieldColumns>
        requires { length names ≡ length columns.items }
        ensures batch { ReturnsOrOom (λ r. joined r.names r.columns.items r.rows) result (struct_column names columns.items rows false) }
        ensures allowed { IfOk result (λ r. r.allowed ≡ allowed) }
        ensures mismatch { all_long rows columns.items ≡ false → IsErrOf result LengthMismatch }
    {
        if !all_long(columns.as_slice(), rows) {
            return Err(VortexError::LengthMismatch);
        }
        let dtype = rows_type(alloc, &names, columns.as_slice())?;
        Ok(FieldColumns {
            dtype,
            names,
            columns,
            rows,
            allowed,
        })
    }
}

// Whether each column has so many rows.
fn all_long(columns: &[Array], rows: usize) -> bool
    ensures { result ≡ all_long rows columns.now }
{
    columns.iter().all(|column| column.len() == rows)
}

// The type of rows of those fields. Asks one name a column.
fn rows_type(alloc: Global, names: &FieldNames, columns: &[Array]) -> VortexResult<DType>
    requires { length names.now ≡ length columns.now }
    ensures typed { IfOk result (λ t. type_of t ≡ struct_type names.now columns.now false) }
    ensures fit { IfOk result (λ t. EachFit columns.now) }
    ensures memory { IfErr result (λ e. e ≡ OutOfMemory) }
{
    let types = types_in(alloc, columns)?;
    let fields = StructFields::new(alloc, names.clone()?, types)?;
    Ok(DType::Struct(fields, Nullability::NonNullable))
}

// The types of the columns.
fn types_in(alloc: Global, columns: &[Array]) -> Result<Vec<DType>, AllocError>
    ensures types { IfOk result (λ types. map type_of types.items ≡ types_in columns.now) }
    ensures fit { IfOk result (λ types. EachFit columns.now) }
{
    let mut types = Vec::with_capacity(alloc, columns.len())?;
    for column in columns {
        // (what it promises is that the rows fit)
        let _ = column.lanes();
        types.push(column.dtype().clone()?)?;
    }
    Ok(types)
}

impl ArrayReader for FieldColumns {
    ghost batch = { λ r. joined r.names r.columns.items r.rows };

    ghost allowed = { λ r. minimal_paths r.allowed };

    fn dtype(&self) -> &DType {
        &self.dtype
    }

    fn read(&self, alloc: Global, paths: &FieldPathSet) -> VortexResult<Array> {
        let columns = read_columns(alloc, self.names.as_slice(), self.columns.as_slice(), paths)?;
        let names = self.names.clone()?;
        let joined = struct_of(alloc, names, columns.as_slice(), self.rows, None)?;
        read_referenced_array(alloc, &joined, paths)
    }
}

// The arrays, and one default in place of each that the paths don't ask for.
fn read_columns(
    alloc: Global,
    names: &[FieldName],
    columns: &[Array],
    paths: &FieldPathSet,
) -> VortexResult<Vec<Array>>
    requires { length names.now ≡ length columns.now }
    ensures { ReturnsOrOom (λ read. read.items) result (Ok (read_columns (minimal_paths paths.now) names.now columns.now)) }
{
    let mut read = Vec::with_capacity(alloc, columns.len())?;
    for i in 0..columns.len() {
        read.push(read_column(alloc, &names[i], &columns[i], paths)?)?;
    }
    Ok(read)
}

// The array of the field of that name, or as many defaults, for which no value is looked at.
fn read_column(
    alloc: Global,
    name: &FieldName,
    column: &Array,
    paths: &FieldPathSet,
) -> VortexResult<Array>
    ensures { ReturnsOrOom (λ read. read) result (Ok (read_column (minimal_paths paths.now) name.now column.now)) }
{
    if is_asked(paths, name) {
        return Ok(column.clone()?);
    }
    read_referenced_array(alloc, column, &FieldPathSet::new(alloc))
}

// Whether the paths ask for the field of that name.
fn is_asked(paths: &FieldPathSet, name: &FieldName) -> bool
    ensures { result ≡ is_asked (minimal_paths paths.now) name.now }
{
    paths.iter().any(|path| reaches(name, path.parts()))
}

// Whether the path leads to the field, into it, or to the whole row.
fn reaches(name: &FieldName, path: &[Field]) -> bool
    ensures { result ≡ reaches name.now (path_of path.now) }
{
    match path {
        [Field::Name(first), ..] => *name == *first,
        [] => true,
    }
}

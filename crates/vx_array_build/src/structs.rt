// Arrays of structs.
ghost use Rattle.std.specs.Prelude.{◌≡◌, IfOk, IsErrOf, false, length, map};
ghost use Rattle.vx_dtype.specs.Returns.{ReturnsOrOom};
ghost use Rattle.vx_dtype.specs.declared.error.VortexError.TheVariants.{LengthMismatch};
ghost use Rattle.vx_value.specs.StructColumns.{EachFit, all_long, rows_in, types_in};
ghost use Rattle.vx_value.specs.Views.{type_of};
ghost use Rattle.vx_array.specs.Rows.{lanes_each};
ghost use Rattle.vx_array_build.specs.Built.{structs_by};

use crate::validity::{nullability, or_all};
use std::alloc::{AllocError, Global};
use std::sync::Arc;
use vx_array::{Array, Lanes, Stretch, Validity};
use vx_dtype::{DType, FieldNames, StructFields, VortexError, VortexResult};

/// The array of so many structs of the columns' rows under these names, which shares the columns' buffers.
/// With a validity it is nullable, and has as many rows as that has. Asks one name a column. Refuses with
/// `LengthMismatch` (19) where some column has another number of rows, before it takes any memory, and with
/// `OutOfMemory` (1).
pub fn struct_of(
    alloc: Global,
    names: FieldNames,
    columns: &[Array],
    rows: usize,
    validity: Option<Validity>,
) -> VortexResult<Array>
    requires { length names ≡ length columns.now }
    ensures structs { ReturnsOrOom (λ a. a) result (structs_by names columns.now rows validity) }
    ensures mismatch { all_long rows columns.now ≡ false → IsErrOf result LengthMismatch }
{
    if !all_long(columns, rows) {
        return Err(VortexError::LengthMismatch);
    }
    let (types, lanes) = parted(alloc, columns)?;
    let fields = StructFields::new(alloc, names, types)?;
    let dtype = DType::Struct(fields, nullability(&validity));
    let lanes = Arc::new(alloc, lanes)?;
    Ok(Array::new(
        dtype,
        Lanes::Structs(lanes, Stretch::first(rows), or_all(validity)),
    ))
}

// Whether each column has so many rows.
fn all_long(columns: &[Array], rows: usize) -> bool
    ensures { result ≡ all_long rows columns.now }
{
    columns.iter().all(|column| column.len() == rows)
}

// The types of the columns, and their rows, which share the columns' buffers.
fn parted(alloc: Global, columns: &[Array]) -> Result<(Vec<DType>, Vec<Lanes>), AllocError>
    ensures types { IfOk result (λ parts. map type_of parts.0.items ≡ types_in columns.now) }
    ensures lanes { IfOk result (λ parts. lanes_each parts.1.items ≡ rows_in columns.now) }
    ensures fit { IfOk result (λ parts. EachFit columns.now) }
{
    let mut types = Vec::with_capacity(alloc, columns.len())?;
    let mut lanes = Vec::with_capacity(alloc, columns.len())?;
    for i in 0..columns.len() {
        let column = &columns[i];
        types.push(column.dtype().clone()?)?;
        lanes.push(column.lanes().clone()?)?;
    }
    Ok((types, lanes))
}

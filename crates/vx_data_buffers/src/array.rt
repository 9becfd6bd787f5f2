// Arrays, column by column.
ghost use Rattle.std.specs.Prelude.{◌≡◌, ◌+◌, ◌≤◌, IfErr, IfOk, IfSome, List, Bool, Ok, length, map};
ghost use Rattle.vx_data_buffers.specs.declared.error.BufferError.TheVariants.{OutOfMemory};
ghost use Rattle.vx_data_buffers.specs.Arrays.{AreBits, HaveFields, IsColumn};
ghost use Rattle.vx_data_buffers.specs.Bytes.{bytes_in};
ghost use Rattle.vx_data_buffers.specs.Layout.{buffer_count, field_buffer_count};
ghost use Rattle.vx_data_buffers.specs.Results.{BufferReturnsOrOom};
ghost use Rattle.vx_data_buffers.specs.Rows.{column_said};
ghost use Rattle.vx_array_build.specs.Built.{column_by, structs_by};
ghost use Rattle.vx_value.specs.Columns.{Batch};
ghost use Rattle.vx_value.specs.StructColumns.{types_in};
ghost use Rattle.vx_value.specs.Types.{atomic, bool, truth};
ghost use Rattle.vx_value.specs.Views.{fields_of, names_of, type_of};
ghost use Rattle.vx_dtype.specs.Fields.{fields_named};

use crate::buffer::bytes_at;
use crate::column::column_of;
use crate::counts::buffer_count;
use crate::floats::floats_in;
use crate::numbers::numbers_in;
use crate::validity::{bits_in, if_nullable, validity_at};
use crate::{Buffer, BufferError};
use std::alloc::Global;
use vx_array::{Array, Validity};
use vx_array_build::{booleans, struct_of};
use vx_dtype::{DType, StructFields, VortexError, VortexResult};
use vx_value::Column;

/// The array of that type whose rows these buffers have, so many of them: the rows of [`column_of`], or its
/// refusal. Truth values, whole and floating-point numbers, days, instants and structs of them are read at
/// once, into buffers of the array's own. Where the type has other values, or a row is refused, rows are
/// read one by one, as there.
///
/// Takes time in the number of the values, and for each struct in that of the buffers inside it.
pub fn array_of(
    alloc: Global,
    dtype: DType,
    rows: usize,
    buffers: &[Buffer<'_>],
) -> Result<Array, BufferError>
    ensures { BufferReturnsOrOom (λ a. a) result (column_said (bytes_in buffers.now) (type_of dtype) rows) }
{
    if let Some(array) = read_at_once(alloc, &dtype, rows, buffers)? {
        return Ok(array);
    }
    let column = column_of(alloc, dtype, rows, buffers)?;
    match array_from(alloc, column) {
        Ok(array) => Ok(array),
        Err(_) => Err(BufferError::OutOfMemory),
    }
}

// The same, where all is read at once.
fn read_at_once(
    alloc: Global,
    dtype: &DType,
    rows: usize,
    buffers: &[Buffer<'_>],
) -> Result<Option<Array>, BufferError>
    ensures said { IfOk result (λ found. IfSome found (λ a. column_said (bytes_in buffers.now) (type_of dtype.now) rows ≡ Ok a)) }
    ensures memory { IfErr result (λ e. e ≡ OutOfMemory) }
{
    let expected = buffer_count(dtype).ok_or(BufferError::OutOfMemory)?;
    if buffers.len() != expected {
        return Ok(None);
    }
    match array_at(alloc, buffers, dtype, 0, rows) {
        Ok(Some(array)) => {
            // each row is a value of the type
            let _ = array.lanes();
            Ok(Some(array))
        }
        Ok(None) => Ok(None),
        Err(_) => Err(BufferError::OutOfMemory),
    }
}

// The rows of a column, which the array shares.
fn array_from(alloc: Global, column: Column) -> VortexResult<Array>
    ensures { IfOk result (λ a. a ≡ column) }
{
    let column = column.into_shared(alloc)?;
    Array::from_column(alloc, &column)
}

// So many rows of the type's column, whose first buffer has that index, where they are read at once.
#[cycle(array)]
fn array_at(
    alloc: Global,
    buffers: &[Buffer<'_>],
    t: &DType,
    at: usize,
    rows: usize,
) -> VortexResult<Option<Array>>
    requires { at + buffer_count (type_of t.now) ≤ length buffers.now }
    ensures { IfOk result (λ found. IfSome found (IsColumn (bytes_in buffers.now) (type_of t.now) at rows)) }
{
    let is_nullable = t.is_nullable();
    let Some(validity) = validity_at(alloc, buffers, at, rows, is_nullable)? else {
        return Ok(None);
    };
    let validity = if_nullable(is_nullable, validity);
    let next = at + 1;
    match t {
        DType::Bool(_) => truths_in(alloc, bytes_at(buffers, next), rows, validity),
        DType::Float(float_type, _) => {
            floats_in(alloc, bytes_at(buffers, next), *float_type, rows, validity)
        }
        DType::Struct(fields, _) => match columns_at(alloc, buffers, fields, next, rows)? {
            Some(columns) => structs_of(alloc, fields, columns.as_slice(), rows, validity),
            None => Ok(None),
        },
        _ => numbers_in(alloc, bytes_at(buffers, next), t, rows, validity),
    }
}

// The array of so many truth values. None where there are fewer.
fn truths_in(
    alloc: Global,
    bytes: &[u8],
    rows: usize,
    validity: Option<Validity>,
) -> VortexResult<Option<Array>>
    ensures { IfOk result (λ found. IfSome found (λ a. (bits : List Bool) × AreBits bytes.now rows bits × (a ≡ column_by (atomic truth) validity (map bool bits)))) }
{
    match bits_in(alloc, bytes, rows)? {
        Some(bits) => Ok(Some(booleans(alloc, bits, validity)?)),
        None => Ok(None),
    }
}

// The array of so many structs of these columns, one a field.
fn structs_of(
    alloc: Global,
    fields: &StructFields,
    columns: &[Array],
    rows: usize,
    validity: Option<Validity>,
) -> VortexResult<Option<Array>>
    requires { length columns.now ≡ length (names_of fields.now) }
    ensures { IfOk result (λ found. IfSome found (λ a. structs_by (names_of fields.now) columns.now rows validity ≡ Ok a)) }
{
    let names = fields.names().clone()?;
    Ok(Some(struct_of(alloc, names, columns, rows, validity)?))
}

// The columns of the fields, the first of whose buffers has that index.
#[cycle(array)]
fn columns_at(
    alloc: Global,
    buffers: &[Buffer<'_>],
    fields: &StructFields,
    first: usize,
    rows: usize,
) -> VortexResult<Option<Vec<Array>>>
    requires { first + field_buffer_count (fields_of fields.now) ≤ length buffers.now }
    ensures fields { IfOk result (λ found. IfSome found (λ cs. HaveFields (bytes_in buffers.now) (fields_of fields.now) first rows cs.items)) }
    ensures types { IfOk result (λ found. IfSome found (λ cs. fields_named (names_of fields.now) (types_in cs.items) ≡ fields_of fields.now)) }
    ensures count { IfOk result (λ found. IfSome found (λ cs. length cs.items ≡ length (names_of fields.now))) }
{
    let types = fields.types();
    // (a struct may have names without a type)
    if fields.names().len() != fields.nfields() {
        return Ok(None);
    }
    let mut columns = Vec::with_capacity(alloc, fields.nfields())?;
    let mut at = first;
    for field in 0..fields.nfields() {
        let t = &types[field];
        match array_at(alloc, buffers, t, at, rows)? {
            Some(column) => columns.push(column)?,
            None => return Ok(None),
        }
        at += buffer_count(t).ok_or(VortexError::OutOfMemory)?;
    }
    Ok(Some(columns))
}

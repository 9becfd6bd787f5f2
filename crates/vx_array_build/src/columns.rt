// Arrays out of columns.
ghost use Rattle.std.specs.Prelude.{◌≡◌, ◌<◌, ℕ, IfOk, IfSome, Ok, true, get_or, length, map};
ghost use Rattle.vx_dtype.specs.Returns.{ReturnsOrOom};
ghost use Rattle.vx_value.specs.Types.{null};
ghost use Rattle.vx_value.specs.Views.{value_of};
ghost use Rattle.vx_value.specs.Items.{item_at};
ghost use Rattle.vx_array.specs.Rows.{lanes_rows};
ghost use Rattle.vx_array_build.specs.Filled.{HasItems, rows_lent};

use crate::filled::{bits_of, numbers_of, octets_of, texts_of, truths_of, validity_of};
use crate::float_bits::FloatBits;
use crate::lane_types::lane_type;
use crate::native::Native;
use std::alloc::{AllocError, Global};
use std::sync::Arc;
use vx_array::{Array, Lanes, Part, Stretch};
use vx_dtype::{DType, FloatType, PType, StructFields, VortexResult};
use vx_value::{Column, Value};

/// The array of a column's rows, in a buffer of their own width where they are truth values, whole or
/// floating-point numbers, days, instants, texts or bytes, or structs of such. Copies them, and refuses with
/// `OutOfMemory` (1) alone.
pub fn from_column(alloc: Global, column: &Column) -> VortexResult<Array>
    ensures { ReturnsOrOom (λ a. a) result (Ok column.now) }
{
    let lanes = typed_lanes(alloc, column.dtype(), column.rows())?;
    let dtype = column.dtype().clone()?;
    Ok(Array::new(dtype, lanes))
}

// The lanes of these values, in buffers for the type's kind.
pub(crate) fn typed_lanes(
    alloc: Global,
    dtype: &DType,
    values: &[Value],
) -> Result<Lanes, AllocError>
    ensures { IfOk result (λ lanes. lanes_rows lanes ≡ map value_of values.now) }
{
    let nothing = Value::Null;
    let rows = lent(alloc, values)?;
    lanes_of(alloc, dtype, rows.as_slice(), &nothing)
}

// The values, lent one by one.
fn lent<'a>(alloc: Global, values: &'a [Value]) -> Result<Vec<&'a Value>, AllocError>
    ensures { IfOk result (λ rows. rows_lent rows.items ≡ map value_of values.now) }
{
    let mut rows = Vec::with_capacity(alloc, values.len())?;
    for i in 0..values.len() {
        rows.push(&values[i])?;
    }
    Ok(rows)
}

// The lanes of these values, in buffers for the type's kind. Where a value isn't of that kind they are
// boxed values. `nothing` is null, and lent for the items of structs that are null.
#[cycle(fill)]
fn lanes_of<'a>(
    alloc: Global,
    dtype: &DType,
    rows: &[&'a Value],
    nothing: &'a Value,
) -> Result<Lanes, AllocError>
    requires { value_of nothing.now ≡ null }
    ensures { IfOk result (λ lanes. lanes_rows lanes ≡ rows_lent rows.now) }
{
    let typed = match dtype {
        DType::Bool(_) => truth_lanes(alloc, rows)?,
        DType::Float(FloatType::F32, _) => float_lanes::<u32>(alloc, rows)?,
        DType::Float(FloatType::F64, _) => float_lanes::<u64>(alloc, rows)?,
        DType::Utf8(_) => text_lanes(alloc, rows)?,
        DType::Binary(_) => octet_lanes(alloc, rows)?,
        DType::Struct(fields, _) => struct_lanes(alloc, fields, rows, nothing)?,
        _ => number_lanes(alloc, dtype, rows)?,
    };
    match typed {
        Some(lanes) => Ok(lanes),
        None => boxed(alloc, rows),
    }
}

// The lanes of truth values, if all rows are some or null.
fn truth_lanes(alloc: Global, rows: &[&Value]) -> Result<Option<Lanes>, AllocError>
    ensures { IfOk result (λ found. IfSome found (λ lanes. lanes_rows lanes ≡ rows_lent rows.now)) }
{
    match truths_of(alloc, rows)? {
        Some(bits) => Ok(Some(Lanes::Bools(bits, validity_of(alloc, rows)?))),
        None => Ok(None),
    }
}

// The lanes of numbers, if the type's rows lie in buffers of some, and all rows are of its width or null.
fn number_lanes(alloc: Global, dtype: &DType, rows: &[&Value]) -> Result<Option<Lanes>, AllocError>
    ensures { IfOk result (λ found. IfSome found (λ lanes. lanes_rows lanes ≡ rows_lent rows.now)) }
{
    match lane_type(dtype) {
        Some(PType::U8) => native_lanes::<u8>(alloc, rows),
        Some(PType::U16) => native_lanes::<u16>(alloc, rows),
        Some(PType::U32) => native_lanes::<u32>(alloc, rows),
        Some(PType::U64) => native_lanes::<u64>(alloc, rows),
        Some(PType::I8) => native_lanes::<i8>(alloc, rows),
        Some(PType::I16) => native_lanes::<i16>(alloc, rows),
        Some(PType::I32) => native_lanes::<i32>(alloc, rows),
        Some(PType::I64) => native_lanes::<i64>(alloc, rows),
        None => Ok(None),
    }
}

// The same of numbers of one width.
fn native_lanes<T: Native>(alloc: Global, rows: &[&Value]) -> Result<Option<Lanes>, AllocError>
    ensures { IfOk result (λ found. IfSome found (λ lanes. lanes_rows lanes ≡ rows_lent rows.now)) }
{
    match numbers_of::<T>(alloc, rows)? {
        Some(part) => {
            let validity = validity_of(alloc, rows)?;
            Ok(Some(Lanes::Numbers(T::numbers(part), validity)))
        }
        None => Ok(None),
    }
}

// The lanes of floating-point numbers, if all rows are some of the format or null.
fn float_lanes<T: FloatBits>(alloc: Global, rows: &[&Value]) -> Result<Option<Lanes>, AllocError>
    ensures { IfOk result (λ found. IfSome found (λ lanes. lanes_rows lanes ≡ rows_lent rows.now)) }
{
    match bits_of::<T>(alloc, rows)? {
        Some(part) => {
            let validity = validity_of(alloc, rows)?;
            Ok(Some(Lanes::Floats(T::floats(part), validity)))
        }
        None => Ok(None),
    }
}

// The lanes of texts, if all rows are some or null.
fn text_lanes(alloc: Global, rows: &[&Value]) -> Result<Option<Lanes>, AllocError>
    ensures { IfOk result (λ found. IfSome found (λ lanes. lanes_rows lanes ≡ rows_lent rows.now)) }
{
    match texts_of(alloc, rows)? {
        Some(spans) => Ok(Some(Lanes::Texts(spans, validity_of(alloc, rows)?))),
        None => Ok(None),
    }
}

// The lanes of bytes, if all rows are some or null.
fn octet_lanes(alloc: Global, rows: &[&Value]) -> Result<Option<Lanes>, AllocError>
    ensures { IfOk result (λ found. IfSome found (λ lanes. lanes_rows lanes ≡ rows_lent rows.now)) }
{
    match octets_of(alloc, rows)? {
        Some(spans) => Ok(Some(Lanes::Octets(spans, validity_of(alloc, rows)?))),
        None => Ok(None),
    }
}

// The lanes of structs, if all rows are some with as many items as fields, or null.
#[cycle(fill)]
fn struct_lanes<'a>(
    alloc: Global,
    fields: &StructFields,
    rows: &[&'a Value],
    nothing: &'a Value,
) -> Result<Option<Lanes>, AllocError>
    requires { value_of nothing.now ≡ null }
    ensures { IfOk result (λ found. IfSome found (λ lanes. lanes_rows lanes ≡ rows_lent rows.now)) }
{
    let count = fields.nfields();
    if !are_structs(rows, count) {
        return Ok(None);
    }
    let types = fields.types();
    let mut lanes = Vec::with_capacity(alloc, count)?;
    for j in 0..count {
        let items = items_of(alloc, rows, j, nothing)?;
        lanes.push(lanes_of(alloc, &types[j], items.as_slice(), nothing)?)?;
    }
    let lanes = Arc::new(alloc, lanes)?;
    let validity = validity_of(alloc, rows)?;
    Ok(Some(Lanes::Structs(lanes, Stretch::first(rows.len()), validity)))
}

// The values in boxes.
fn boxed(alloc: Global, rows: &[&Value]) -> Result<Lanes, AllocError>
    ensures { IfOk result (λ lanes. lanes_rows lanes ≡ rows_lent rows.now) }
{
    let mut values = Vec::with_capacity(alloc, rows.len())?;
    for i in 0..rows.len() {
        values.push(rows[i].clone()?)?;
    }
    Ok(Lanes::Values(Part::new(alloc, values)?))
}

// Whether all rows are structs of so many items, or null.
fn are_structs(rows: &[&Value], count: usize) -> bool
    ensures { result ≡ true → (k : ℕ) → k < length rows.now → HasItems count (get_or (rows_lent rows.now) k null) }
{
    for i in 0..rows.len() {
        if !is_struct(rows[i], count) {
            return false;
        }
    }
    true
}

// Whether the value is a struct of so many items, or null.
fn is_struct(value: &Value, count: usize) -> bool
    ensures { result ≡ true → HasItems count (value_of value.now) }
{
    match value {
        Value::Struct(items) => items.len() == count,
        Value::Null => true,
        _ => false,
    }
}

// The item of that index in each row, nothing where there is none.
fn items_of<'a>(
    alloc: Global,
    rows: &[&'a Value],
    j: usize,
    nothing: &'a Value,
) -> Result<Vec<&'a Value>, AllocError>
    requires { value_of nothing.now ≡ null }
    ensures { IfOk result (λ items. rows_lent items.items ≡ map (item_at j) (rows_lent rows.now)) }
{
    let mut items = Vec::with_capacity(alloc, rows.len())?;
    for i in 0..rows.len() {
        items.push(item_in(rows[i], j, nothing))?;
    }
    Ok(items)
}

// The item of that index in the value, nothing where there is none.
fn item_in<'a>(value: &'a Value, j: usize, nothing: &'a Value) -> &'a Value
    requires { value_of nothing.now ≡ null }
    ensures { value_of result.now ≡ item_at j (value_of value.now) }
{
    match value {
        Value::Struct(items) => match items.get(j) {
            Some(item) => item,
            None => nothing,
        },
        _ => nothing,
    }
}

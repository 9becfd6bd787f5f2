// Values of single rows.
ghost use Rattle.std.specs.Prelude.{◌≡◌, ◌+◌, ◌&&◌, IfOk, get_or, map, nat_lt};
ghost use Rattle.std.proofs.Math.ListN.{replicate};
ghost use Rattle.vx_value.specs.StructColumns.{row_at};
ghost use Rattle.vx_value.specs.Types.{bool, bytes, float, int, null};
ghost use Rattle.vx_value.specs.Views.{value_of};
ghost use Rattle.vx_array.specs.Kinds.{floats_in, numbers_in, spans_in, text_row};
ghost use Rattle.vx_array.specs.Rows.{lanes_each, lanes_rows};
ghost use Rattle.vx_array.specs.Shown.{is_valid, shown};

use crate::{BitPart, Floats, Lanes, Numbers, Spans, Validity};
use std::alloc::{AllocError, Global};
use vx_value::Value;

/// The value of that row, null where there is no such row.
#[cycle(value)]
pub fn value_at(alloc: Global, lanes: &Lanes, i: usize) -> Result<Value, AllocError>
    ensures { IfOk result (λ v. value_of v ≡ get_or (lanes_rows lanes.now) i null) }
{
    match lanes {
        Lanes::Same(value, count) => same_at(value.as_ref(), *count, i),
        Lanes::Values(values) => copy_at(values.as_slice(), i),
        Lanes::Bools(values, validity) => Ok(truth_at(values, validity, i)),
        Lanes::Numbers(values, validity) => Ok(number_at(values, validity, i)),
        Lanes::Floats(values, validity) => Ok(float_at(values, validity, i)),
        Lanes::Texts(values, validity) => text_at(alloc, values, validity, i),
        Lanes::Octets(values, validity) => octets_at(alloc, values, validity, i),
        Lanes::Structs(fields, stretch, validity) => {
            if has_row(validity, stretch.len, i) {
                Ok(Value::Struct(items_at(alloc, fields.as_slice(), stretch.from, i)?))
            } else {
                Ok(Value::Null)
            }
        }
    }
}

// The value of each of the lanes in row i from one on.
#[cycle(value)]
fn items_at(
    alloc: Global,
    fields: &[Lanes],
    from: usize,
    i: usize,
) -> Result<Vec<Value>, AllocError>
    ensures { IfOk result (λ items. map value_of items.items ≡ row_at (from + i) (lanes_each fields.now)) }
{
    let mut items = Vec::with_capacity(alloc, fields.len())?;
    for field in fields {
        items.push(behind(alloc, field, from, i)?)?;
    }
    Ok(items)
}

// The value of row i from one on, null where there is no such row.
#[cycle(value)]
pub(crate) fn behind(
    alloc: Global,
    lanes: &Lanes,
    from: usize,
    i: usize,
) -> Result<Value, AllocError>
    ensures { IfOk result (λ v. value_of v ≡ get_or (lanes_rows lanes.now) (from + i) null) }
{
    if lanes.len().saturating_sub(from) <= i {
        return Ok(Value::Null);
    }
    value_at(alloc, lanes, from + i)
}

/// The value of each row.
pub fn to_values(alloc: Global, lanes: &Lanes) -> Result<Vec<Value>, AllocError>
    ensures { IfOk result (λ values. map value_of values.items ≡ lanes_rows lanes.now) }
{
    let count = lanes.len();
    let mut values = Vec::with_capacity(alloc, count)?;
    for i in 0..count {
        values.push(value_at(alloc, lanes, i)?)?;
    }
    Ok(values)
}

// Whether there is a row that isn't null.
pub(crate) fn has_row(validity: &Validity, count: usize, i: usize) -> bool
    ensures { result ≡ (nat_lt i count && is_valid validity.now i) }
{
    i < count && validity.is_valid(i)
}

// The one value of so many rows.
fn same_at(value: &Value, count: usize, i: usize) -> Result<Value, AllocError>
    ensures { IfOk result (λ v. value_of v ≡ get_or (replicate count (value_of value.now)) i null) }
{
    if i < count {
        value.clone()
    } else {
        Ok(Value::Null)
    }
}

// A copy of the value at that place.
fn copy_at(values: &[Value], i: usize) -> Result<Value, AllocError>
    ensures { IfOk result (λ v. value_of v ≡ get_or (map value_of values.now) i null) }
{
    match values.get(i) {
        Some(value) => value.clone(),
        None => Ok(Value::Null),
    }
}

// The truth value at that place, where it is valid.
pub(crate) fn truth_at(bits: &BitPart, validity: &Validity, i: usize) -> Value
    ensures { value_of result ≡ get_or (shown validity.now (map bool bits.now)) i null }
{
    if has_row(validity, bits.len(), i) {
        return Value::Bool(bits.has(i));
    }
    Value::Null
}

// The number at that place, where it is valid.
pub(crate) fn number_at(numbers: &Numbers, validity: &Validity, i: usize) -> Value
    ensures { value_of result ≡ get_or (shown validity.now (map int (numbers_in numbers.now))) i null }
{
    if has_row(validity, numbers.len(), i) {
        return Value::Int(numbers.number(i));
    }
    Value::Null
}

// The floating-point number at that place, where it is valid.
pub(crate) fn float_at(floats: &Floats, validity: &Validity, i: usize) -> Value
    ensures { value_of result ≡ get_or (shown validity.now (map float (floats_in floats.now))) i null }
{
    if has_row(validity, floats.len(), i) {
        return Value::Float(floats.float(i));
    }
    Value::Null
}

// The text at that place, where it is valid.
fn text_at(alloc: Global, spans: &Spans, validity: &Validity, i: usize) -> Result<Value, AllocError>
    ensures { IfOk result (λ v. value_of v ≡ get_or (shown validity.now (map text_row (spans_in spans.now))) i null) }
{
    if has_row(validity, spans.len(), i) {
        let value = text_of(alloc, spans.span(i))?;
        return Ok(value);
    }
    Ok(Value::Null)
}

// The bytes as a text, null where they are none.
fn text_of(alloc: Global, bytes: &[u8]) -> Result<Value, AllocError>
    ensures { IfOk result (λ v. value_of v ≡ text_row bytes.now) }
{
    match str::from_utf8(bytes) {
        Ok(text) => Ok(Value::Utf8(String::from_str(alloc, text)?)),
        Err(_) => Ok(Value::Null),
    }
}

// The bytes at that place, where they are valid.
fn octets_at(
    alloc: Global,
    spans: &Spans,
    validity: &Validity,
    i: usize,
) -> Result<Value, AllocError>
    ensures { IfOk result (λ v. value_of v ≡ get_or (shown validity.now (map bytes (spans_in spans.now))) i null) }
{
    if has_row(validity, spans.len(), i) {
        let bytes = Vec::from_slice(alloc, spans.span(i))?;
        return Ok(Value::Binary(bytes));
    }
    Ok(Value::Null)
}

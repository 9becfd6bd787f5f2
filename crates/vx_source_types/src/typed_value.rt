// Values that take the type behind them: of a decimal, a floating-point number, a day or an instant the text stands there.
ghost use Rattle.std.specs.Prelude.{◌≡◌, ◌<◌, ◌≤◌, ◌^◌, ◌*ℤ◌, MatchOption, None, Some, false, option_map, pos, true};
ghost use Rattle.vx_value.specs.Fits.{fits_digits};
ghost use Rattle.vx_value.specs.Views.{data_view, fields_of, type_of, value_of};
ghost use Rattle.vx_source_types.specs.ValueReading.{signed};
ghost use Rattle.vx_source_types.specs.Untyped.{float_of_whole, has_points, has_texts, nearest_float, number_read, point_read, text_read, typed_items, typed_row, typed_value};

use std::num::{
    f32_to_bits_with_nan, f64_to_bits_with_nan, nearest_u64_to_f32, nearest_u64_to_f64,
};
use vx_dtype::{DType, DecimalType, FloatType, StructFields};
use vx_floats::{Float, read_float};
use vx_literals::{power_of_ten, read_day, read_decimal, read_instant};
use vx_value::Value;

/// Makes the value what the type behind it makes of it: the number that a text says where the type is one of
/// decimals, floating-point numbers, days or instants; the units of a whole number where it is one of decimals, and the
/// nearest number where it is one of floating-point numbers; inside lists and structs, too. None where a text says no
/// number, or one has too many digits, with some made.
#[cycle(typed)]
pub(crate) fn type_value(value: &mut Value, t: &DType) -> Option<()>
    ensures { MatchOption result (typed_value (value_of value.old) (type_of t.now) ≡ None) (λ _. typed_value (value_of value.old) (type_of t.now) ≡ Some (value_of value.new)) }
{
    match value {
        Value::Utf8(text) if has_texts(t) => {
            *value = text_typed(text.as_str(), t)?;
            Some(())
        }
        Value::Int(number) => {
            *value = number_typed(*number, t)?;
            Some(())
        }
        Value::List(items) => match t {
            DType::List(element, _) => type_items(items.as_mut_slice(), element.as_ref()),
            DType::FixedSizeList(element, _, _) => type_items(
                items.as_mut_slice(),
                element.as_ref(),
            ),
            _ => Some(()),
        },
        Value::Struct(items) => match t {
            DType::Struct(fields, _) => type_row(items.as_mut_slice(), fields),
            _ => Some(()),
        },
        _ => Some(()),
    }
}

// The number that a whole number is before the type.
fn number_typed(number: i128, t: &DType) -> Option<Value>
    ensures { option_map value_of result ≡ number_read number (type_of t.now) }
{
    match t {
        DType::Float(format, _) => Some(Value::Float(float_of_whole(number, *format)?)),
        DType::Decimal(decimal, _) => {
            let units = units_of_wholes(number, decimal.scale())?;
            Some(Value::Int(units))
        }
        _ => Some(Value::Int(number)),
    }
}

// The number of the format that is nearest to a whole number below 2^64.
fn float_of_whole(number: i128, format: FloatType) -> Option<Float>
    ensures { result ≡ float_of_whole format number }
{
    let size = u64::try_from(number.unsigned_abs()).ok()?;
    Some(nearest_float(number < 0, size, format))
}

// The number of the format that is nearest to a whole number of that size, below zero or not.
fn nearest_float(negative: bool, size: u64, format: FloatType) -> Float
    requires { negative ≡ true → 0 < size }
    ensures { result ≡ nearest_float format (signed negative size) }
{
    match format {
        FloatType::F32 => {
            let x = nearest_u64_to_f32(size);
            Float::F32(f32_to_bits_with_nan(if negative { -x } else { x }))
        }
        FloatType::F64 => {
            let x = nearest_u64_to_f64(size);
            Float::F64(f64_to_bits_with_nan(if negative { -x } else { x }))
        }
    }
}

// The units of so many wholes, if they have at most 38 digits.
fn units_of_wholes(number: i128, scale: u8) -> Option<i128>
    requires { scale ≤ 38 }
    ensures { MatchOption result (fits_digits (number *ℤ pos (10 ^ scale)) 38 ≡ false) (λ units. (units ≡ number *ℤ pos (10 ^ scale)) × (fits_digits units 38 ≡ true)) }
{
    let units = number.checked_mul(power_of_ten(scale) as i128)?;
    if units.unsigned_abs() < power_of_ten(DecimalType::MAX_PRECISION) {
        Some(units)
    } else {
        None
    }
}

// The number of the type that a number with a point is, if values of the type have points.
pub(crate) fn point_typed(digits: &str, t: &DType) -> Option<Value>
    ensures { option_map value_of result ≡ point_read digits.now (type_of t.now) }
{
    if has_points(t) {
        text_typed(digits, t)
    } else {
        None
    }
}

// Whether values of the type have points.
fn has_points(t: &DType) -> bool
    ensures value { result ≡ has_points (type_of t.now) }
    ensures texts { result ≡ true → has_texts (type_of t.now) ≡ true }
{
    matches!(t, DType::Float(..) | DType::Decimal(..))
}

// Whether values of the type are texts before their type.
fn has_texts(t: &DType) -> bool
    ensures { result ≡ has_texts (type_of t.now) }
{
    matches!(
        t,
        DType::Float(..) | DType::Decimal(..) | DType::Date(_) | DType::Timestamp(..)
    )
}

// The number of the type that a text says.
fn text_typed(text: &str, t: &DType) -> Option<Value>
    requires { has_texts (type_of t.now) ≡ true }
    ensures { option_map value_of result ≡ text_read text.now (type_of t.now) }
{
    let bytes = text.as_bytes();
    match t {
        DType::Float(format, _) => Some(Value::Float(read_float(bytes, *format)?)),
        DType::Decimal(decimal, _) => Some(Value::Int(read_decimal(bytes, decimal.scale())?)),
        DType::Date(_) => Some(Value::Int(read_day(bytes)?)),
        DType::Timestamp(timestamp, _) => Some(Value::Int(read_instant(bytes, timestamp)?)),
        _ => None,
    }
}

// The same of each item of a list.
#[cycle(typed)]
fn type_items(items: &mut [Value], t: &DType) -> Option<()>
    ensures { MatchOption result (typed_items (data_view items.old) (type_of t.now) ≡ None) (λ _. typed_items (data_view items.old) (type_of t.now) ≡ Some (data_view items.new)) }
{
    for i in 0..items.len() {
        type_value(&mut items[i], t)?;
    }
    Some(())
}

// The same of the values of a struct, as many as its fields.
#[cycle(typed)]
fn type_row(items: &mut [Value], fields: &StructFields) -> Option<()>
    ensures { MatchOption result (typed_row (data_view items.old) (fields_of fields.now) ≡ None) (λ _. typed_row (data_view items.old) (fields_of fields.now) ≡ Some (data_view items.new)) }
{
    let types = fields.types();
    for i in 0..items.len().min(fields.nfields()) {
        type_value(&mut items[i], &types[i])?;
    }
    Some(())
}

// Numbers of types by their texts.
ghost use Rattle.std.specs.Prelude.{◌≡◌, IfOk, Some, string_bytes};
ghost use Rattle.std.specs.Fmt.{WritesOnOk};
ghost use Rattle.std.specs.Option.{option_map};
ghost use Rattle.vx_floats.specs.Texts.{float_read, float_text};
ghost use Rattle.vx_value.specs.Types.{float};
ghost use Rattle.vx_value.specs.Views.{type_of, value_of};
ghost use Rattle.vx_data.specs.Numbers.{is_dated, number_said, number_text};

use crate::cells::whole_of;
use crate::fault::{Fault, misread};
use std::alloc::{AllocError, Global};
use std::fmt;
use std::fmt::{Display, Formatter, Write};
use vx_dtype::{DType, FloatType, Nullability, PType};
use vx_floats::{Float, read_float};
use vx_literals::{
    has_day_text, has_instant_text, read_day, read_decimal, read_instant, write_day, write_decimal,
    write_instant,
};
use vx_value::Value;

// The text of a number of a type.
#[derive(Clone, Copy)]
struct NumberText<'a> {
    number: i128,
    dtype: &'a DType,
}

impl Display for NumberText<'_> {
    ghost output = { λ t. Some (number_text t.number (type_of t.dtype.now)) };

    fn fmt<W: Write>(&self, f: &mut Formatter<W>) -> fmt::Result {
        write_number(self.number, self.dtype, f)
    }
}

fn write_number<W: Write>(number: i128, dtype: &DType, f: &mut Formatter<W>) -> fmt::Result
    ensures { WritesOnOk W.write_str_gives f.old result (number_text number (type_of dtype.now)) f.new }
{
    match dtype {
        DType::Decimal(decimal, _) => write_decimal(number, decimal.scale(), f),
        DType::Date(_) => write_day(number, f),
        DType::Timestamp(timestamp, _) => write_instant(number, timestamp, f),
        _ => number.fmt(f),
    }
}

/// The text of a number of that type: of a decimal with its point, of a day and an instant as it stands in the calendar, and
/// else its digits.
pub fn number_text(alloc: Global, number: i128, dtype: &DType) -> Result<String, AllocError>
    ensures { IfOk result (λ text. string_bytes text ≡ number_text number (type_of dtype.now)) }
{
    NumberText { number, dtype }.to_string(alloc)
}

/// The text of a floating-point number.
pub fn float_text(alloc: Global, float: Float) -> Result<String, AllocError>
    ensures { IfOk result (λ text. string_bytes text ≡ float_text float) }
{
    float.to_string(alloc)
}

/// Whether the number is a day or an instant of the years 1 to 9999, whose text has its day of the calendar.
pub fn is_dated(number: i128, dtype: &DType) -> bool
    ensures { result ≡ is_dated number (type_of dtype.now) }
{
    match dtype {
        DType::Date(_) => has_day_text(number),
        DType::Timestamp(timestamp, _) => has_instant_text(number, timestamp.unit),
        _ => false,
    }
}

/// The number that a text says by a type of decimals, days or instants: `12.50`, `2024-01-31`, or
/// `2024-01-31T10:15:30.25Z`, without the `Z` where the type has no zone. It may be none of the type.
pub fn number_said(text: &str, dtype: &DType) -> Option<i128>
    ensures { result ≡ number_said text.now (type_of dtype.now) }
{
    let bytes = text.as_bytes();
    match dtype {
        DType::Decimal(decimal, _) => read_decimal(bytes, decimal.scale()),
        DType::Date(_) => read_day(bytes),
        DType::Timestamp(timestamp, _) => read_instant(bytes, timestamp),
        _ => None,
    }
}

/// The number that digits are by such a type: that decimal, with a point or none, or so many days or units since 1970.
pub fn number_counted(digits: &str, dtype: &DType) -> Option<i128> {
    match dtype {
        DType::Date(_) => whole_of(digits, PType::I32),
        DType::Timestamp(_, _) => whole_of(digits, PType::I64),
        _ => number_said(digits, dtype),
    }
}

/// The floating-point number of that format that the text says: the one that lies nearest to a number in digits, `nan`, `inf`,
/// `-inf`, or the one with the bits behind `0x`. Refuses a text that says none, with the text.
pub fn float_value(
    alloc: Global,
    text: &str,
    format: FloatType,
    nullability: Nullability,
) -> Result<Value, Fault>
    ensures { IfOk result (λ value. Some (value_of value) ≡ option_map float (float_read format text.now)) }
{
    match read_float(text.as_bytes(), format) {
        Some(number) => Ok(Value::Float(number)),
        None => Err(misread(alloc, text, &DType::Float(format, nullability))),
    }
}

/// The number that the text says as a value of the type. Refuses none, and one that isn't of the type, with the text.
pub fn number_value(
    alloc: Global,
    number: Option<i128>,
    text: &str,
    dtype: &DType,
) -> Result<Value, Fault> {
    if let Some(number) = number {
        let value = Value::Int(number);
        if value.fits(dtype) {
            return Ok(value);
        }
    }
    Err(misread(alloc, text, dtype))
}

// Which values are of a type.
ghost use Rattle.std.specs.Prelude.{◌≡◌, ℕ, ◌==◌, ◌&&◌};
ghost use Rattle.vx_floats.specs.Floats.{format_of, is_canonical};
ghost use Rattle.vx_value.specs.Fits.{fits, each_fits, fields_fit, fits_digits, fits_ptype, count};
ghost use Rattle.vx_value.specs.Types.{int, same_float_type};
ghost use Rattle.vx_value.specs.Views.{type_of, fields_of, value_of, data_view};

use crate::Value;
use vx_dtype::{DType, DecimalType, FloatType, PType, StructFields};
use vx_floats::Float;
use vx_literals::power_of_ten;

// Whether the number lies in the range of the type.
fn in_range(i: i128, p: PType) -> bool
    ensures { result ≡ fits_ptype i p }
{
    match p {
        PType::U8 => 0 <= i && i < 256,
        PType::U16 => 0 <= i && i < 65_536,
        PType::U32 => 0 <= i && i < 4_294_967_296,
        PType::U64 => 0 <= i && i < 18_446_744_073_709_551_616,
        PType::I8 => -128 <= i && i < 128,
        PType::I16 => -32_768 <= i && i < 32_768,
        PType::I32 => -2_147_483_648 <= i && i < 2_147_483_648,
        PType::I64 => -9_223_372_036_854_775_808 <= i && i < 9_223_372_036_854_775_808,
    }
}

// Whether the whole number is a value of the type.
fn int_fits(i: i128, t: &DType) -> bool
    ensures { result ≡ fits (int i) (type_of t.now) }
{
    match t {
        DType::Primitive(p, _) => in_range(i, *p),
        DType::Decimal(decimal, _) => has_digits(i, *decimal),
        DType::Date(_) => in_range(i, PType::I32),
        DType::Timestamp(_, _) => in_range(i, PType::I64),
        _ => false,
    }
}

// Whether so many units are a decimal of the type.
fn has_digits(i: i128, decimal: DecimalType) -> bool
    ensures { result ≡ fits_digits i decimal.precision }
{
    i.unsigned_abs() < power_of_ten(decimal.precision())
}

// Whether the number is one of the format, and no NaN but the quiet one.
fn is_of(x: Float, format: FloatType) -> bool
    ensures { result ≡ (same_float_type (format_of x) format && is_canonical x) }
{
    x.float_type().is_same(format) && x.is_canonical()
}

impl Value {
    /// Whether the value is one of the type.
    pub fn fits(&self, t: &DType) -> bool
        ensures { result ≡ fits (value_of self.now) (type_of t.now) }
    {
        value_fits(self, t)
    }
}

// Whether the value is one of the type: null of every nullable type, else by the shape.
#[cycle(fits)]
fn value_fits(value: &Value, t: &DType) -> bool
    ensures { result ≡ fits (value_of value.now) (type_of t.now) }
{
    match value {
        Value::Null => t.is_nullable(),
        Value::Bool(_) => match t {
            DType::Bool(_) => true,
            _ => false,
        },
        Value::Int(i) => int_fits(*i, t),
        Value::Float(x) => match t {
            DType::Float(format, _) => is_of(*x, *format),
            _ => false,
        },
        Value::Utf8(_) => match t {
            DType::Utf8(_) => true,
            _ => false,
        },
        Value::Binary(_) => match t {
            DType::Binary(_) => true,
            _ => false,
        },
        Value::List(items) => match t {
            DType::List(element, _) => each_fits(items.as_slice(), element.as_ref()),
            DType::FixedSizeList(element, size, _) => is_count(items, *size)
                && each_fits(items.as_slice(), element.as_ref()),
            _ => false,
        },
        Value::Struct(items) => match t {
            DType::Struct(fields, _) => fields_fit(items.as_slice(), fields),
            _ => false,
        },
    }
}

// Whether there are exactly so many.
#[tactic(auto, using(crate::proofs::Lists::count_view))]
fn is_count(values: &Vec<Value>, size: u32) -> bool
    ensures { result ≡ (count (data_view values.now.items) == size) }
{
    values.len() == size as usize
}

// Whether each value is one of the element type.
#[cycle(fits)]
fn each_fits(values: &[Value], t: &DType) -> bool
    ensures { result ≡ each_fits (data_view values.now) (type_of t.now) }
{
    for i in 0..values.len() {
        if !value_fits(&values[i], t) {
            return false;
        }
    }
    true
}

// Whether there are as many values as fields, each of its field's type.
#[cycle(fits)]
fn fields_fit(values: &[Value], fields: &StructFields) -> bool
    ensures { result ≡ fields_fit (data_view values.now) (fields_of fields.now) }
{
    if values.len() != fields.nfields() {
        return false;
    }
    let types = fields.types();
    for i in 0..values.len() {
        if !value_fits(&values[i], &types[i]) {
            return false;
        }
    }
    true
}

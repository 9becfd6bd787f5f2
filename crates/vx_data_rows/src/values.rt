// Values by chance.
use crate::numbers::Numbers;
use std::alloc::{AllocError, Global};
use vx_dtype::{DType, DecimalType, FloatType, PType, StructFields, TimeUnit};
use vx_floats::Float;
use vx_literals::{power_of_ten, units_a_second};
use vx_value::Value;

const TEXTS: [&str; 16] = [
    "",
    "a",
    "x,y",
    "say \"it\"",
    "\"",
    "two\nlines",
    "\r",
    "\r\n",
    " ",
    "é",
    "null",
    "true",
    "0x",
    "\u{0}",
    "\\",
    "\u{1f600}",
];

/// A value of the type, which has at most so many types inside one another.
#[cycle(value)]
pub fn value(
    room: usize,
    alloc: Global,
    dtype: &DType,
    numbers: &mut Numbers,
) -> Result<Value, AllocError> {
    if room == 0 || (dtype.is_nullable() && numbers.below(4) == 0) {
        return Ok(Value::Null);
    }
    match dtype {
        DType::List(element, _) => {
            let count = numbers.below(4);
            items(room - 1, alloc, element.as_ref(), count, numbers)
        }
        DType::FixedSizeList(element, size, _) => {
            items(room - 1, alloc, element.as_ref(), u64::from(*size), numbers)
        }
        DType::Struct(fields, _) => values(room - 1, alloc, fields, numbers),
        DType::Bool(_) => Ok(Value::Bool(numbers.below(2) == 0)),
        DType::Primitive(ptype, _) => Ok(Value::Int(number(*ptype, numbers))),
        DType::Float(format, _) => Ok(Value::Float(float(*format, numbers))),
        DType::Decimal(decimal, _) => Ok(Value::Int(units(*decimal, numbers))),
        DType::Date(_) => Ok(Value::Int(day(numbers))),
        DType::Timestamp(timestamp, _) => Ok(Value::Int(instant(timestamp.unit, numbers))),
        DType::Utf8(_) => Ok(Value::Utf8(String::from_str(alloc, numbers.pick(&TEXTS))?)),
        DType::Binary(_) => Ok(Value::Binary(numbers.pick(&TEXTS).as_bytes().to_vec(alloc)?)),
    }
}

#[cycle(value)]
fn items(
    room: usize,
    alloc: Global,
    element: &DType,
    count: u64,
    numbers: &mut Numbers,
) -> Result<Value, AllocError> {
    let mut items = Vec::new(alloc);
    for _ in 0..count {
        items.push(value(room, alloc, element, numbers)?)?;
    }
    Ok(Value::List(items))
}

#[cycle(value)]
fn values(
    room: usize,
    alloc: Global,
    fields: &StructFields,
    numbers: &mut Numbers,
) -> Result<Value, AllocError> {
    let mut values = Vec::new(alloc);
    for dtype in fields.types() {
        values.push(value(room, alloc, dtype, numbers)?)?;
    }
    Ok(Value::Struct(values))
}

// The least or the greatest number of the type, or a small one.
fn number(ptype: PType, numbers: &mut Numbers) -> i128 {
    match numbers.below(4) {
        0 => least(ptype),
        1 => greatest(ptype),
        _ => i128::from(numbers.below(128)),
    }
}

// A floating-point number of the format.
fn float(format: FloatType, numbers: &mut Numbers) -> Float {
    match format {
        FloatType::F32 => Float::from_f32_bits(bits_of_32(numbers)),
        FloatType::F64 => Float::from_f64_bits(bits_of_64(numbers)),
    }
}

// The bits of a zero, of one and a half, of an infinity or of NaN, or any bits.
fn bits_of_32(numbers: &mut Numbers) -> u32 {
    match numbers.below(12) {
        0 => 0,
        1 => 0x8000_0000,
        2 => 0x3fc0_0000,
        3 => 0x7f80_0000,
        4 => 0xff80_0000,
        5 => 0x7fc0_0000,
        _ => (any_bits(numbers) >> 32) as u32,
    }
}

// The bits of a zero, of one and a half, of an infinity or of NaN, or any bits.
fn bits_of_64(numbers: &mut Numbers) -> u64 {
    match numbers.below(12) {
        0 => 0,
        1 => 0x8000_0000_0000_0000,
        2 => 0x3ff8_0000_0000_0000,
        3 => 0x7ff0_0000_0000_0000,
        4 => 0xfff0_0000_0000_0000,
        5 => 0x7ff8_0000_0000_0000,
        _ => any_bits(numbers),
    }
}

// Any 64 bits.
fn any_bits(numbers: &mut Numbers) -> u64 {
    let high = numbers.below(0x1000);
    let middle = numbers.below(0x400_0000);
    let low = numbers.below(0x400_0000);
    let most = high.wrapping_mul(0x400_0000).wrapping_add(middle);
    most.wrapping_mul(0x400_0000).wrapping_add(low)
}

// The least or the greatest decimal of the type, or a digit on either side of zero, all by their units.
fn units(decimal: DecimalType, numbers: &mut Numbers) -> i128 {
    let greatest = power_of_ten(decimal.precision()) as i128 - 1;
    match numbers.below(4) {
        0 => -greatest,
        1 => greatest,
        2 => i128::from(numbers.below(10)),
        _ => -i128::from(numbers.below(10)),
    }
}

// A day of the years 1 to 9999, perhaps the first or the last, or one beyond them.
fn day(numbers: &mut Numbers) -> i128 {
    match numbers.below(8) {
        0 => -719_162,
        1 => 2_932_896,
        2 => -719_163,
        3 => 2_932_897,
        4 => number(PType::I32, numbers),
        _ => i128::from(numbers.below(3_652_059)) - 719_162,
    }
}

// An instant of the years around 1970, or another number of 64 bits.
fn instant(unit: TimeUnit, numbers: &mut Numbers) -> i128 {
    if numbers.below(4) == 0 {
        return number(PType::I64, numbers);
    }
    let second = i128::from(numbers.below(2_000_000_000)) - 1_000_000_000;
    let units = i128::from(units_a_second(unit));
    second * units + i128::from(numbers.below(units_a_second(unit)))
}

fn least(ptype: PType) -> i128 {
    match ptype {
        PType::U8 | PType::U16 | PType::U32 | PType::U64 => 0,
        PType::I8 => i128::from(i8::MIN),
        PType::I16 => i128::from(i16::MIN),
        PType::I32 => i128::from(i32::MIN),
        PType::I64 => i128::from(i64::MIN),
    }
}

fn greatest(ptype: PType) -> i128 {
    match ptype {
        PType::U8 => i128::from(u8::MAX),
        PType::U16 => i128::from(u16::MAX),
        PType::U32 => i128::from(u32::MAX),
        PType::U64 => i128::from(u64::MAX),
        PType::I8 => i128::from(i8::MAX),
        PType::I16 => i128::from(i16::MAX),
        PType::I32 => i128::from(i32::MAX),
        PType::I64 => i128::from(i64::MAX),
    }
}

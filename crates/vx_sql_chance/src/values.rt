// Values by chance.
use crate::kinds::{Kind, Measure};
use std::alloc::{AllocError, Global};
use vx_dtype::PType;
use vx_floats::Float;
use vx_test_support::Seeds;
use vx_value::Value;

/// Characters of texts and patterns: quotes, signs of patterns, letters in both cases, and others.
const CHARACTERS: [char; 28] = [
    'a', 'A', '%', 'b', 'B', 'z', 'Z', 'é', 'É', 'ß', '😀', '_', '_', '\\', '\\', '\'', '"', '`',
    '*', '?', '[', ']', '!', '^', '-', '\n', '\u{1}', '\u{7f}',
];

/// Days from 1970 on: 29 February of the years 4, 1600, 2000 and 2024 and days behind it, the end of February 1900
/// and 2100, and the ends of the years that have a text.
const DAYS: [i128; 14] = [
    0, -1, -718_008, -135_081, -135_080, 11_016, 11_017, 19_782, 19_783, -25_509, -25_508, 47_540,
    -719_162, 2_932_896,
];

/// The days before and behind those that have a text, and the first and last that PostgreSQL has.
const FAR_DAYS: [i128; 4] = [-719_163, 2_932_897, FIRST_DAY, 2_145_042_905];

const FIRST_DAY: i128 = -2_440_588;

// So many thousandths of a second behind the beginning of 1970 is the last of PostgreSQL's instants.
const LAST_INSTANT: i128 = 9_224_318_015_999_999;

/// Floats by their bits: both zeros, NaN, the infinities, the ends of the others, the least above 0 and the first below it,
/// 0.1, and the first whole number that isn't told from the next.
const SINGLES: [u32; 11] = [
    0,
    0x8000_0000,
    0x7fc0_0000,
    0x7f80_0000,
    0xff80_0000,
    0x7f7f_ffff,
    0xff7f_ffff,
    1,
    0x8000_0001,
    0x3dcc_cccd,
    0x4b80_0000,
];

const DOUBLES: [u64; 11] = [
    0,
    0x8000_0000_0000_0000,
    0x7ff8_0000_0000_0000,
    0x7ff0_0000_0000_0000,
    0xfff0_0000_0000_0000,
    0x7fef_ffff_ffff_ffff,
    0xffef_ffff_ffff_ffff,
    1,
    0x8000_0000_0000_0001,
    0x3fb9_9999_9999_999a,
    0x4340_0000_0000_0000,
];

// How many thousandths of a second a day has.
const A_DAY: usize = 86_400_000;

impl Kind {
    /// A value by chance, other than null.
    pub fn value(self, alloc: Global, chance: &mut Seeds) -> Result<Value, AllocError> {
        match self {
            Kind::Truth => Ok(Value::Bool(chance.below(2) == 0)),
            Kind::Number(p) => Ok(Value::Int(number(p, chance))),
            Kind::Text => Ok(Value::Utf8(text(alloc, chance)?)),
            Kind::Octets => Ok(Value::Binary(octets(alloc, chance)?)),
            Kind::Measure(measure) => Ok(measured(measure, chance)),
            Kind::Pair => {
                let number = Value::Int(number(PType::I32, chance));
                let text = Value::Utf8(text(alloc, chance)?);
                let mut fields = Vec::new(alloc);
                fields.push(maybe_null(chance, number))?;
                fields.push(maybe_null(chance, text))?;
                Ok(Value::Struct(fields))
            }
        }
    }
}

/// The value, or null one time in four.
pub fn maybe_null(chance: &mut Seeds, value: Value) -> Value {
    if chance.below(4) == 0 {
        Value::Null
    } else {
        value
    }
}

// A small number, or one near an end of the type.
fn number(p: PType, chance: &mut Seeds) -> i128 {
    let (least, greatest) = ends(p);
    let near = chance.below(4) as i128;
    match chance.below(8) {
        0 => least.saturating_add(near),
        1 => greatest.saturating_sub(near),
        2 if least < 0 => 0i128.saturating_sub(near),
        _ => chance.below(100) as i128,
    }
}

fn ends(p: PType) -> (i128, i128) {
    match p {
        PType::U8 => (0, i128::from(u8::MAX)),
        PType::U16 => (0, i128::from(u16::MAX)),
        PType::U32 => (0, i128::from(u32::MAX)),
        PType::U64 => (0, i128::from(u64::MAX)),
        PType::I8 => (i128::from(i8::MIN), i128::from(i8::MAX)),
        PType::I16 => (i128::from(i16::MIN), i128::from(i16::MAX)),
        PType::I32 => (i128::from(i32::MIN), i128::from(i32::MAX)),
        PType::I64 => (i128::from(i64::MIN), i128::from(i64::MAX)),
    }
}

fn measured(measure: Measure, chance: &mut Seeds) -> Value {
    match measure {
        Measure::Day => Value::Int(day(chance)),
        Measure::Price => Value::Int(units(7, chance)),
        Measure::Amount => Value::Int(units(38, chance)),
        Measure::Clock => Value::Int(instant(1_000, chance).min(i128::from(i64::MAX))),
        Measure::Moment => Value::Int(instant(1, chance)),
        Measure::Single => Value::Float(Float::F32(single(chance))),
        Measure::Double => Value::Float(Float::F64(double(chance))),
    }
}

// One of those days, one of a few beside another, or one of eleven centuries.
fn day(chance: &mut Seeds) -> i128 {
    match chance.below(4) {
        0 => 19_770i128.saturating_add(chance.below(30) as i128),
        1 => (-200_000i128).saturating_add(chance.below(400_000) as i128),
        _ => {
            let days: &[i128] = match chance.below(16) {
                0 => &FAR_DAYS,
                _ => &DAYS,
            };
            let number = chance.below(days.len());
            days.get(number).copied().unwrap_or(0)
        }
    }
}

// An instant of such a day, in so many units a thousandth of a second: the day's first or second, its last, or
// another.
fn instant(a_thousandth: usize, chance: &mut Seeds) -> i128 {
    let each = a_thousandth as i128;
    let a_day = (A_DAY as i128).saturating_mul(each);
    let time = match chance.below(4) {
        0 => 0,
        1 => 1,
        2 => a_day.saturating_sub(1),
        _ => (chance.below(A_DAY) as i128)
            .saturating_mul(each)
            .saturating_add(chance.below(a_thousandth) as i128),
    };
    let begin = day(chance).saturating_mul(a_day);
    begin
        .saturating_add(time)
        .min(LAST_INSTANT.saturating_mul(each))
}

// The units of a decimal of so many digits: half of them have two, others as many as there may be.
fn units(most: usize, chance: &mut Seeds) -> i128 {
    let (count, least) = match chance.below(8) {
        0 => (most, 9),
        1 | 2 | 3 => (chance.below(most.saturating_add(1)), 0),
        _ => (2, 0),
    };
    let mut units = 0i128;
    for _ in 0..count {
        let digit = chance.below(10).max(least);
        units = units.saturating_mul(10).saturating_add(digit as i128);
    }
    match chance.below(2) {
        0 => 0i128.saturating_sub(units),
        _ => units,
    }
}

// One of those floats, or one with a quarter from 1 to 28, or less than 0.
fn single(chance: &mut Seeds) -> u32 {
    let number = chance.below(SINGLES.len());
    let part = u32::try_from(chance.below(20)).unwrap_or(0);
    let sign = if chance.below(4) == 0 { 0x8000_0000 } else { 0 };
    match chance.below(3) {
        0 => SINGLES.get(number).copied().unwrap_or(0),
        _ => part
            .saturating_mul(0x0020_0000)
            .saturating_add(0x3f80_0000)
            .saturating_add(sign),
    }
}

fn double(chance: &mut Seeds) -> u64 {
    let number = chance.below(DOUBLES.len());
    let part = u64::try_from(chance.below(20)).unwrap_or(0);
    let sign = if chance.below(4) == 0 {
        0x8000_0000_0000_0000
    } else {
        0
    };
    match chance.below(3) {
        0 => DOUBLES.get(number).copied().unwrap_or(0),
        _ => part
            .saturating_mul(0x0004_0000_0000_0000)
            .saturating_add(0x3ff0_0000_0000_0000)
            .saturating_add(sign),
    }
}

// A text of up to four characters, half of them of few characters, so that some are like others.
fn text(alloc: Global, chance: &mut Seeds) -> Result<String, AllocError> {
    let mut text = String::new(alloc);
    let count = match chance.below(2) {
        0 => 3,
        _ => CHARACTERS.len(),
    };
    for _ in 0..chance.below(5) {
        let number = chance.below(count);
        text.push(CHARACTERS.get(number).copied().unwrap_or('a'))?;
    }
    Ok(text)
}

fn octets(alloc: Global, chance: &mut Seeds) -> Result<Vec<u8>, AllocError> {
    let mut octets = Vec::new(alloc);
    for _ in 0..chance.below(4) {
        octets.push(u8::try_from(chance.below(256)).unwrap_or(0))?;
    }
    Ok(octets)
}

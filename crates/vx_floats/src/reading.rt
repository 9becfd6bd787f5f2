// Texts as numbers.
ghost use Rattle.std.specs.Prelude.{◌≡◌};
ghost use Rattle.std.specs.Char.{is_ascii_digit};
ghost use Rattle.std.specs.List.{list_any};
ghost use Rattle.vx_floats.specs.Texts.{bits_read, float_read, value_read};

use crate::Float;
use hex::FromHex;
use std::num::{f32_to_bits_with_nan, f64_to_bits_with_nan};
use vx_dtype::FloatType;

/// The number of that format that a text stands for. A decimal, as `-12.5` or `1e-3`, stands for the number nearest to it, an
/// even one at a tie. `nan`, `inf` and `infinity` stand in any case of their letters, and with or without a sign. `0x` and two
/// hexadecimal digits for each byte stand for the bits, each NaN as the quiet one. None where a text is none of these, and
/// where a decimal is too large for the format.
pub fn read_float(text: &[u8], format: FloatType) -> Option<Float>
    ensures { result ≡ float_read format text.now }
{
    if text.starts_with(b"0x") {
        read_bits(&text[2..], format)
    } else {
        read_value(text, format)
    }
}

// The number whose bits are the hexadecimal digits.
fn read_bits(digits: &[u8], format: FloatType) -> Option<Float>
    ensures { result ≡ bits_read format digits.now }
{
    match format {
        FloatType::F32 => {
            let octets = <[u8; 4] as FromHex>::from_hex(digits).ok()?;
            Some(Float::from_f32_bits(u32::from_be_bytes(octets)))
        }
        FloatType::F64 => {
            let octets = <[u8; 8] as FromHex>::from_hex(digits).ok()?;
            Some(Float::from_f64_bits(u64::from_be_bytes(octets)))
        }
    }
}

// The number that a decimal or a word stands for.
fn read_value(text: &[u8], format: FloatType) -> Option<Float>
    ensures { result ≡ value_read format text.now }
{
    match format {
        FloatType::F32 => {
            let number: f32 = fast_float::parse(text).ok()?;
            if number.is_infinite() && has_digit(text) {
                return None;
            }
            Some(Float::F32(f32_to_bits_with_nan(number)))
        }
        FloatType::F64 => {
            let number: f64 = fast_float::parse(text).ok()?;
            if number.is_infinite() && has_digit(text) {
                return None;
            }
            Some(Float::F64(f64_to_bits_with_nan(number)))
        }
    }
}

// Whether a byte is a digit.
fn has_digit(text: &[u8]) -> bool
    ensures { result ≡ list_any is_ascii_digit text.now }
{
    text.iter().any(|byte| byte.is_ascii_digit())
}

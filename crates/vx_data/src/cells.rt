// Values of flat types by their texts.
ghost use Rattle.std.specs.Prelude.{◌≡◌, IfOk, string_bytes};
ghost use Rattle.vx_data.specs.Cells.{hex_text};

use crate::expected::Expected;
use crate::fault::Fault;
use hex::FromHexError;
use std::alloc::{AllocError, Global};
use vx_dtype::PType;
use vx_value::Value;

/// The number of that text, if it is a whole number in the range of the type: digits, with a minus before them where
/// it is below zero.
pub fn whole_of(text: &str, ptype: PType) -> Option<i128> {
    let digits = if text == "-0" { "0" } else { text };
    match ptype {
        PType::U8 => digits.parse::<u8>().ok().map(i128::from),
        PType::U16 => digits.parse::<u16>().ok().map(i128::from),
        PType::U32 => digits.parse::<u32>().ok().map(i128::from),
        PType::U64 => digits.parse::<u64>().ok().map(i128::from),
        PType::I8 => digits.parse::<i8>().ok().map(i128::from),
        PType::I16 => digits.parse::<i16>().ok().map(i128::from),
        PType::I32 => digits.parse::<i32>().ok().map(i128::from),
        PType::I64 => digits.parse::<i64>().ok().map(i128::from),
    }
}

/// The text as a value.
pub fn text_of(alloc: Global, text: &str) -> Result<Value, Fault> {
    Ok(Value::Utf8(String::from_str(alloc, text)?))
}

/// The bytes that are spelled by `0x` and two hexadecimal digits each.
pub fn bytes_of(alloc: Global, text: &str) -> Result<Value, Fault> {
    let Some(digits) = text.strip_prefix("0x") else {
        return Err(Fault::new(alloc, Expected::Bytes));
    };
    match hex::decode(alloc, digits) {
        Ok(bytes) => Ok(Value::Binary(bytes)),
        Err(FromHexError::OutOfMemory) => Err(Fault::OutOfMemory),
        Err(_) => Err(Fault::new(alloc, Expected::Bytes)),
    }
}

/// The bytes as `0x` and two hexadecimal digits each.
pub fn hex_text(alloc: Global, bytes: &[u8]) -> Result<String, AllocError>
    ensures { IfOk result (λ text. string_bytes text ≡ hex_text bytes.now) }
{
    let mut text = String::from_str(alloc, "0x")?;
    text.push_str(hex::encode(alloc, bytes)?.as_str())?;
    Ok(text)
}

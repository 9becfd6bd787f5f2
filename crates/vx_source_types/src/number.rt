// Numbers, and bytes.
ghost use Rattle.std.specs.Prelude.{◌≡◌, ◌≤◌, ℕ, length, drop, IfOk, take, Some};
ghost use Rattle.hex.specs.Hex.{decode_of};
ghost use Rattle.vx_source_types.specs.Tokens.{number_taken, digits_len, octets_taken, octets_lexeme, magnitude, more_or_same, more_digits, point, point_digits, whole_lexeme};
ghost use Rattle.vx_source_types.specs.Views.{taken_of, lexeme_of};

use crate::expectation::Expected;
use crate::point::{fraction_len, is_in_number};
use crate::token::Token;
use crate::words::{digits_len, word_len, word_of};
use hex::FromHexError;
use std::alloc::{AllocError, Global};
use vx_dtype::FieldName;

// The number at the front, and how many bytes it takes with the word behind it.
pub(crate) fn number_at(
    alloc: Global,
    negative: bool,
    bytes: &[u8],
) -> Result<(Token, usize), AllocError>
    ensures taken { IfOk result (λ r. number_taken negative bytes.now ≡ taken_of bytes.now r.0 r.1) }
    ensures within { IfOk result (λ r. r.1 ≤ length bytes.now) }
    ensures digits { IfOk result (λ r. digits_len bytes.now ≤ r.1) }
{
    let digits = digits_len(bytes);
    let rest = &bytes[digits..];
    let fraction = fraction_len(rest);
    if fraction != 0 {
        let len = digits + fraction;
        return Ok((point_of(alloc, negative, &bytes[..len])?, len));
    }
    let token = whole_of(alloc, negative, &bytes[..digits], word_of(alloc, rest)?)?;
    Ok((token, digits + word_len(rest)))
}

// The whole number of those digits, with the word behind it: its text where it is too great and has none.
fn whole_of(
    alloc: Global,
    negative: bool,
    digits: &[u8],
    suffix: FieldName,
) -> Result<Token, AllocError>
    ensures { IfOk result (λ t. lexeme_of t ≡ whole_lexeme negative digits.now (magnitude (Some 0) digits.now) suffix) }
{
    let magnitude = magnitude(digits);
    if magnitude.is_none() && suffix.as_str().is_empty() {
        return point_of(alloc, negative, digits);
    }
    Ok(Token::Number {
        negative,
        magnitude,
        suffix,
    })
}

// The text of the number of those bytes.
fn point_of(alloc: Global, negative: bool, bytes: &[u8]) -> Result<Token, AllocError>
    ensures { IfOk result (λ t. lexeme_of t ≡ point (point_digits negative bytes.now)) }
{
    let mut digits = String::new(alloc);
    if negative {
        digits.push('-')?;
    }
    for b in bytes {
        if is_in_number(*b) {
            digits.push(char::from(*b))?;
        }
    }
    Ok(Token::Point(digits))
}

// What the digits stand for, if it is below 2^64, where underscores between them are left out.
fn magnitude(digits: &[u8]) -> Option<u64>
    ensures { result ≡ magnitude (Some 0) digits.now }
{
    let mut value = Some(0);
    for digit in digits {
        value = more_or_same(value, *digit);
    }
    value
}

// The number with another digit, and with an underscore as it is.
fn more_or_same(value: Option<u64>, b: u8) -> Option<u64>
    ensures { result ≡ more_or_same value b }
{
    if b == b'_' {
        value
    } else {
        more_digits(value, b)
    }
}

// Ten times the number and the digit more, if that is below 2^64.
fn more_digits(value: Option<u64>, digit: u8) -> Option<u64>
    ensures { result ≡ more_digits value digit }
{
    let tens = value?.checked_mul(10)?;
    tens.checked_add(u64::from(digit.saturating_sub(b'0')))
}

// The bytes of the two digits each at the front, and how many bytes of the text they take.
pub(crate) fn octets_at(alloc: Global, bytes: &[u8]) -> Result<(Token, usize), AllocError>
    ensures taken { IfOk result (λ r. octets_taken bytes.now ≡ taken_of bytes.now r.0 r.1) }
    ensures within { IfOk result (λ r. r.1 ≤ length bytes.now) }
{
    let len = word_len(bytes);
    Ok((octets_of(alloc, &bytes[..len])?, len))
}

fn octets_of(alloc: Global, digits: &[u8]) -> Result<Token, AllocError>
    ensures { IfOk result (λ t. lexeme_of t ≡ octets_lexeme (decode_of digits.now)) }
{
    match hex::decode(alloc, digits) {
        Ok(bytes) => Ok(Token::Octets(bytes)),
        Err(FromHexError::OutOfMemory) => Err(AllocError),
        Err(_) => Ok(Token::Invalid(Expected::HexDigits)),
    }
}

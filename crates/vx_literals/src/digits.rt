// Digits of numbers.
ghost use Rattle.std.specs.Prelude.{◌≡◌, ◌+◌, ◌/◌, ◌%◌, ◌^◌, ◌<◌, ◌≤◌, ◌==◌, IfSome, get_or, length};
ghost use Rattle.std.specs.Fmt.{WritesOnOk, decimal};
ghost use Rattle.std.specs.List.{prefix_len};
ghost use Rattle.vx_literals.specs.Digits.{digit_of, digits_behind, is_within, last_digits};

use std::fmt;
use std::fmt::{Display, Formatter, Write};

/// 10 to that power. Asks at most 38.
pub fn power_of_ten(exponent: u8) -> u128
    requires { exponent ≤ 38 }
    ensures value { result ≡ 10 ^ exponent }
    ensures some { 0 < result }
    ensures bound { result ≤ 100_000_000_000_000_000_000_000_000_000_000_000_000 }
{
    10u128.pow(u32::from(exponent))
}

// Writes so many of the last digits. Asks at most 38.
pub(crate) fn write_last_digits<W: Write>(
    number: u128,
    count: u8,
    f: &mut Formatter<W>,
) -> fmt::Result
    requires { count ≤ 38 }
    ensures { WritesOnOk W.write_str_gives f.old result (last_digits count number) f.new }
{
    for place in 0..count {
        write_digit(number, power_of_ten(count - 1 - place), f)?;
    }
    Ok(())
}

// Writes the digit at that power of ten.
fn write_digit<W: Write>(number: u128, power: u128, f: &mut Formatter<W>) -> fmt::Result
    requires { 0 < power }
    ensures { WritesOnOk W.write_str_gives f.old result (decimal (number / power % 10)) f.new }
{
    (number / power % 10).fmt(f)
}

// The digit that the byte is.
fn digit_of(byte: u8) -> Option<u8>
    ensures digit { result ≡ digit_of byte }
    ensures bound { IfSome result (λ d. d < 10) }
{
    if byte.is_ascii_digit() {
        Some(byte - b'0')
    } else {
        None
    }
}

// The number that the digits are behind those of another one, if each byte is a digit. Asks a number of so few digits that
// there are at most 38 in all.
pub(crate) fn digits_behind(number: u128, before: usize, bytes: &[u8]) -> Option<u128>
    requires few { before + length bytes.now ≤ 38 }
    requires small { number < 10 ^ before }
    ensures number { result ≡ digits_behind number bytes.now }
    ensures small { IfSome result (λ n. n < 10 ^ (before + length bytes.now)) }
{
    let mut read = number;
    for i in 0..bytes.len() {
        read = 10 * read + u128::from(digit_of(bytes[i])?);
    }
    Some(read)
}

// The number that the digits are. Asks at most 38.
pub(crate) fn number_of(bytes: &[u8]) -> Option<u128>
    requires { length bytes.now ≤ 38 }
    ensures number { result ≡ digits_behind 0 bytes.now }
    ensures small { IfSome result (λ n. n < 10 ^ length bytes.now) }
{
    digits_behind(0, 0, bytes)
}

// How many bytes at the front lie from one byte to another.
pub(crate) fn in_front(bytes: &[u8], low: u8, high: u8) -> usize
    ensures count { result ≡ prefix_len (is_within low high) bytes.now }
    ensures bound { result ≤ length bytes.now }
{
    for i in 0..bytes.len() {
        if bytes[i] < low || high < bytes[i] {
            return i;
        }
    }
    bytes.len()
}

// Whether the bytes begin with that one, which isn't 0.
pub(crate) fn begin_with(bytes: &[u8], byte: u8) -> bool
    requires { 0 < byte }
    ensures { result ≡ (get_or bytes.now 0 0 == byte) }
{
    !bytes.is_empty() && bytes[0] == byte
}

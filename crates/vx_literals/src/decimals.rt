// Decimals as texts.
ghost use Rattle.std.specs.Prelude.{◌≡◌, ◌≤◌, ◌<◌, ◌^◌, ◌==◌, IfSome};
ghost use Rattle.std.specs.Fmt.{WritesOnOk};
ghost use Rattle.std.specs.List.{list_all};
ghost use Rattle.vx_literals.specs.Decimals.{decimal_read, decimal_text, point_text, sign_text, significant, size_read, units_of};

use crate::digits::{
    begin_with, digits_behind, in_front, number_of, power_of_ten, write_last_digits,
};
use std::fmt;
use std::fmt::{Display, Formatter, Write};

/// Writes so many units, 10 to the scale of which are one, as `-12.50`. Asks a scale of at most 38.
/// Takes no memory.
pub fn write_decimal<W: Write>(units: i128, scale: u8, f: &mut Formatter<W>) -> fmt::Result
    requires { scale ≤ 38 }
    ensures { WritesOnOk W.write_str_gives f.old result (decimal_text units scale) f.new }
{
    let size = units.unsigned_abs();
    let whole = size / power_of_ten(scale);
    f.write_str(sign(units))?;
    whole.fmt(f)?;
    write_point(size, scale, f)
}

// A minus where the number is below zero.
fn sign(number: i128) -> &'static str
    ensures { result.now ≡ sign_text number }
{
    if number < 0 { "-" } else { "" }
}

// Writes a point and so many of the last digits, if that are any.
fn write_point<W: Write>(number: u128, count: u8, f: &mut Formatter<W>) -> fmt::Result
    requires { count ≤ 38 }
    ensures { WritesOnOk W.write_str_gives f.old result (point_text count number) f.new }
{
    if count == 0 {
        return Ok(());
    }
    f.write_str(".")?;
    write_last_digits(number, count, f)
}

/// The units of a decimal in a text as `-12.50`, 10 to the scale of which are one. None where the text has other bytes, digits
/// that aren't zero beyond the scale, or more than 38 digits. Asks a scale of at most 38.
pub fn read_decimal(text: &[u8], scale: u8) -> Option<i128>
    requires { scale ≤ 38 }
    ensures { result ≡ decimal_read scale text.now }
{
    if begin_with(text, b'-') {
        return Some(-(size_of(&text[1..], scale)? as i128));
    }
    Some(size_of(text, scale)? as i128)
}

// The same without a sign.
fn size_of(text: &[u8], scale: u8) -> Option<u128>
    requires { scale ≤ 38 }
    ensures size { result ≡ size_read scale text.now }
    ensures small { IfSome result (λ n. n < 10 ^ 38) }
{
    let count = in_front(text, b'0', b'9');
    if count == 0 {
        None
    } else if count == text.len() {
        units_of(text, &[], scale)
    } else if text[count] == b'.' && count + 1 != text.len() {
        units_of(&text[..count], &text[count + 1..], scale)
    } else {
        None
    }
}

// The units of whole digits and of those behind the point.
pub(crate) fn units_of(whole: &[u8], behind: &[u8], scale: u8) -> Option<u128>
    requires { scale ≤ 38 }
    ensures units { result ≡ units_of scale whole.now behind.now }
    ensures small { IfSome result (λ n. n < 10 ^ 38) }
{
    let whole = significant(whole);
    let scale = usize::from(scale);
    if whole.len() > 38 - scale {
        return None;
    }
    let count = behind.len().min(scale);
    if !are_zeros(&behind[count..]) {
        return None;
    }
    let number = digits_behind(number_of(whole)?, whole.len(), &behind[..count])?;
    Some(number * power_of_ten((scale - count) as u8))
}

// Digits without the zeros before them.
fn significant(digits: &[u8]) -> &[u8]
    ensures digits { result.now ≡ significant digits.now }
{
    &digits[in_front(digits, b'0', b'0')..]
}

// Whether each byte is a zero.
fn are_zeros(bytes: &[u8]) -> bool
    ensures { result ≡ list_all (λ b. b == 48) bytes.now }
{
    bytes.iter().all(|byte| *byte == b'0')
}

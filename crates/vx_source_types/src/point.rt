// What stands in a number besides its whole digits: a point, and an exponent.
ghost use Rattle.std.specs.Prelude.{◌≡◌, ◌≤◌, ◌+◌, length, true};
ghost use Rattle.vx_source_types.specs.Tokens.{exponent_len, fraction_len, has_point, is_e, is_in_number, is_plus_or_minus, is_whole, point_len, power_len, sign_len};

use crate::blanks::next;
use crate::words::{digits_len, is_digit};

// How many bytes a point with its digits takes at the front, an exponent, or both.
pub(crate) fn fraction_len(bytes: &[u8]) -> usize
    ensures len { result ≡ fraction_len bytes.now }
    ensures within { result ≤ length bytes.now }
{
    let point = point_len(bytes);
    point + exponent_len(&bytes[point..])
}

// How many bytes a point and the digits behind it take at the front.
fn point_len(bytes: &[u8]) -> usize
    ensures len { result ≡ point_len bytes.now }
    ensures within { result ≤ length bytes.now }
{
    if has_point(bytes) {
        1 + digits_len(&bytes[1..])
    } else {
        0
    }
}

// Whether a point and a digit are at the front.
fn has_point(bytes: &[u8]) -> bool
    ensures value { result ≡ has_point bytes.now }
    ensures there { result ≡ true → 1 ≤ length bytes.now }
{
    match bytes {
        [b'.', rest @ ..] => is_digit(next(rest)),
        _ => false,
    }
}

// How many bytes an exponent takes at the front.
fn exponent_len(bytes: &[u8]) -> usize
    ensures len { result ≡ exponent_len bytes.now }
    ensures within { result ≤ length bytes.now }
{
    match bytes {
        [first, rest @ ..] if is_e(*first) => power_len(rest),
        _ => 0,
    }
}

// How many bytes the digits behind an e take, with it and their sign.
fn power_len(bytes: &[u8]) -> usize
    ensures len { result ≡ power_len (sign_len bytes.now) bytes.now }
    ensures within { result ≤ 1 + length bytes.now }
{
    let sign = sign_len(bytes);
    let digits = &bytes[sign..];
    if is_digit(next(digits)) {
        1 + sign + digits_len(digits)
    } else {
        0
    }
}

// How many bytes a sign takes at the front.
fn sign_len(bytes: &[u8]) -> usize
    ensures len { result ≡ sign_len bytes.now }
    ensures within { result ≤ length bytes.now }
{
    if is_plus_or_minus(next(bytes)) { 1 } else { 0 }
}

// Whether an exponent begins with the byte.
fn is_e(b: u8) -> bool
    ensures { result ≡ is_e b }
{
    b == b'e' || b == b'E'
}

fn is_plus_or_minus(b: u8) -> bool
    ensures { result ≡ is_plus_or_minus b }
{
    b == b'+' || b == b'-'
}

// Whether the byte is a part of a number with a point or an exponent, and no underscore.
pub(crate) fn is_in_number(b: u8) -> bool
    ensures { result ≡ is_in_number b }
{
    is_digit(b) || (b == b'.' || (is_e(b) || is_plus_or_minus(b)))
}

// Whether the text of a number has neither a point nor an exponent.
pub(crate) fn is_whole(digits: &str) -> bool
    ensures { result ≡ is_whole digits.now }
{
    let bytes = digits.as_bytes();
    for b in bytes {
        if !(is_digit(*b) || *b == b'-') {
            return false;
        }
    }
    true
}

// The first token of a text.
ghost use Rattle.std.specs.Prelude.{◌≡◌, ◌≤◌, ◌<◌, ◌+◌, ℕ, length, drop, IfOk, false};
ghost use Rattle.vx_source_types.specs.Tokens.{first, skip, token_at, is_hex, other_taken, dash_taken, sign_taken, long_sign, short_sign, next};
ghost use Rattle.vx_source_types.specs.Views.{taken_of};

use crate::blanks::{blank_len, next};
use crate::expectation::Expected;
use crate::number::{number_at, octets_at};
use crate::quotes::{name_at, text_at};
use crate::signs::{long_sign, short_sign};
use crate::token::{Sign, Token};
use crate::words::{is_digit, is_letter, word_len, word_of};
use std::alloc::{AllocError, Global};

/// A token, and where it stands.
#[derive(Drop)]
pub struct Found {
    /// The token.
    pub token: Token,
    /// The byte at which it begins.
    pub at: usize,
    /// The byte behind it.
    pub end: usize,
}

/// The first token of the text from that byte on, behind blanks and comments. At the end of the text
/// it is `Token::End`. Asks a byte of the text or its end.
pub fn first_token(alloc: Global, text: &str, from: usize) -> Result<Found, AllocError>
    requires { from ≤ length text.now }
    ensures token { IfOk result (λ found. first (drop from text.now) ≡ taken_of text.now found.token found.end) }
    ensures place { IfOk result (λ found. drop found.at text.now ≡ skip false (drop from text.now)) }
    ensures within { IfOk result (λ found. (from ≤ found.at) × (found.at ≤ found.end) × (found.end ≤ length text.now)) }
    ensures forward { IfOk result (λ found. found.at < length text.now → found.at < found.end) }
{
    let bytes = text.as_bytes();
    let at = from + blank_len(&bytes[from..]);
    let (token, len) = token_at(alloc, &bytes[at..])?;
    Ok(Found {
        token,
        at,
        end: at + len,
    })
}

// The token at the front, where there is no blank, and how many bytes it takes.
fn token_at(alloc: Global, bytes: &[u8]) -> Result<(Token, usize), AllocError>
    ensures taken { IfOk result (λ r. token_at bytes.now ≡ taken_of bytes.now r.0 r.1) }
    ensures within { IfOk result (λ r. r.1 ≤ length bytes.now) }
    ensures forward { IfOk result (λ r. 0 < length bytes.now → 0 < r.1) }
{
    if bytes.is_empty() {
        return Ok((Token::End, 0));
    }
    let b = bytes[0];
    let rest = &bytes[1..];
    if is_letter(b) {
        return Ok((Token::Word(word_of(alloc, bytes)?), word_len(bytes)));
    }
    if is_hex(b, rest) {
        let (token, len) = octets_at(alloc, &rest[1..])?;
        return Ok((token, 2 + len));
    }
    if is_digit(b) {
        return number_at(alloc, false, bytes);
    }
    let (token, len) = other_at(alloc, b, rest)?;
    Ok((token, 1 + len))
}

// The token whose first byte is b, which begins neither a word nor a number, and how many bytes it takes behind that.
fn other_at(alloc: Global, b: u8, rest: &[u8]) -> Result<(Token, usize), AllocError>
    ensures taken { IfOk result (λ r. other_taken b rest.now ≡ taken_of rest.now r.0 r.1) }
    ensures within { IfOk result (λ r. r.1 ≤ length rest.now) }
{
    match b {
        b'"' => text_at(alloc, b'"', Expected::ClosingQuote, rest),
        b'\'' => text_at(alloc, b'\'', Expected::ClosingSingleQuote, rest),
        b'`' => name_at(alloc, rest),
        b'-' => dash_at(alloc, rest),
        _ => Ok(sign_at(b, rest)),
    }
}

// Whether `0x` is at the front.
fn is_hex(b: u8, rest: &[u8]) -> bool
    ensures { result ≡ is_hex b rest.now }
{
    b == b'0' && next(rest) == b'x'
}

// What stands behind a dash, and how many bytes it takes.
fn dash_at(alloc: Global, bytes: &[u8]) -> Result<(Token, usize), AllocError>
    ensures taken { IfOk result (λ r. dash_taken bytes.now ≡ taken_of bytes.now r.0 r.1) }
    ensures within { IfOk result (λ r. r.1 ≤ length bytes.now) }
{
    if is_digit(next(bytes)) {
        number_at(alloc, true, bytes)
    } else {
        Ok((Token::Sign(Sign::Minus), 0))
    }
}

// The sign that begins with b, and how many bytes it takes behind that.
fn sign_at(b: u8, rest: &[u8]) -> (Token, usize)
    ensures taken { sign_taken (long_sign b (next rest.now)) (short_sign b) rest.now ≡ taken_of rest.now result.0 result.1 }
    ensures within { result.1 ≤ length rest.now }
{
    if let Some(sign) = long_sign(b, next(rest)) {
        return (Token::Sign(sign), 1);
    }
    match short_sign(b) {
        Some(sign) => (Token::Sign(sign), 0),
        None => (Token::Invalid(Expected::Token), 0),
    }
}

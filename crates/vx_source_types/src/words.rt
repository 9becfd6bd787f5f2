// The characters of words and numbers.
ghost use Rattle.std.specs.Prelude.{◌≡◌, ◌≤◌, ◌+◌, length, drop, IfOk, take, false};
ghost use Rattle.vx_source_types.specs.Characters.{is_letter, is_digit, is_word};
ghost use Rattle.std.specs.List.{list_all};
ghost use Rattle.vx_source_types.specs.Spellings.{is_plain};
ghost use Rattle.vx_source_types.specs.Tokens.{digits_go_on, digits_len, word_len};

use crate::blanks::next;
use std::alloc::{AllocError, Global};
use std::str;
use vx_dtype::FieldName;

// Whether a word begins with the byte.
pub(crate) fn is_letter(b: u8) -> bool
    ensures { result ≡ is_letter b }
{
    (b >= b'a' && b <= b'z') || ((b >= b'A' && b <= b'Z') || b == b'_')
}

// Whether the byte is a decimal digit.
pub(crate) fn is_digit(b: u8) -> bool
    ensures { result ≡ is_digit b }
{
    b >= b'0' && b <= b'9'
}

// Whether a word goes on with the byte.
fn is_word(b: u8) -> bool
    ensures { result ≡ is_word b }
{
    is_letter(b) || is_digit(b)
}

/// Whether the text is a word: letters, digits and underscores, and no digit first.
pub fn is_plain(text: &str) -> bool
    ensures { result ≡ is_plain text.now }
{
    let [first, rest @ ..] = text.as_bytes() else {
        return false;
    };
    is_letter(*first) && goes_on(rest)
}

// Whether a word goes on with all of the bytes.
fn goes_on(bytes: &[u8]) -> bool
    ensures { result ≡ list_all is_word bytes.now }
{
    for b in bytes {
        if !is_word(*b) {
            return false;
        }
    }
    true
}

// How long the longest word at the front is.
pub(crate) fn word_len(bytes: &[u8]) -> usize
    ensures len { result ≡ word_len bytes.now }
    ensures within { result ≤ length bytes.now }
{
    let mut at = 0;
    while at < bytes.len() && is_word(bytes[at]) {
        at += 1;
    }
    at
}

// How many bytes the digits at the front take, with the underscores between them. The first is a digit.
pub(crate) fn digits_len(bytes: &[u8]) -> usize
    ensures len { result ≡ digits_len bytes.now }
    ensures within { result ≤ length bytes.now }
{
    let mut at = 0;
    while at < bytes.len() && digits_go_on(bytes[at], &bytes[at + 1..]) {
        at += 1;
    }
    at
}

// Whether digits go on with that byte: with a digit, or an underscore before one.
fn digits_go_on(b: u8, rest: &[u8]) -> bool
    ensures { result ≡ digits_go_on b rest.now }
{
    is_digit(b) || (b == b'_' && is_digit(next(rest)))
}

// The longest word at the front.
pub(crate) fn word_of(alloc: Global, bytes: &[u8]) -> Result<FieldName, AllocError>
    ensures { IfOk result (λ name. name ≡ take (word_len bytes.now) bytes.now) }
{
    let text = word_text(bytes);
    match FieldName::new(alloc, text) {
        Ok(name) => Ok(name),
        Err(_) => Err(AllocError),
    }
}

// The same as a text.
fn word_text(bytes: &[u8]) -> &str
    ensures { result.now ≡ take (word_len bytes.now) bytes.now }
{
    match str::from_utf8(&bytes[..word_len(bytes)]) {
        Ok(text) => text,
        Err(_) => unreachable!(),
    }
}

// Texts in which a backslash says something of the byte behind it.
ghost use Rattle.std.specs.Prelude.{◌≡◌, ◌≤◌, IfOk, MatchOption, length, option_map};
ghost use Rattle.vx_sql.specs.Quotes.{anywhere};
ghost use Rattle.vx_sql_parser.specs.SqlTokens.{escaped_read, escaped_taken, text_lexeme, utf8};
ghost use Rattle.vx_sql_parser.specs.Views.{between_of, sql_of, token_of};

use crate::reason::Unread;
use std::alloc::{AllocError, Global};
use std::str;
use vx_source_types::Token;

/// Where between quotes a byte stands.
#[derive(Clone, Copy)]
pub(crate) enum Inside {
    /// Behind a byte that says nothing of it.
    Anywhere,
    /// Behind a quote, which is the closing one unless another follows.
    BehindQuote,
    /// Behind a backslash.
    BehindBackslash,
}

// The text behind what opens it, and how many bytes it takes with the closing quote. A backslash stands before a quote or
// another backslash, and a quote may be doubled, or may not.
pub(crate) fn escaped_text(
    alloc: Global,
    doubled: bool,
    bytes: &[u8],
) -> Result<(Result<Token, Unread>, usize), AllocError>
    ensures token { IfOk result (λ r. escaped_taken doubled bytes.now ≡ token_of bytes.now r.0 r.1) }
    ensures within { IfOk result (λ r. r.1 ≤ length bytes.now) }
{
    match between(alloc, doubled, bytes)? {
        Some((made, len)) => Ok((text_of(alloc, made.as_slice())?, len)),
        None => Ok((Err(Unread::Unclosed), bytes.len())),
    }
}

fn text_of(alloc: Global, made: &[u8]) -> Result<Result<Token, Unread>, AllocError>
    ensures { IfOk result (λ t. sql_of t ≡ text_lexeme made.now) }
{
    match as_text(made) {
        Some(text) => Ok(Ok(Token::Text(String::from_str(alloc, text)?))),
        None => Ok(Err(Unread::Unclosed)),
    }
}

// What stands before the closing quote, and how many bytes it takes with that.
fn between(
    alloc: Global,
    doubled: bool,
    bytes: &[u8],
) -> Result<Option<(Vec<u8>, usize)>, AllocError>
    ensures found { IfOk result (λ o. between_of bytes.now o ≡ escaped_read doubled anywhere bytes.now) }
    ensures within { IfOk result (λ o. MatchOption o (Unit {0}) (λ p. p.1 ≤ length bytes.now)) }
{
    let mut made = Vec::new(alloc);
    let mut inside = Inside::Anywhere;
    let mut at = 0;
    while at < bytes.len() {
        let b = bytes[at];
        match inside {
            Inside::Anywhere if b == b'\'' => {
                if !doubled {
                    return Ok(Some((made, at + 1)));
                }
                inside = Inside::BehindQuote;
            }
            Inside::Anywhere if b == b'\\' => inside = Inside::BehindBackslash,
            Inside::BehindQuote if b != b'\'' => return Ok(Some((made, at))),
            Inside::BehindBackslash if !(b == b'\'' || b == b'\\') => return Ok(None),
            _ => {
                made.push(b)?;
                inside = Inside::Anywhere;
            }
        }
        at += 1;
    }
    match inside {
        Inside::BehindQuote => Ok(Some((made, at))),
        Inside::Anywhere | Inside::BehindBackslash => Ok(None),
    }
}

// The bytes, where they are a text.
pub(crate) fn as_text(bytes: &[u8]) -> Option<&str>
    ensures { option_map (λ s. s.now) result ≡ utf8 bytes.now }
{
    match str::from_utf8(bytes) {
        Ok(text) => Some(text),
        Err(_) => None,
    }
}

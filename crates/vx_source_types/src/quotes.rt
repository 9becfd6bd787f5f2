// What stands between quotes.
ghost use Rattle.std.specs.Prelude.{◌≡◌, ◌≤◌, ℕ, length, drop, IfOk, MatchOption, None, Some, false};
ghost use Rattle.vx_source_types.specs.Tokens.{unquoted, text_taken, quoted_taken, text_lexeme, quoted_lexeme};
ghost use Rattle.vx_source_types.specs.Views.{taken_of, lexeme_of};

use crate::expectation::Expected;
use crate::token::Token;
use std::alloc::{AllocError, Global};
use std::str;
use vx_dtype::FieldName;

// What stands before the closing quote, and how many bytes it takes with the quote; None where there is
// no closing quote.
fn unquoted(alloc: Global, quote: u8, bytes: &[u8]) -> Result<Option<(Vec<u8>, usize)>, AllocError>
    ensures found { IfOk result (λ o. MatchOption o (unquoted quote false bytes.now ≡ None)
        (λ p. unquoted quote false bytes.now ≡ Some (p.0.items, drop p.1 bytes.now))) }
    ensures within { IfOk result (λ o. MatchOption o (Unit {0}) (λ p. p.1 ≤ length bytes.now)) }
{
    let mut made = Vec::new(alloc);
    let mut seen = false;
    let mut at = 0;
    while at < bytes.len() {
        let b = bytes[at];
        if b == quote {
            if seen {
                made.push(b)?;
            }
            seen = !seen;
        } else if seen {
            break;
        } else {
            made.push(b)?;
        }
        at += 1;
    }
    if seen { Ok(Some((made, at))) } else { Ok(None) }
}

// The text behind such a quote, and how many bytes it takes, or what would have stood right.
pub(crate) fn text_at(
    alloc: Global,
    quote: u8,
    wanted: Expected,
    bytes: &[u8],
) -> Result<(Token, usize), AllocError>
    ensures taken { IfOk result (λ r. text_taken wanted (unquoted quote false bytes.now) ≡ taken_of bytes.now r.0 r.1) }
    ensures within { IfOk result (λ r. r.1 ≤ length bytes.now) }
{
    let Some((made, len)) = unquoted(alloc, quote, bytes)? else {
        return Ok((Token::Invalid(wanted), bytes.len()));
    };
    Ok((text_of(alloc, wanted, made.as_slice())?, len))
}

// The name behind a backquote, and how many bytes it takes.
pub(crate) fn name_at(alloc: Global, bytes: &[u8]) -> Result<(Token, usize), AllocError>
    ensures taken { IfOk result (λ r. quoted_taken (unquoted 96 false bytes.now) ≡ taken_of bytes.now r.0 r.1) }
    ensures within { IfOk result (λ r. r.1 ≤ length bytes.now) }
{
    let Some((made, len)) = unquoted(alloc, b'`', bytes)? else {
        return Ok((Token::Invalid(Expected::ClosingBackquote), bytes.len()));
    };
    Ok((name_of(alloc, made.as_slice())?, len))
}

// The token of what stands between quotes, or what would have stood right.
fn text_of(alloc: Global, wanted: Expected, made: &[u8]) -> Result<Token, AllocError>
    ensures { IfOk result (λ t. lexeme_of t ≡ text_lexeme wanted made.now) }
{
    match str::from_utf8(made) {
        Ok(text) => Ok(Token::Text(String::from_str(alloc, text)?)),
        Err(_) => Ok(Token::Invalid(wanted)),
    }
}

// The token of what stands between backquotes.
fn name_of(alloc: Global, made: &[u8]) -> Result<Token, AllocError>
    ensures { IfOk result (λ t. lexeme_of t ≡ quoted_lexeme made.now) }
{
    let Ok(text) = str::from_utf8(made) else {
        return Ok(Token::Invalid(Expected::ClosingBackquote));
    };
    match FieldName::new(alloc, text) {
        Ok(name) => Ok(Token::Quoted(name)),
        Err(_) => Err(AllocError),
    }
}

// The patterns of LIKE.
ghost use Rattle.std.specs.Prelude.{◌≡◌, ◌++◌, IfOk, OnOk, option_map, string_bytes, false};
ghost use Rattle.vx_sql_parser.specs.Patterns as patterns;
ghost use Rattle.vx_sql_parser.specs.Views.{items_in};

use crate::escapes::as_text;
use std::alloc::{AllocError, Global};
use vx_sql::Dialect;

// Whether LIKE ignores the case of ASCII letters, and there is no ILIKE.
pub(crate) fn ignores_case(dialect: Dialect) -> bool
    ensures { result ≡ patterns.ignores_case dialect }
{
    matches!(dialect, Dialect::Sqlite)
}

// What makes a character stand for itself where no other is said.
pub(crate) fn default_escape(dialect: Dialect) -> Option<u8>
    ensures { result ≡ patterns.default_escape dialect }
{
    match dialect {
        Dialect::Postgres | Dialect::Spark | Dialect::ClickHouse => Some(b'\\'),
        Dialect::Sqlite | Dialect::DuckDb => None,
    }
}

// Whether the character may be said to do so.
pub(crate) fn is_escape(c: u8) -> bool
    ensures { result ≡ patterns.is_escape c }
{
    c < 128 && !(c == b'%' || c == b'_')
}

fn is_that(escape: Option<u8>, c: u8) -> bool
    ensures { result ≡ patterns.is_that escape c }
{
    match escape {
        Some(e) => c == e,
        None => false,
    }
}

// Whether source text has a backslash before the character where it stands for itself.
pub(crate) fn is_sign(c: u8) -> bool
    ensures { result ≡ patterns.is_sign c }
{
    c == b'%' || (c == b'_' || c == b'\\')
}

// The pattern as source text has it; none where the escape stands before another character or at the end.
pub(crate) fn pattern_source(
    alloc: Global,
    escape: Option<u8>,
    pattern: &str,
) -> Result<Option<String>, AllocError>
    ensures { IfOk result (λ p. option_map (λ s. string_bytes s) p ≡ patterns.pattern_source escape pattern.now) }
{
    let made = respelled(alloc, escape, pattern.as_bytes())?;
    as_source(alloc, made)
}

// The bytes as a text.
pub(crate) fn as_source(alloc: Global, made: Option<Vec<u8>>) -> Result<Option<String>, AllocError>
    ensures { IfOk result (λ p. option_map (λ s. string_bytes s) p ≡ patterns.as_text (option_map items_in made)) }
{
    let Some(made) = made else {
        return Ok(None);
    };
    match as_text(made.as_slice()) {
        Some(text) => Ok(Some(String::from_str(alloc, text)?)),
        None => Ok(None),
    }
}

fn respelled(
    alloc: Global,
    escape: Option<u8>,
    pattern: &[u8],
) -> Result<Option<Vec<u8>>, AllocError>
    ensures { IfOk result (λ p. option_map items_in p ≡ patterns.respelled escape false pattern.now) }
{
    let mut made = Vec::new(alloc);
    let mut escaped = false;
    for c in pattern {
        let c = *c;
        if escaped {
            if !(is_that(escape, c) || (c == b'%' || c == b'_')) {
                return Ok(None);
            }
            put(&mut made, is_sign(c), c)?;
            escaped = false;
        } else if is_that(escape, c) {
            escaped = true;
        } else {
            put(&mut made, c == b'\\', c)?;
        }
    }
    if escaped { Ok(None) } else { Ok(Some(made)) }
}

// Adds the character, behind a backslash or not.
pub(crate) fn put(made: &mut Vec<u8>, escaped: bool, c: u8) -> Result<(), AllocError>
    ensures { OnOk result (made.new.items ≡ made.old.items ++ patterns.put escaped c) }
{
    if escaped {
        made.push(b'\\')?;
    }
    made.push(c)?;
    Ok(())
}

// Casts, of literals and others.
ghost use Rattle.std.specs.Prelude.{◌≡◌, ◌<◌, ◌≤◌, ◌++◌, IfOk, IfSome, codes, option_map, string_bytes};
ghost use Rattle.vx_dtype.specs.Quotes.{between_quotes};
ghost use Rattle.vx_source_types.specs.Views.{lexeme_of};
ghost use Rattle.vx_sql_parser.specs.CastTypes as types;
ghost use Rattle.vx_sql_parser.specs.Values as values;
ghost use Rattle.vx_sql_parser.specs.Rules as rules;
ghost use Rattle.vx_sql_parser.specs.RuleViews.{Answers};
ghost use Rattle.vx_sql_parser.specs.Views.{cast_of, cast_type_of, lexemes_of};

use crate::ahead::{closes_at, is_word_at, token_at};
use crate::cast_types::{CastType, type_at};
use crate::keywords::{is, is_one_of};
use crate::lengths::{counts_bytes, length_as, length_begins};
use crate::lexed::Lexed;
use crate::names::sign_of;
use crate::octets::escape_digits;
use crate::patterns::as_source;
use crate::quotes::QuotedText;
use crate::reason::Unread;
use crate::step::{Bracket, Change, Step, Stop, says, stepped};
use std::alloc::{AllocError, Global};
use vx_source_types::Token;
use vx_sql::{Dialect, has_floats};

// A cast whose bracket is the first token: a literal, or the bracket around what is cast or counted.
pub(crate) fn cast(alloc: Global, dialect: Dialect, tokens: &[Lexed]) -> Result<Step, Stop>
    ensures { Answers result (values.cast_said dialect (lexemes_of tokens.now) (values.literal_cast dialect (lexemes_of tokens.now) 0)) }
{
    match literal_cast(alloc, dialect, tokens, 0)? {
        Some((text, len)) => Ok(stepped(text, Change::Stays, len)),
        None if counts_bytes(dialect, "cast", tokens) => length_begins(alloc),
        None => says(alloc, "cast(", Change::Opens(Bracket::Paren), 1),
    }
}

// The literal that a cast is whose bracket is at that place, and how many tokens it takes from there on: a number, a
// text or a null, of the type that is said.
pub(crate) fn literal_cast(
    alloc: Global,
    dialect: Dialect,
    tokens: &[Lexed],
    i: usize,
) -> Result<Option<(String, usize)>, AllocError>
    requires { i < 8 }
    ensures cast { IfOk result (λ c. option_map cast_of c ≡ values.literal_cast dialect (lexemes_of tokens.now) i) }
    ensures few { IfOk result (λ c. IfSome c (λ p. p.1 ≤ 10)) }
{
    if !is_word_at(tokens, i + 2, "as") {
        return Ok(None);
    }
    let Some(dtype) = type_at(dialect, tokens, i + 3) else {
        return Ok(None);
    };
    if !closes_at(tokens, i + 3 + dtype.len()) {
        return Ok(None);
    }
    match typed_literal(alloc, dialect, token_at(tokens, i + 1), dtype)? {
        Some(text) => Ok(Some((text, 4 + dtype.len()))),
        None => Ok(None),
    }
}

// The literal that the token is as one of that type.
fn typed_literal(
    alloc: Global,
    dialect: Dialect,
    token: Option<&Token>,
    dtype: CastType,
) -> Result<Option<String>, AllocError>
    ensures { IfOk result (λ t. option_map string_bytes t ≡ values.typed_literal dialect (option_map (λ x. lexeme_of x.now) token.entry) (cast_type_of dtype)) }
{
    match token {
        Some(
            Token::Number {
                negative,
                magnitude: Some(n),
                ..
            },
        ) => typed_number(alloc, dialect, sign_of(*negative), *n, dtype),
        Some(Token::Point(digits)) => point_literal(alloc, digits.as_str(), dtype),
        Some(Token::Word(null)) if is(null.as_str(), "null") => {
            Ok(Some(format!(in alloc; "null::{dtype}?")?))
        }
        Some(Token::Text(text)) => text_literal(alloc, dialect, text.as_str(), dtype),
        _ => Ok(None),
    }
}

// A number with a point or an exponent as one of that type.
fn point_literal(alloc: Global, digits: &str, dtype: CastType) -> Result<Option<String>, AllocError>
    ensures { IfOk result (λ t. option_map string_bytes t ≡ values.point_literal digits.now (cast_type_of dtype)) }
{
    if has_points(dtype) {
        Ok(Some(format!(in alloc; "{digits}::{dtype}")?))
    } else {
        Ok(None)
    }
}

// Whether values of the type have points: decimals and floating-point numbers.
fn has_points(dtype: CastType) -> bool
    ensures { result ≡ values.has_points (cast_type_of dtype) }
{
    match dtype {
        CastType::Named(name) => is_one_of(name, &["f32", "f64"]),
        CastType::DoublePrecision | CastType::Decimals(..) => true,
        CastType::Instants { .. } => false,
    }
}

// Whether values of the type are days or instants.
fn is_dated(dtype: CastType) -> bool
    ensures { result ≡ values.is_dated (cast_type_of dtype) }
{
    match dtype {
        CastType::Named(_) => dtype.is_called("date"),
        CastType::DoublePrecision | CastType::Decimals(..) => false,
        CastType::Instants { .. } => true,
    }
}

// A number of that type, of which none is a day or an instant.
fn typed_number(
    alloc: Global,
    dialect: Dialect,
    sign: &str,
    n: u64,
    dtype: CastType,
) -> Result<Option<String>, AllocError>
    ensures { IfOk result (λ t. option_map string_bytes t ≡ values.typed_number dialect sign.now n (cast_type_of dtype)) }
{
    if is_dated(dtype) {
        return Ok(None);
    }
    if is_of_all(dialect, dtype) {
        return Ok(Some(format!(in alloc; "{sign}{n}")?));
    }
    Ok(Some(format!(in alloc; "{sign}{n}::{dtype}")?))
}

// Whether the type is the one of all numbers, as SQLite's.
fn is_of_all(dialect: Dialect, dtype: CastType) -> bool
    ensures { result ≡ values.is_of_all dialect (cast_type_of dtype) }
{
    match dialect {
        Dialect::Sqlite => dtype.is_called("i64"),
        Dialect::Postgres | Dialect::DuckDb | Dialect::Spark | Dialect::ClickHouse => false,
    }
}

// A text as one of that type.
fn text_literal(
    alloc: Global,
    dialect: Dialect,
    text: &str,
    dtype: CastType,
) -> Result<Option<String>, AllocError>
    ensures { IfOk result (λ t. option_map string_bytes t ≡ values.text_literal dialect text.now (cast_type_of dtype)) }
{
    if is_bytes_type(dialect, dtype) {
        let digits = escape_digits(alloc, text.as_bytes())?;
        return as_source(alloc, digits);
    }
    if is_typed(dialect, text, dtype) {
        return Ok(Some(text_of(alloc, text, dtype)?));
    }
    Ok(None)
}

// A text before its type.
pub(crate) fn text_of(alloc: Global, text: &str, dtype: CastType) -> Result<String, AllocError>
    ensures { IfOk result (λ s. string_bytes s ≡ values.text_of (cast_type_of dtype) text.now) }
{
    match dtype {
        CastType::Instants { .. } => instant_of(alloc, text, dtype),
        CastType::Named(_) | CastType::DoublePrecision | CastType::Decimals(..) => {
            quoted_before(alloc, text, dtype)
        }
    }
}

// The text of an instant before its type: that of a day alone, which has ten bytes, is its midnight.
fn instant_of(alloc: Global, text: &str, dtype: CastType) -> Result<String, AllocError>
    ensures { IfOk result (λ s. string_bytes s ≡ between_quotes 34 (values.instant_said text.now) ++ (codes "::" ++ types.type_source (cast_type_of dtype))) }
{
    if text.len() == 10 {
        let midnight = format!(in alloc; "{text}T00:00:00")?;
        quoted_before(alloc, midnight.as_str(), dtype)
    } else {
        quoted_before(alloc, text, dtype)
    }
}

fn quoted_before(alloc: Global, text: &str, dtype: CastType) -> Result<String, AllocError>
    ensures { IfOk result (λ s. string_bytes s ≡ between_quotes 34 text.now ++ (codes "::" ++ types.type_source (cast_type_of dtype))) }
{
    let text = QuotedText(text);
    format!(in alloc; "{text}::{dtype}")
}

// Whether the type is that of DuckDB's bytes.
fn is_bytes_type(dialect: Dialect, dtype: CastType) -> bool
    ensures { result ≡ values.is_bytes_type dialect (cast_type_of dtype) }
{
    match dialect {
        Dialect::DuckDb => dtype.is_called("binary"),
        Dialect::Postgres | Dialect::Sqlite | Dialect::Spark | Dialect::ClickHouse => false,
    }
}

// Whether the text is written before the type: that of a day, an instant, a decimal or a floating-point number.
fn is_typed(dialect: Dialect, text: &str, dtype: CastType) -> bool
    ensures { result ≡ values.is_typed dialect text.now (cast_type_of dtype) }
{
    match dtype {
        CastType::Named(name) => {
            is(name, "date") || (has_points(dtype) && is_float_text(dialect, text))
        }
        CastType::DoublePrecision => is_float_text(dialect, text),
        CastType::Decimals(..) | CastType::Instants { .. } => true,
    }
}

// Whether the text may be that of a floating-point number: in an engine that has ours, and not by hexadecimal digits, which
// source text takes for bits.
fn is_float_text(dialect: Dialect, text: &str) -> bool
    ensures { result ≡ values.is_float_text dialect text.now }
{
    has_floats(dialect) && !text.as_bytes().starts_with(b"0x")
}

// `as`, before a type.
pub(crate) fn as_rule(
    alloc: Global,
    dialect: Dialect,
    top: Option<&Bracket>,
    tokens: &[Lexed],
) -> Result<Step, Stop>
    ensures { Answers result (rules.as_rule dialect (option_map (λ b. b.now) top.entry) (lexemes_of tokens.now)) }
{
    match top {
        Some(Bracket::Length) => length_as(alloc, dialect, tokens),
        _ => as_type(alloc, dialect, tokens),
    }
}

// The type behind `as`.
fn as_type(alloc: Global, dialect: Dialect, tokens: &[Lexed]) -> Result<Step, Stop>
    ensures { Answers result (values.as_said (types.type_at dialect (lexemes_of tokens.now) 0)) }
{
    match type_at(dialect, tokens, 0) {
        Some(dtype) => {
            let text = format!(in alloc; "as {dtype}?")?;
            Ok(stepped(text, Change::Stays, dtype.len()))
        }
        None => Err(Stop::Unread(Unread::CastType)),
    }
}

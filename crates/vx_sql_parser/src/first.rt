// The first token of a text of SQL.
ghost use Rattle.std.specs.Prelude.{◌≡◌, ◌≤◌, ◌<◌, ◌+◌, IfOk, MatchOption, drop, length, string_bytes, true};
ghost use Rattle.vx_source_types.specs.Views.{lexeme_of};
ghost use Rattle.vx_sql_parser.specs.SqlTokens.{as_sql, begins_comment, blank_taken, closing, comment_taken, doubles_quotes, folded, has_name_quote, name_lexeme, no_token, number_lexeme, opening_len, plain_taken, taken_at, text_or_name, token_taken};
ghost use Rattle.vx_sql_parser.specs.Views.{blank_of, sql_of, taken_of, token_of};

use crate::comments::{closing, is_blank, line_len, next};
use crate::escapes::escaped_text;
use crate::reason::Unread;
use std::alloc::{AllocError, Global};
use vx_dtype::FieldName;
use vx_source_types::{Expected, Token, first_token};
use vx_sql::{Dialect, is_escaped};

// A token, or why it is none, and how many bytes it takes.
type Taken = (Result<Token, Unread>, usize);

// What is at that byte: blanks, a comment or a token, and how many bytes it takes.
pub(crate) fn taken_at(
    alloc: Global,
    dialect: Dialect,
    text: &str,
    at: usize,
) -> Result<(Option<Result<Token, Unread>>, usize), AllocError>
    requires { at < length text.now }
    ensures taken { IfOk result (λ r. taken_at dialect (drop at text.now) ≡ taken_of (drop at text.now) r.0 r.1) }
    ensures within { IfOk result (λ r. at + r.1 ≤ length text.now) }
    ensures forward { IfOk result (λ r. 0 < r.1) }
{
    if let Some((token, len)) = blank_at(&text.as_bytes()[at..]) {
        return Ok((token, len));
    }
    let (token, len) = token_at(alloc, dialect, text, at)?;
    Ok((Some(token), len))
}

// The blank or the comment at the front, if there is one, and how many bytes it takes.
#[tactic(auto, using(crate::proofs::TokensFound::drop_more_one))]
fn blank_at(bytes: &[u8]) -> Option<(Option<Result<Token, Unread>>, usize)>
    ensures taken { blank_of bytes.now result ≡ blank_taken bytes.now }
    ensures within { MatchOption result (Unit {0}) (λ r. r.1 ≤ length bytes.now) }
    ensures forward { MatchOption result (Unit {0}) (λ r. 0 < length bytes.now → 0 < r.1) }
{
    let [b, rest @ ..] = bytes else {
        return Some((None, 0));
    };
    if is_blank(*b) {
        return Some((None, 1));
    }
    if *b == b'-' && next(rest) == b'-' {
        return Some((None, 1 + line_len(rest)));
    }
    if begins_comment(bytes) {
        return Some(comment(bytes));
    }
    None
}

fn begins_comment(bytes: &[u8]) -> bool
    ensures begins { result ≡ begins_comment bytes.now }
    ensures long { result ≡ true → 2 ≤ length bytes.now }
{
    match bytes {
        [b, c, ..] => *b == b'/' && *c == b'*',
        _ => false,
    }
}

// A comment, which begins with two bytes.
fn comment(bytes: &[u8]) -> (Option<Result<Token, Unread>>, usize)
    requires { 2 ≤ length bytes.now }
    ensures taken { comment_taken bytes.now (closing 0 (drop 2 bytes.now)) ≡ taken_of bytes.now result.0 result.1 }
    ensures within { result.1 ≤ length bytes.now }
    ensures forward { 0 < result.1 }
{
    match closing(&bytes[2..]) {
        Some(len) => (None, 2 + len),
        None => (Some(Err(Unread::Comment)), bytes.len()),
    }
}

// The token at that byte, and how many bytes it takes.
fn token_at(alloc: Global, dialect: Dialect, text: &str, at: usize) -> Result<Taken, AllocError>
    requires { at < length text.now }
    ensures taken { IfOk result (λ r. token_taken dialect (drop at text.now) ≡ token_of (drop at text.now) r.0 r.1) }
    ensures within { IfOk result (λ r. at + r.1 ≤ length text.now) }
    ensures forward { IfOk result (λ r. 0 < r.1) }
{
    let bytes = &text.as_bytes()[at..];
    let opening = opening_len(dialect, bytes);
    if opening == 0 {
        return plain_at(alloc, dialect, text, at);
    }
    let (token, len) = escaped_text(alloc, doubles_quotes(dialect), &bytes[opening..])?;
    Ok((token, opening + len))
}

// How many bytes open a text in which a backslash says something, 0 where none begins.
fn opening_len(dialect: Dialect, bytes: &[u8]) -> usize
    ensures len { result ≡ opening_len dialect bytes.now }
    ensures within { result ≤ length bytes.now }
{
    match (dialect, bytes) {
        (Dialect::Postgres, [b'E' | b'e', b'\'', ..]) => 2,
        (Dialect::Spark | Dialect::ClickHouse, [b'\'', ..]) => 1,
        _ => 0,
    }
}

fn doubles_quotes(dialect: Dialect) -> bool
    ensures { result ≡ doubles_quotes dialect }
{
    !matches!(dialect, Dialect::Spark)
}

// The same of a token that source text has, too.
fn plain_at(alloc: Global, dialect: Dialect, text: &str, at: usize) -> Result<Taken, AllocError>
    requires { at < length text.now }
    ensures taken { IfOk result (λ r. plain_taken dialect (drop at text.now) ≡ token_of (drop at text.now) r.0 r.1) }
    ensures within { IfOk result (λ r. at + r.1 ≤ length text.now) }
    ensures forward { IfOk result (λ r. 0 < r.1) }
{
    let found = first_token(alloc, text, at)?;
    let token = as_sql(alloc, dialect, text.as_bytes()[at], found.token)?;
    Ok((token, found.end - at))
}

// What a token of source text that begins with that byte is here.
fn as_sql(
    alloc: Global,
    dialect: Dialect,
    first: u8,
    token: Token,
) -> Result<Result<Token, Unread>, AllocError>
    ensures { IfOk result (λ t. sql_of t ≡ as_sql dialect first (lexeme_of token)) }
{
    match token {
        Token::Word(word) => Ok(Ok(Token::Word(folded(alloc, dialect, word)?))),
        Token::Quoted(name) => Ok(name_of(dialect, b'`', name)),
        Token::Text(text) => text_of(alloc, dialect, first, text),
        Token::Number {
            negative,
            magnitude,
            suffix,
        } => Ok(number_of(negative, magnitude, suffix)),
        Token::Point(digits) => Ok(Ok(Token::Point(digits))),
        Token::Octets(_octets) => Ok(Err(Unread::Number)),
        Token::Sign(sign) => Ok(Ok(Token::Sign(sign))),
        Token::End => Ok(Err(Unread::Sign)),
        Token::Invalid(expected) => Ok(Err(no_token(expected))),
    }
}

// A text, or a name between double quotes.
fn text_of(
    alloc: Global,
    dialect: Dialect,
    first: u8,
    text: String,
) -> Result<Result<Token, Unread>, AllocError>
    ensures { IfOk result (λ t. sql_of t ≡ text_or_name dialect first (string_bytes text)) }
{
    if first == b'"' {
        let name = field_name(alloc, text.as_str())?;
        return Ok(name_of(dialect, b'"', name));
    }
    Ok(Ok(Token::Text(text)))
}

// A whole number below 2^64, with no word behind it.
fn number_of(negative: bool, magnitude: Option<u64>, suffix: FieldName) -> Result<Token, Unread>
    ensures { sql_of result ≡ number_lexeme negative magnitude suffix }
{
    if magnitude.is_some() && suffix.as_str().is_empty() {
        Ok(Token::Number {
            negative,
            magnitude,
            suffix,
        })
    } else {
        Err(Unread::Number)
    }
}

// Why there is no token: `0x` begins a number.
fn no_token(expected: Expected) -> Unread
    ensures { result ≡ no_token expected }
{
    match expected {
        Expected::Token => Unread::Sign,
        Expected::HexDigits => Unread::Number,
        _ => Unread::Unclosed,
    }
}

// The word as the engine folds it.
fn folded(alloc: Global, dialect: Dialect, word: FieldName) -> Result<FieldName, AllocError>
    ensures { IfOk result (λ w. w ≡ folded dialect word) }
{
    match dialect {
        Dialect::Postgres => {
            let small = word.as_str().to_ascii_lowercase(alloc)?;
            field_name(alloc, small.as_str())
        }
        Dialect::Sqlite | Dialect::DuckDb | Dialect::Spark | Dialect::ClickHouse => Ok(word),
    }
}

fn field_name(alloc: Global, name: &str) -> Result<FieldName, AllocError>
    ensures { IfOk result (λ a. a ≡ name.now) }
{
    FieldName::new(alloc, name).map_err(|_| AllocError)
}

// A name between such quotes, in which no backslash may say something.
fn name_of(dialect: Dialect, quote: u8, name: FieldName) -> Result<Token, Unread>
    ensures { sql_of result ≡ name_lexeme dialect quote name }
{
    if !has_name_quote(dialect, quote) {
        Err(Unread::NameQuote)
    } else if is_escaped(dialect, name.as_str()) {
        Err(Unread::Unclosed)
    } else {
        Ok(Token::Quoted(name))
    }
}

// Whether the engine's names stand between such quotes.
fn has_name_quote(dialect: Dialect, quote: u8) -> bool
    ensures { result ≡ has_name_quote dialect quote }
{
    match dialect {
        Dialect::Postgres | Dialect::DuckDb => quote == b'"',
        Dialect::Sqlite | Dialect::ClickHouse => true,
        Dialect::Spark => quote == b'`',
    }
}

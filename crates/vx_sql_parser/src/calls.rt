// Functions: casts, bytes, the fill of a `coalesce`, and those that ignore the case of letters.
ghost use Rattle.std.specs.Prelude.{◌≡◌, IfOk, option_map};
ghost use Rattle.vx_sql_parser.specs.Steps as steps;
ghost use Rattle.vx_sql_parser.specs.Values as values;
ghost use Rattle.vx_sql_parser.specs.Rules as rules;
ghost use Rattle.vx_sql_parser.specs.RuleViews.{Answers};
ghost use Rattle.vx_sql_parser.specs.Views.{lexeme_in, lexemes_of};

use crate::ahead::{closes_at, opens_at, text_at};
use crate::casts::cast;
use crate::folds::translated;
use crate::keywords::{is, is_truth};
use crate::lengths::{counts_bytes, length_begins};
use crate::lexed::Lexed;
use crate::names::{octets_said, typed_text};
use crate::reason::Unread;
use crate::step::{Bracket, Change, Step, Stop, says};
use std::alloc::{AllocError, Global};
use vx_source_types::Token;
use vx_sql::Dialect;

// A call, or a word before a text.
pub(crate) fn valued(
    alloc: Global,
    dialect: Dialect,
    word: &str,
    tokens: &[Lexed],
) -> Result<Step, Stop>
    ensures { Answers result (values.valued_rule dialect word.now (lexemes_of tokens.now)) }
{
    if opens_at(tokens, 0) {
        call(alloc, dialect, word, tokens)
    } else {
        typed_text(alloc, dialect, word, tokens)
    }
}

// The function of that name, whose bracket is the first token.
fn call(alloc: Global, dialect: Dialect, word: &str, tokens: &[Lexed]) -> Result<Step, Stop>
    ensures { Answers result (values.call_rule dialect word.now (lexemes_of tokens.now)) }
{
    if is(word, "cast") {
        cast(alloc, dialect, tokens)
    } else if is(word, "coalesce") {
        says(alloc, "coalesce(", Change::Opens(Bracket::Fill), 1)
    } else if is(word, "decode") {
        decode(alloc, dialect, tokens)
    } else if is(word, "unhex") {
        unhex(alloc, dialect, tokens)
    } else if counts_bytes(dialect, word, tokens) {
        length_begins(alloc)
    } else {
        other_call(alloc, dialect, word)
    }
}

// The functions that ignore the case of ASCII letters, before a match, DuckDB's that counts the bytes of a text, and
// ClickHouse's that divides whole numbers.
fn other_call(alloc: Global, dialect: Dialect, word: &str) -> Result<Step, Stop>
    ensures { Answers result (values.other_call dialect word.now) }
{
    match dialect {
        Dialect::Postgres | Dialect::ClickHouse if is(word, "lower") => {
            says(alloc, "(", Change::Opens(Bracket::Lower), 1)
        }
        Dialect::DuckDb | Dialect::Spark if is(word, "translate") => {
            says(alloc, "(", Change::Opens(Bracket::Translate), 1)
        }
        Dialect::DuckDb if is(word, "strlen") => {
            says(alloc, "byte_length(", Change::Opens(Bracket::Paren), 1)
        }
        Dialect::ClickHouse if is(word, "intdiv") => {
            says(alloc, "((", Change::Opens(Bracket::Divided), 1)
        }
        _ => Err(Stop::Unread(Unread::Function)),
    }
}

// PostgreSQL's bytes by their digits.
fn decode(alloc: Global, dialect: Dialect, tokens: &[Lexed]) -> Result<Step, Stop>
    ensures { Answers result (values.decode_rule dialect (lexemes_of tokens.now)) }
{
    match dialect {
        Dialect::Postgres if is_hex_call(tokens) => octets_said(alloc, 5, text_at(tokens, 1)),
        _ => Err(Stop::Unread(Unread::Function)),
    }
}

// ClickHouse's bytes by their digits.
fn unhex(alloc: Global, dialect: Dialect, tokens: &[Lexed]) -> Result<Step, Stop>
    ensures { Answers result (values.unhex_rule dialect (lexemes_of tokens.now)) }
{
    match dialect {
        Dialect::ClickHouse if closes_at(tokens, 2) => octets_said(alloc, 3, text_at(tokens, 1)),
        _ => Err(Stop::Unread(Unread::Function)),
    }
}

fn is_hex_call(tokens: &[Lexed]) -> bool
    ensures { result ≡ values.is_hex_call (lexemes_of tokens.now) }
{
    match text_at(tokens, 3) {
        Some(form) => is(form, "hex") && closes_at(tokens, 4),
        None => false,
    }
}

// A comma, behind which a literal is due inside a `coalesce`.
pub(crate) fn comma(
    alloc: Global,
    dialect: Dialect,
    top: Option<&Bracket>,
    tokens: &[Lexed],
) -> Result<Step, Stop>
    ensures { Answers result (rules.comma_rule dialect (option_map (λ b. b.now) top.entry) (lexemes_of tokens.now)) }
{
    match top {
        Some(Bracket::Translate) => translated(alloc, dialect, tokens),
        Some(Bracket::Divided) => says(alloc, ") / (", Change::Divides, 0),
        Some(Bracket::Fill) if !is_fill(alloc, dialect, tokens)? => {
            Err(Stop::Unread(Unread::Fill))
        }
        _ => says(alloc, ",", Change::Divides, 0),
    }
}

// Whether a literal stands at the front and then a closing bracket.
fn is_fill(alloc: Global, dialect: Dialect, tokens: &[Lexed]) -> Result<bool, AllocError>
    ensures { IfOk result (λ b. b ≡ values.is_fill dialect (lexemes_of tokens.now)) }
{
    let [first, rest @ ..] = tokens else {
        return Ok(false);
    };
    if is_value(first) && closes_at(rest, 0) {
        return Ok(true);
    }
    match &first.token {
        Ok(Token::Word(word)) => ends_value(valued(alloc, dialect, word.as_str(), rest), rest),
        _ => Ok(false),
    }
}

// Whether the token is a literal by itself.
fn is_value(token: &Lexed) -> bool
    ensures { result ≡ values.is_value (lexeme_in token.now) }
{
    match &token.token {
        Ok(Token::Text(_)) | Ok(Token::Number { .. }) | Ok(Token::Point(_)) => true,
        Ok(Token::Word(word)) => is_truth(word.as_str()),
        _ => false,
    }
}

// Whether what is said of a word is a literal, no bracket, and then a bracket closes.
fn ends_value(said: Result<Step, Stop>, tokens: &[Lexed]) -> Result<bool, AllocError>
    ensures { (answer : steps.Answer) → Answers said answer → IfOk result (λ b. b ≡ values.ends_value answer (lexemes_of tokens.now)) }
{
    match said {
        Ok(step) => Ok(matches!(step.change, Change::Stays) && closes_at(tokens, step.more)),
        Err(Stop::OutOfMemory) => Err(AllocError),
        Err(Stop::Unread(_)) => Ok(false),
    }
}

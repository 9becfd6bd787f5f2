// Collations, and matches of a text whose case a function ignores.
ghost use Rattle.std.specs.Prelude.{◌≡◌, ◌<◌, not, option_map};
ghost use Rattle.std.specs.Char.{is_ascii_uppercase};
ghost use Rattle.std.specs.List.{list_all};
ghost use Rattle.vx_sql_parser.specs.Ahead as ahead;
ghost use Rattle.vx_sql_parser.specs.Values as values;
ghost use Rattle.vx_sql_parser.specs.Matches as matches;
ghost use Rattle.vx_sql_parser.specs.Rules as rules;
ghost use Rattle.vx_sql_parser.specs.RuleViews.{Answers};
ghost use Rattle.vx_sql_parser.specs.Views.{lexemes_of};

use crate::ahead::{closes_at, is_comma_at, is_this_text, is_word_at, text_at, token_at};
use crate::keywords::{is, is_one_of};
use crate::lengths::length_closes;
use crate::lexed::Lexed;
use crate::likes::like;
use crate::reason::Unread;
use crate::step::{Bracket, Change, Step, Stop, says, stepped};
use std::alloc::Global;
use vx_source_types::Token;
use vx_sql::Dialect;

// A closing bracket, but behind a text whose case is ignored and that isn't matched.
pub(crate) fn closing(
    alloc: Global,
    dialect: Dialect,
    top: Option<&Bracket>,
    behind: &[Lexed],
) -> Result<Step, Stop>
    ensures { Answers result (rules.close_rule dialect (option_map (λ b. b.now) top.entry) (lexemes_of behind.now)) }
{
    match top {
        Some(Bracket::Lower) => lower_closes(alloc, dialect, behind),
        Some(Bracket::Translate) => Err(Stop::Unread(Unread::Function)),
        Some(Bracket::Length) => length_closes(alloc, dialect, behind),
        Some(Bracket::Divided) => says(alloc, "))", Change::Closes, 0),
        _ => says(alloc, ")", Change::Closes, 0),
    }
}

// Behind the closing bracket of a `lower(..)`, which in ClickHouse needs no collation.
fn lower_closes(alloc: Global, dialect: Dialect, behind: &[Lexed]) -> Result<Step, Stop>
    ensures { Answers result (matches.lower_closes dialect (lexemes_of behind.now)) }
{
    match dialect {
        Dialect::ClickHouse => folded_like(alloc, dialect, behind, 0),
        Dialect::Postgres | Dialect::Sqlite | Dialect::DuckDb | Dialect::Spark => {
            Err(Stop::Unread(Unread::Function))
        }
    }
}

// A collation, which isn't written where it is the one of bytes. In `lower(.. COLLATE "C")` the bracket closes behind it.
pub(crate) fn collate_rule(
    alloc: Global,
    dialect: Dialect,
    top: Option<&Bracket>,
    behind: &[Lexed],
) -> Result<Step, Stop>
    ensures { Answers result (rules.collate_rule dialect (option_map (λ b. b.now) top.entry) (lexemes_of behind.now)) }
{
    if let Some(Bracket::Lower) = top {
        if is_bytes_order(behind) && closes_at(behind, 1) {
            return folded_like(alloc, dialect, behind, 2);
        }
        return Err(Stop::Unread(Unread::Function));
    }
    if is_bytes_order(behind) {
        says(alloc, "", Change::Stays, 1)
    } else {
        Err(Stop::Unread(Unread::Collation))
    }
}

fn is_bytes_order(behind: &[Lexed]) -> bool
    ensures { result ≡ values.is_bytes_order (ahead.lexeme_at (lexemes_of behind.now) 0) }
{
    match token_at(behind, 0) {
        Some(Token::Quoted(name)) => is(name.as_str(), "C"),
        Some(Token::Word(word)) => is_one_of(word.as_str(), &["binary", "utf8_binary"]),
        _ => false,
    }
}

// The comma of a `translate`, behind which each capital stands and its small letter, and a match.
pub(crate) fn translated(alloc: Global, dialect: Dialect, behind: &[Lexed]) -> Result<Step, Stop>
    ensures { Answers result (matches.translated dialect (lexemes_of behind.now)) }
{
    if are_letters(behind) {
        folded_like(alloc, dialect, behind, 4)
    } else {
        Err(Stop::Unread(Unread::Function))
    }
}

fn are_letters(behind: &[Lexed]) -> bool
    ensures { result ≡ matches.are_letters (lexemes_of behind.now) }
{
    (is_this_text(behind, 0, "ABCDEFGHIJKLMNOPQRSTUVWXYZ") && is_comma_at(behind, 1))
        && (is_this_text(behind, 2, "abcdefghijklmnopqrstuvwxyz") && closes_at(behind, 3))
}

// `[NOT] LIKE` at that place, which is written behind the closing bracket.
fn folded_like(alloc: Global, dialect: Dialect, tokens: &[Lexed], i: usize) -> Result<Step, Stop>
    requires { i < 5 }
    ensures { Answers result (matches.folded_like dialect (lexemes_of tokens.now) i) }
{
    if is_word_at(tokens, i, "not") {
        small_like(alloc, dialect, ") not ", tokens, i + 1)
    } else {
        small_like(alloc, dialect, ") ", tokens, i)
    }
}

// The same behind that text, where the pattern has no capital: it would match nothing.
fn small_like(
    alloc: Global,
    dialect: Dialect,
    before: &str,
    tokens: &[Lexed],
    i: usize,
) -> Result<Step, Stop>
    requires { i < 6 }
    ensures { Answers result (matches.small_like dialect before.now (lexemes_of tokens.now) i) }
{
    if !(is_word_at(tokens, i, "like") && is_small(text_at(tokens, i + 1))) {
        return Err(Stop::Unread(Unread::Function));
    }
    let Step { text, more, .. } = like(alloc, dialect, true, tokens, i + 1)?;
    let text = format!(in alloc; "{before}{text}")?;
    Ok(stepped(text, Change::Closes, more))
}

// Whether the text has no capital of ASCII, if it is one.
fn is_small(text: Option<&str>) -> bool
    ensures { result ≡ matches.is_small (option_map (λ s. s.now) text.entry) }
{
    match text {
        Some(text) => are_small(text.as_bytes()),
        None => true,
    }
}

fn are_small(bytes: &[u8]) -> bool
    ensures { result ≡ list_all (λ c. not (is_ascii_uppercase c)) bytes.now }
{
    for b in bytes {
        if b.is_ascii_uppercase() {
            return false;
        }
    }
    true
}

// Lengths of texts in bytes, as engines say them.
ghost use Rattle.std.specs.Prelude.{◌≡◌};
ghost use Rattle.vx_sql_parser.specs.Lengths as lengths;
ghost use Rattle.vx_sql_parser.specs.RuleViews.{Answers};
ghost use Rattle.vx_sql_parser.specs.Views.{lexemes_of};

use crate::ahead::{closes_at, is_word_at, opens_at};
use crate::keywords::is;
use crate::lexed::Lexed;
use crate::reason::Unread;
use crate::step::{Bracket, Change, Step, Stop, says};
use std::alloc::Global;
use vx_sql::Dialect;

// Whether the bytes of what stands behind are counted, as a number of 64 bits, by that function, whose bracket is the first
// token, and another one in it.
pub(crate) fn counts_bytes(dialect: Dialect, word: &str, tokens: &[Lexed]) -> bool
    ensures { result ≡ lengths.counts_bytes dialect word.now (lexemes_of tokens.now) }
{
    match dialect {
        Dialect::Postgres | Dialect::Spark => calls_inside("cast", "octet_length", word, tokens),
        Dialect::Sqlite => calls_inside("length", "cast", word, tokens),
        Dialect::ClickHouse => calls_inside("toint64", "length", word, tokens),
        Dialect::DuckDb => false,
    }
}

// Whether the word is the outer of two functions, and the inner one follows its bracket.
fn calls_inside(outer: &str, inner: &str, word: &str, tokens: &[Lexed]) -> bool
    ensures { result ≡ lengths.calls_inside outer.now inner.now word.now (lexemes_of tokens.now) }
{
    is(word, outer) && (is_word_at(tokens, 1, inner) && opens_at(tokens, 2))
}

pub(crate) fn length_begins(alloc: Global) -> Result<Step, Stop>
    ensures { Answers result lengths.length_begins }
{
    says(alloc, "byte_length(", Change::Opens(Bracket::Length), 3)
}

// The closing bracket of the inner function.
pub(crate) fn length_closes(alloc: Global, dialect: Dialect, behind: &[Lexed]) -> Result<Step, Stop>
    ensures { Answers result (lengths.length_closes dialect (lexemes_of behind.now)) }
{
    match dialect {
        Dialect::Postgres | Dialect::Spark => length_ends(alloc, makes_long(behind), 3),
        Dialect::ClickHouse => length_ends(alloc, closes_at(behind, 0), 1),
        Dialect::Sqlite | Dialect::DuckDb => Err(Stop::Unread(Unread::Function)),
    }
}

// `as` inside a length, which is SQLite's.
pub(crate) fn length_as(alloc: Global, dialect: Dialect, behind: &[Lexed]) -> Result<Step, Stop>
    ensures { Answers result (lengths.length_as dialect (lexemes_of behind.now)) }
{
    match dialect {
        Dialect::Sqlite => length_ends(alloc, makes_bytes(behind), 3),
        Dialect::Postgres | Dialect::DuckDb | Dialect::Spark | Dialect::ClickHouse => {
            Err(Stop::Unread(Unread::Function))
        }
    }
}

// The inner bracket closes, and the outer one so many tokens behind it.
fn length_ends(alloc: Global, ends: bool, more: usize) -> Result<Step, Stop>
    ensures { Answers result (lengths.length_ends ends more) }
{
    if ends {
        says(alloc, ")", Change::Closes, more)
    } else {
        Err(Stop::Unread(Unread::Function))
    }
}

// Whether `AS bigint)` stands at the front, behind which a length has 64 bits.
fn makes_long(behind: &[Lexed]) -> bool
    ensures { result ≡ lengths.makes_long (lexemes_of behind.now) }
{
    is_word_at(behind, 0, "as") && (is_word_at(behind, 1, "bigint") && closes_at(behind, 2))
}

// Whether `BLOB))` stands at the front, by which SQLite's length is one of bytes.
fn makes_bytes(behind: &[Lexed]) -> bool
    ensures { result ≡ lengths.makes_bytes (lexemes_of behind.now) }
{
    is_word_at(behind, 0, "blob") && (closes_at(behind, 1) && closes_at(behind, 2))
}

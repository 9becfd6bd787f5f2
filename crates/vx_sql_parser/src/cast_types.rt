// The types of casts.
ghost use Rattle.std.specs.Prelude.{◌≡◌, ◌<◌, option_map};
ghost use Rattle.std.specs.Fmt.{WritesOnOk};
ghost use Rattle.vx_dtype.specs.Texts.{atomic_text, zone_text};
ghost use Rattle.vx_dtype.specs.Types.{timestamp};
ghost use Rattle.vx_source_types.specs.Views.{lexeme_of};
ghost use Rattle.vx_sql.specs.declared.dialect.Dialect.TheVariants.{DuckDb};
ghost use Rattle.vx_sql_parser.specs.Ahead as ahead;
ghost use Rattle.vx_sql_parser.specs.CastTypes as types;
ghost use Rattle.vx_sql_parser.specs.Views.{cast_type_of, lexemes_of};

use crate::ahead::{closes_at, is_comma_at, is_word_at, opens_at, token_at, word_at};
use crate::keywords::{is, is_one_of};
use crate::lexed::Lexed;
use crate::types::type_named;
use std::fmt;
use std::fmt::{Display, Formatter, Write};
use vx_dtype::{TimeUnit, write_quoted};
use vx_source_types::Token;
use vx_sql::{Dialect, has_decimals};

/// The type of a cast, which is displayed as source text has it.
#[derive(Clone, Copy)]
pub(crate) enum CastType {
    /// One that a word says.
    Named(&'static str),
    /// Floating-point numbers of 64 bits, which two words say.
    DoublePrecision,
    /// Decimals of so many digits, so many of them behind the point.
    Decimals(u64, u64),
    /// Instants.
    Instants {
        /// What they are counted in.
        unit: TimeUnit,
        /// Whether they have a zone, which is UTC.
        zoned: bool,
        /// Whether a bracket behind the word says the unit.
        sized: bool,
    },
}

impl Display for CastType {
    ghost use Rattle.std.specs.Prelude.{Some};
    ghost use Rattle.vx_sql_parser.specs.CastTypes.{type_source};
    ghost use Rattle.vx_sql_parser.specs.Views.{cast_type_of};

    ghost output = { λ t. Some (type_source (cast_type_of t)) };

    fn fmt<W: Write>(&self, f: &mut Formatter<W>) -> fmt::Result {
        match self {
            CastType::Named(name) => f.write_str(name),
            CastType::DoublePrecision => f.write_str("f64"),
            CastType::Decimals(precision, scale) => write!(f, "decimal({precision}, {scale})"),
            CastType::Instants { unit, zoned, .. } => write_instants(*unit, *zoned, f),
        }
    }
}

// Writes the type of instants in that unit, in UTC or without a zone.
fn write_instants<W: Write>(unit: TimeUnit, zoned: bool, f: &mut Formatter<W>) -> fmt::Result
    ensures { WritesOnOk W.write_str_gives f.old result (atomic_text (timestamp unit (types.zone zoned))) f.new }
{
    f.write_str("timestamp(")?;
    f.write_str(unit.as_str())?;
    write_zone(zoned, f)?;
    f.write_str(")")
}

fn write_zone<W: Write>(zoned: bool, f: &mut Formatter<W>) -> fmt::Result
    ensures { WritesOnOk W.write_str_gives f.old result (zone_text (types.zone zoned)) f.new }
{
    if zoned {
        f.write_str(", ")?;
        write_quoted("UTC", '"', f)
    } else {
        Ok(())
    }
}

impl CastType {
    ghost use Rattle.std.specs.Prelude.{◌≤◌};
    ghost use Rattle.vx_sql_parser.specs.CastTypes as types;
    ghost use Rattle.vx_sql_parser.specs.Values as values;
    ghost use Rattle.vx_sql_parser.specs.Views.{cast_type_of};

    // How many tokens say it.
    pub(crate) fn len(self) -> usize
        ensures len { result ≡ types.type_len (cast_type_of self) }
        ensures few { result ≤ 6 }
    {
        match self {
            CastType::Named(_) => 1,
            CastType::DoublePrecision => 2,
            CastType::Decimals(..) => 6,
            CastType::Instants { sized, .. } => { if sized { 4 } else { 1 } }
        }
    }

    // Whether it is that of a name.
    pub(crate) fn is_called(self, name: &str) -> bool
        ensures { result ≡ values.is_called name.now (cast_type_of self) }
    {
        match self {
            CastType::Named(own) => is(own, name),
            CastType::DoublePrecision | CastType::Decimals(..) | CastType::Instants { .. } => false,
        }
    }
}

// The type that begins at that place.
pub(crate) fn type_at(dialect: Dialect, tokens: &[Lexed], i: usize) -> Option<CastType>
    requires { i < 16 }
    ensures { option_map cast_type_of result ≡ types.type_at dialect (lexemes_of tokens.now) i }
{
    if is_decimal(dialect, word_at(tokens, i)) && opens_at(tokens, i + 1) {
        decimals_at(tokens, i + 1)
    } else if is_double_precision(dialect, tokens, i) {
        Some(CastType::DoublePrecision)
    } else if is_sized(dialect, tokens, i) {
        instants_at(tokens, i)
    } else {
        word_type(dialect, word_at(tokens, i))
    }
}

// Whether the two words for floating-point numbers of 64 bits stand there, in an engine that has them.
fn is_double_precision(dialect: Dialect, tokens: &[Lexed], i: usize) -> bool
    requires { i < 16 }
    ensures { result ≡ types.is_double_precision dialect (lexemes_of tokens.now) i }
{
    match dialect {
        Dialect::Postgres | Dialect::Sqlite | Dialect::DuckDb => {
            is_word_at(tokens, i, "double") && is_word_at(tokens, i + 1, "precision")
        }
        Dialect::Spark | Dialect::ClickHouse => false,
    }
}

// The type that the word is.
fn word_type(dialect: Dialect, word: Option<&str>) -> Option<CastType>
    ensures { option_map cast_type_of result ≡ types.word_type dialect (option_map (λ w. w.now) word.entry) }
{
    let word = word?;
    if let Some(instants) = instants_named(dialect, word) {
        return Some(instants);
    }
    match type_named(dialect, word) {
        Some(name) => Some(CastType::Named(name)),
        None => None,
    }
}

// The instants that a word says.
pub(crate) fn instants_named(dialect: Dialect, word: &str) -> Option<CastType>
    ensures { option_map cast_type_of result ≡ types.instants_named dialect word.now }
{
    if has_zone(dialect, word) {
        return Some(CastType::Instants {
            unit: TimeUnit::Microseconds,
            zoned: true,
            sized: false,
        });
    }
    match clock_unit(dialect, word) {
        Some(unit) => Some(CastType::Instants {
            unit,
            zoned: false,
            sized: false,
        }),
        None => None,
    }
}

// Whether the word is the engine's for instants with a zone, which are in microseconds.
fn has_zone(dialect: Dialect, word: &str) -> bool
    ensures { result ≡ types.has_zone dialect word.now }
{
    match dialect {
        Dialect::Postgres | Dialect::DuckDb => is(word, "timestamptz"),
        Dialect::Spark => is(word, "timestamp_ltz"),
        Dialect::Sqlite | Dialect::ClickHouse => false,
    }
}

// The unit that the engine's word for instants without a zone says.
fn clock_unit(dialect: Dialect, word: &str) -> Option<TimeUnit>
    ensures { result ≡ types.clock_unit dialect word.now }
{
    match dialect {
        Dialect::Postgres if is(word, "timestamp") => Some(TimeUnit::Microseconds),
        Dialect::Spark if is_one_of(word, &["timestamp", "timestamp_ntz"]) => {
            Some(TimeUnit::Microseconds)
        }
        Dialect::DuckDb => duckdb_unit(word),
        _ => None,
    }
}

fn duckdb_unit(word: &str) -> Option<TimeUnit>
    ensures { result ≡ types.clock_unit DuckDb word.now }
{
    if is(word, "timestamp") {
        Some(TimeUnit::Microseconds)
    } else if is(word, "timestamp_s") {
        Some(TimeUnit::Seconds)
    } else if is(word, "timestamp_ms") {
        Some(TimeUnit::Milliseconds)
    } else if is(word, "timestamp_ns") {
        Some(TimeUnit::Nanoseconds)
    } else {
        None
    }
}

// Whether a word for PostgreSQL's instants stands there before a bracket.
fn is_sized(dialect: Dialect, tokens: &[Lexed], i: usize) -> bool
    requires { i < 16 }
    ensures { result ≡ types.is_sized dialect (lexemes_of tokens.now) i }
{
    match dialect {
        Dialect::Postgres => {
            (is_word_at(tokens, i, "timestamp") || is_word_at(tokens, i, "timestamptz"))
                && opens_at(tokens, i + 1)
        }
        Dialect::Sqlite | Dialect::DuckDb | Dialect::Spark | Dialect::ClickHouse => false,
    }
}

// Instants of as many digits as stand in the bracket behind the word at that place.
fn instants_at(tokens: &[Lexed], i: usize) -> Option<CastType>
    requires { i < 16 }
    ensures { option_map cast_type_of result ≡ types.instants_at (lexemes_of tokens.now) i }
{
    if !closes_at(tokens, i + 3) {
        return None;
    }
    match unit_in(count_in(token_at(tokens, i + 2))) {
        Some(unit) => Some(CastType::Instants {
            unit,
            zoned: is_word_at(tokens, i, "timestamptz"),
            sized: true,
        }),
        None => None,
    }
}

// The unit of so many digits behind the point of a second.
fn unit_in(digits: Option<u64>) -> Option<TimeUnit>
    ensures { result ≡ types.unit_in digits }
{
    let digits = digits?;
    if digits == 0 {
        Some(TimeUnit::Seconds)
    } else if digits == 3 {
        Some(TimeUnit::Milliseconds)
    } else if digits == 6 {
        Some(TimeUnit::Microseconds)
    } else {
        None
    }
}

// Whether the word is one for decimals, in an engine that has them.
fn is_decimal(dialect: Dialect, word: Option<&str>) -> bool
    ensures { result ≡ types.is_decimal dialect (option_map (λ w. w.now) word.entry) }
{
    match word {
        Some(word) => has_decimals(dialect) && is_one_of(word, &["numeric", "decimal"]),
        None => false,
    }
}

// Decimals whose two numbers stand in the bracket at that place.
fn decimals_at(tokens: &[Lexed], i: usize) -> Option<CastType>
    requires { i < 17 }
    ensures { option_map cast_type_of result ≡ types.decimals_at (lexemes_of tokens.now) i }
{
    if !(is_comma_at(tokens, i + 2) && closes_at(tokens, i + 4)) {
        return None;
    }
    match (
        count_in(token_at(tokens, i + 1)),
        count_in(token_at(tokens, i + 3)),
    ) {
        (Some(precision), Some(scale)) => Some(CastType::Decimals(precision, scale)),
        _ => None,
    }
}

// A number of digits, which has no sign.
fn count_in(token: Option<&Token>) -> Option<u64>
    ensures { result ≡ types.count_in (option_map (λ t. lexeme_of t.now) token.entry) }
{
    match token {
        Some(
            Token::Number {
                negative: false,
                magnitude: Some(n),
                ..
            },
        ) => Some(*n),
        _ => None,
    }
}

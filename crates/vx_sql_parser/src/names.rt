// Names, numbers and bytes.
ghost use Rattle.std.specs.Prelude.{◌≡◌, option_map};
ghost use Rattle.vx_source_types.specs.Characters.{is_word};
ghost use Rattle.vx_sql_parser.specs.Values as values;
ghost use Rattle.vx_sql_parser.specs.RuleViews.{Answers};
ghost use Rattle.vx_sql_parser.specs.Views.{cast_type_of, lexemes_of};
ghost use Rattle.std.specs.List.{list_all};

use crate::ahead::{is_dot_at, text_at};
use crate::cast_types::{CastType, instants_named};
use crate::casts::text_of;
use crate::keywords::is;
use crate::lexed::Lexed;
use crate::quotes::QuotedName;
use crate::reason::Unread;
use crate::step::{Change, Step, Stop, says, stepped};
use std::alloc::Global;
use vx_sql::{Dialect, has_days, has_decimals};

// A name, behind which no other stands.
pub(crate) fn name_rule(alloc: Global, name: &str, behind: &[Lexed]) -> Result<Step, Stop>
    ensures { Answers result (values.name_rule name.now (lexemes_of behind.now)) }
{
    if is_dot_at(behind, 0) {
        return Err(Stop::Unread(Unread::Table));
    }
    let name = QuotedName(name);
    Ok(stepped(format!(in alloc; "{name}")?, Change::Stays, 0))
}

// A number, with no point behind it.
pub(crate) fn number_rule(
    alloc: Global,
    negative: bool,
    n: u64,
    behind: &[Lexed],
) -> Result<Step, Stop>
    ensures { Answers result (values.number_rule negative n (lexemes_of behind.now)) }
{
    if is_dot_at(behind, 0) {
        return Err(Stop::Unread(Unread::Number));
    }
    let sign = sign_of(negative);
    Ok(stepped(format!(in alloc; "{sign}{n}")?, Change::Stays, 0))
}

// A number with a point or an exponent, and no other point behind it. Without decimals the engine has no such
// number but one of 64 bits.
pub(crate) fn point_rule(
    alloc: Global,
    dialect: Dialect,
    digits: &str,
    behind: &[Lexed],
) -> Result<Step, Stop>
    ensures { Answers result (values.point_rule dialect digits.now (lexemes_of behind.now)) }
{
    if is_dot_at(behind, 0) {
        return Err(Stop::Unread(Unread::Number));
    }
    if has_decimals(dialect) {
        return says(alloc, digits, Change::Stays, 0);
    }
    Ok(stepped(format!(in alloc; "{digits}::f64")?, Change::Stays, 0))
}

pub(crate) fn sign_of(negative: bool) -> &'static str
    ensures { result.now ≡ values.sign_source negative }
{
    if negative { "-" } else { "" }
}

// A word before a text: an `X` says that bytes are spelled by it, `date` that it is a day, and `timestamp` an instant.
pub(crate) fn typed_text(
    alloc: Global,
    dialect: Dialect,
    word: &str,
    behind: &[Lexed],
) -> Result<Step, Stop>
    ensures { Answers result (values.typed_text dialect word.now (lexemes_of behind.now)) }
{
    if has_octets(dialect) && is(word, "x") {
        octets_said(alloc, 1, text_at(behind, 0))
    } else if has_days(dialect) && is(word, "date") {
        text_said(alloc, Some(CastType::Named("date")), text_at(behind, 0))
    } else {
        text_said(alloc, instants_named(dialect, word), text_at(behind, 0))
    }
}

// The text as one of that type, if there are both.
fn text_said(alloc: Global, dtype: Option<CastType>, text: Option<&str>) -> Result<Step, Stop>
    ensures { Answers result (values.text_said (option_map cast_type_of dtype) (option_map (λ t. t.now) text.entry)) }
{
    match (dtype, text) {
        (Some(dtype), Some(text)) => Ok(stepped(text_of(alloc, text, dtype)?, Change::Stays, 1)),
        _ => Err(Stop::Unread(Unread::TypedText)),
    }
}

fn has_octets(dialect: Dialect) -> bool
    ensures { result ≡ values.has_octets dialect }
{
    matches!(dialect, Dialect::Sqlite | Dialect::Spark)
}

// Bytes by the digits that stand for them, which take so many tokens.
pub(crate) fn octets_said(alloc: Global, more: usize, digits: Option<&str>) -> Result<Step, Stop>
    ensures { Answers result (values.octets_said more (option_map (λ d. d.now) digits.entry)) }
{
    match digits {
        Some(digits) if are_words(digits.as_bytes()) => {
            Ok(stepped(format!(in alloc; "0x{digits}")?, Change::Stays, more))
        }
        _ => Err(Stop::Unread(Unread::Hexadecimal)),
    }
}

// Whether all of the bytes are letters, digits or underscores.
fn are_words(bytes: &[u8]) -> bool
    ensures { result ≡ list_all is_word bytes.now }
{
    for b in bytes {
        if !is_word(*b) {
            return false;
        }
    }
    true
}

pub(crate) fn is_word(b: u8) -> bool
    ensures { result ≡ is_word b }
{
    ((b >= b'a' && b <= b'z') || ((b >= b'A' && b <= b'Z') || b == b'_'))
        || (b >= b'0' && b <= b'9')
}

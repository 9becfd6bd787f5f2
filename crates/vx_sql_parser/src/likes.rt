// LIKE, ILIKE and GLOB.
ghost use Rattle.std.specs.Prelude.{◌≡◌, ◌<◌, ◌≤◌, Some, option_map, string_bytes};
ghost use Rattle.std.specs.Char.{is_ascii};
ghost use Rattle.std.specs.List.{list_all};
ghost use Rattle.vx_sql_parser.specs.Patterns.{pattern_source};
ghost use Rattle.vx_sql_parser.specs.Matches as matches;
ghost use Rattle.vx_sql_parser.specs.RuleViews.{Answers};
ghost use Rattle.vx_sql_parser.specs.Views.{lexemes_of};

use crate::ahead::{is_text_at, is_word_at, text_at};
use crate::casts::literal_cast;
use crate::globs::glob_source;
use crate::lexed::Lexed;
use crate::patterns::{default_escape, ignores_case, is_escape, pattern_source};
use crate::quotes::QuotedText;
use crate::reason::Unread;
use crate::step::{Change, Step, Stop, stepped};
use std::alloc::Global;
use vx_sql::Dialect;

// A match, with the case of letters ignored or not, of the pattern at that place.
pub(crate) fn like(
    alloc: Global,
    dialect: Dialect,
    ignores: bool,
    tokens: &[Lexed],
    i: usize,
) -> Result<Step, Stop>
    requires { i < 7 }
    ensures { Answers result (matches.like_rule dialect ignores (lexemes_of tokens.now) i) }
{
    let Some(pattern) = text_at(tokens, i) else {
        return null_pattern(alloc, dialect, ignores, tokens, i);
    };
    if !is_word_at(tokens, i + 1, "escape") {
        return matched(alloc, ignores, default_escape(dialect), pattern, i + 1);
    }
    match escape_in(text_at(tokens, i + 2)) {
        Some(escape) => matched(alloc, ignores, Some(escape), pattern, i + 3),
        None => Err(Stop::Unread(Unread::Escape)),
    }
}

// A match of a pattern at that place that is null, whatever the escape.
fn null_pattern(
    alloc: Global,
    dialect: Dialect,
    ignores: bool,
    tokens: &[Lexed],
    at: usize,
) -> Result<Step, Stop>
    requires { at < 7 }
    ensures { Answers result (matches.null_pattern dialect ignores (lexemes_of tokens.now) at) }
{
    if !(is_word_at(tokens, at, "cast") && is_word_at(tokens, at + 2, "null")) {
        return Err(Stop::Unread(Unread::Pattern));
    }
    match literal_cast(alloc, dialect, tokens, at + 1)? {
        Some((null, len)) => {
            let word = like_word(ignores);
            let text = format!(in alloc; "{word}{null}")?;
            let behind = at + 1 + len;
            let more = behind + escape_len(tokens, behind);
            Ok(stepped(text, Change::Stays, more))
        }
        None => Err(Stop::Unread(Unread::Pattern)),
    }
}

// How many tokens say an escape.
fn escape_len(tokens: &[Lexed], i: usize) -> usize
    requires { i < 18 }
    ensures len { result ≡ matches.escape_len (lexemes_of tokens.now) i }
    ensures few { result ≤ 2 }
{
    if is_word_at(tokens, i, "escape") && is_text_at(tokens, i + 1) {
        2
    } else {
        0
    }
}

// The same with the case ignored, where only that of ASCII letters is in question.
pub(crate) fn ilike(alloc: Global, dialect: Dialect, tokens: &[Lexed]) -> Result<Step, Stop>
    ensures { Answers result (matches.ilike_rule dialect (lexemes_of tokens.now)) }
{
    if ignores_case(dialect) {
        return Err(Stop::Unread(Unread::Word));
    }
    if !is_ascii_text(text_at(tokens, 0)) {
        return Err(Stop::Unread(Unread::Case));
    }
    like(alloc, dialect, true, tokens, 0)
}

// A match of a pattern of SQLite's GLOB.
pub(crate) fn glob(alloc: Global, dialect: Dialect, tokens: &[Lexed]) -> Result<Step, Stop>
    ensures { Answers result (matches.glob_rule dialect (lexemes_of tokens.now)) }
{
    let Dialect::Sqlite = dialect else {
        return Err(Stop::Unread(Unread::Word));
    };
    let Some(pattern) = text_at(tokens, 0) else {
        return null_pattern(alloc, dialect, false, tokens, 0);
    };
    if let Some(made) = glob_source(alloc, false, pattern)? {
        return likes(alloc, false, made.as_str(), 1);
    }
    match glob_source(alloc, true, pattern)? {
        Some(made) => likes(alloc, true, made.as_str(), 1),
        None => Err(Stop::Unread(Unread::Glob)),
    }
}

// Whether the text, if it is one, has characters of ASCII alone.
fn is_ascii_text(text: Option<&str>) -> bool
    ensures { result ≡ matches.is_ascii_text (option_map (λ s. s.now) text.entry) }
{
    match text {
        Some(text) => are_ascii(text.as_bytes()),
        None => true,
    }
}

fn are_ascii(bytes: &[u8]) -> bool
    ensures { result ≡ list_all is_ascii bytes.now }
{
    for b in bytes {
        if !b.is_ascii() {
            return false;
        }
    }
    true
}

// The escape that the text is.
fn escape_in(text: Option<&str>) -> Option<u8>
    ensures { result ≡ matches.escape_in (option_map (λ s. s.now) text.entry) }
{
    match text {
        Some(text) => match text.as_bytes() {
            [c] if is_escape(*c) => Some(*c),
            _ => None,
        },
        None => None,
    }
}

// The pattern, which takes so many tokens, where that character, if any, makes the one behind it stand for itself.
fn matched(
    alloc: Global,
    ignores: bool,
    escape: Option<u8>,
    pattern: &str,
    more: usize,
) -> Result<Step, Stop>
    ensures { Answers result (matches.pattern_said ignores escape pattern.now more) }
{
    match pattern_source(alloc, escape, pattern)? {
        Some(made) => likes(alloc, ignores, made.as_str(), more),
        None => Err(Stop::Unread(Unread::Escape)),
    }
}

// A match of that pattern of source text.
fn likes(alloc: Global, ignores: bool, pattern: &str, more: usize) -> Result<Step, Stop>
    ensures { Answers result (matches.like_said ignores more (Some pattern.now)) }
{
    let (word, pattern) = (like_word(ignores), QuotedText(pattern));
    let text = format!(in alloc; "{word}{pattern}")?;
    Ok(stepped(text, Change::Stays, more))
}

fn like_word(ignores: bool) -> &'static str
    ensures { result.now ≡ matches.like_word ignores }
{
    if ignores { "ilike " } else { "like " }
}

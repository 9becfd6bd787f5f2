// The patterns of LIKE.
ghost use Rattle.std.specs.Prelude.{◌≡◌, ◌&&◌, ◌∷◌, [], encode_utf8_all};
ghost use Rattle.std.specs.Char.{is_ascii_lowercase};
ghost use Rattle.std.specs.Fmt.{WritesOnOk};
ghost use Rattle.std.specs.List.{flat_map};
ghost use Rattle.vx_eval_like.specs.Patterns.{part_view, spelled_by};
ghost use Rattle.vx_sql.specs.Quotes.{inside};
ghost use Rattle.vx_sql.specs.Patterns.{has_globs, like_escape, is_like_sign, is_glob_sign, enclosed, enclosed_pair, like_char, like_part, glob_char, glob_part, part_spelled, parts_spelled, pattern_sql, beginning_parts, beginning_sql};

use crate::Dialect;
use crate::quotes::Quoting;
use std::fmt;
use std::fmt::{Formatter, Write};
use vx_eval_like::{Part, first_part, split_first};

/// Whether the engine's patterns are those of GLOB. SQLite's LIKE ignores the case of letters or not,
/// by a setting.
pub(crate) fn has_globs(dialect: Dialect) -> bool
    ensures { result ≡ has_globs dialect }
{
    match dialect {
        Dialect::Sqlite => true,
        Dialect::Postgres | Dialect::DuckDb | Dialect::Spark | Dialect::ClickHouse => false,
    }
}

/// Writes the pattern as the engine's, between quotes.
pub(crate) fn write_pattern<W: Write>(
    dialect: Dialect,
    pattern: &str,
    ignore_case: bool,
    f: &mut Formatter<W>,
) -> fmt::Result
    ensures { WritesOnOk W.write_str_gives f.old result (pattern_sql dialect ignore_case pattern.now) f.new }
{
    let quoting = Quoting::of(dialect, pattern);
    f.write_str(quoting.opening())?;
    let spelling = Spelling {
        dialect,
        quoting,
        ignore_case,
    };
    spelling.write_parts(pattern, f)?;
    f.write_str("'")
}

/// Writes the pattern of what begins with the text as the engine's, between quotes.
pub(crate) fn write_beginning_pattern<W: Write>(
    dialect: Dialect,
    text: &str,
    f: &mut Formatter<W>,
) -> fmt::Result
    ensures { WritesOnOk W.write_str_gives f.old result (beginning_sql dialect text.now) f.new }
{
    let quoting = Quoting::of(dialect, text);
    f.write_str(quoting.opening())?;
    let spelling = Spelling {
        dialect,
        quoting,
        ignore_case: false,
    };
    spelling.write_beginning(text, f)?;
    f.write_str("'")
}

// How the parts of a pattern are spelled, inside a text.
#[derive(Clone, Copy)]
struct Spelling {
    dialect: Dialect,
    quoting: Quoting,
    ignore_case: bool,
}

impl Spelling {
    // Writes the parts that the pattern spells.
    fn write_parts<W: Write>(self, pattern: &str, f: &mut Formatter<W>) -> fmt::Result
        ensures { WritesOnOk W.write_str_gives f.old result
            (encode_utf8_all (flat_map (inside self.quoting) (parts_spelled self.dialect self.ignore_case (spelled_by self.ignore_case pattern.now)))) f.new }
    {
        let mut rest = pattern;
        while let Some((part, after)) = first_part(rest, self.ignore_case) {
            self.write_part(part, f)?;
            rest = after;
        }
        Ok(())
    }

    // Writes the characters of the text, and any text behind them.
    fn write_beginning<W: Write>(self, text: &str, f: &mut Formatter<W>) -> fmt::Result
        ensures { WritesOnOk W.write_str_gives f.old result
            (encode_utf8_all (flat_map (inside self.quoting) (parts_spelled self.dialect self.ignore_case (beginning_parts text.now)))) f.new }
    {
        let mut rest = text;
        while let Some((c, after)) = split_first(rest, false) {
            self.write_part(Part::Just(c), f)?;
            rest = after;
        }
        self.write_part(Part::AnyText, f)
    }

    fn write_part<W: Write>(self, part: Part, f: &mut Formatter<W>) -> fmt::Result
        ensures { WritesOnOk W.write_str_gives f.old result
            (encode_utf8_all (flat_map (inside self.quoting) (part_spelled self.dialect self.ignore_case (part_view part)))) f.new }
    {
        if has_globs(self.dialect) {
            self.write_glob(part, f)
        } else {
            self.write_like(part, f)
        }
    }

    fn write_like<W: Write>(self, part: Part, f: &mut Formatter<W>) -> fmt::Result
        ensures { WritesOnOk W.write_str_gives f.old result (encode_utf8_all (flat_map (inside self.quoting) (like_part (like_escape self.dialect) (part_view part)))) f.new }
    {
        match part {
            Part::AnyText => f.write_str("%"),
            Part::AnyOne => f.write_str("_"),
            Part::Just(c) => self.write_like_char(c, f),
        }
    }

    // A character that would stand for others is written behind the sign that makes it stand for itself.
    fn write_like_char<W: Write>(self, c: char, f: &mut Formatter<W>) -> fmt::Result
        ensures { WritesOnOk W.write_str_gives f.old result (encode_utf8_all (flat_map (inside self.quoting) (like_char (like_escape self.dialect) c))) f.new }
    {
        let escape = like_escape(self.dialect);
        if is_like_sign(escape, c) {
            self.write_pair(escape, c, f)
        } else {
            self.quoting.write_inside(c, f)
        }
    }

    fn write_pair<W: Write>(self, first: char, second: char, f: &mut Formatter<W>) -> fmt::Result
        ensures { WritesOnOk W.write_str_gives f.old result (encode_utf8_all (flat_map (inside self.quoting) (first ∷ second ∷ []))) f.new }
    {
        self.quoting.write_inside(first, f)?;
        self.quoting.write_inside(second, f)
    }

    fn write_glob<W: Write>(self, part: Part, f: &mut Formatter<W>) -> fmt::Result
        ensures { WritesOnOk W.write_str_gives f.old result (encode_utf8_all (flat_map (inside self.quoting) (glob_part self.ignore_case (part_view part)))) f.new }
    {
        match part {
            Part::AnyText => f.write_str("*"),
            Part::AnyOne => f.write_str("?"),
            Part::Just(c) => self.write_glob_char(c, f),
        }
    }

    // A small letter may be a capital, too, where the case is ignored, and a sign is enclosed.
    fn write_glob_char<W: Write>(self, c: char, f: &mut Formatter<W>) -> fmt::Result
        ensures { WritesOnOk W.write_str_gives f.old result (encode_utf8_all (flat_map (inside self.quoting) (glob_char self.ignore_case c))) f.new }
    {
        if has_two_cases(c, self.ignore_case) {
            self.write_enclosed_pair(c, f)
        } else if is_glob_sign(c) {
            self.write_enclosed(c, f)
        } else {
            self.quoting.write_inside(c, f)
        }
    }

    fn write_enclosed<W: Write>(self, c: char, f: &mut Formatter<W>) -> fmt::Result
        ensures { WritesOnOk W.write_str_gives f.old result (encode_utf8_all (flat_map (inside self.quoting) (enclosed c))) f.new }
    {
        f.write_str("[")?;
        self.quoting.write_inside(c, f)?;
        f.write_str("]")
    }

    fn write_enclosed_pair<W: Write>(self, c: char, f: &mut Formatter<W>) -> fmt::Result
        ensures { WritesOnOk W.write_str_gives f.old result (encode_utf8_all (flat_map (inside self.quoting) (enclosed_pair c))) f.new }
    {
        f.write_str("[")?;
        self.quoting.write_inside(c, f)?;
        self.quoting.write_inside(c.to_ascii_uppercase(), f)?;
        f.write_str("]")
    }
}

// Whether a capital stands for the character, too.
fn has_two_cases(c: char, ignore_case: bool) -> bool
    ensures { result ≡ (ignore_case && is_ascii_lowercase c) }
{
    ignore_case && c.is_ascii_lowercase()
}

// Whether the character would stand for others, or make another stand for itself.
fn is_like_sign(escape: char, c: char) -> bool
    ensures { result ≡ is_like_sign escape c }
{
    c == '%' || (c == '_' || c == escape)
}

// What makes the character behind it stand for itself.
fn like_escape(dialect: Dialect) -> char
    ensures { result ≡ like_escape dialect }
{
    match dialect {
        Dialect::Postgres | Dialect::Sqlite | Dialect::DuckDb | Dialect::Spark => '!',
        Dialect::ClickHouse => '\\',
    }
}

// Whether the character would stand for others.
fn is_glob_sign(c: char) -> bool
    ensures { result ≡ is_glob_sign c }
{
    matches!(c, '*' | '?' | '[')
}

// Texts between quotes.
ghost use Rattle.std.specs.Prelude.{◌≡◌, chars, encode_utf8_all};
ghost use Rattle.std.specs.Fmt.{WritesOnOk};
ghost use Rattle.std.specs.List.{flat_map};
ghost use Rattle.vx_sql.specs.Quotes.{quoting_of, quote_inside, backslash_inside, inside, opening, text_sql};

use crate::Dialect;
use std::fmt;
use std::fmt::{Formatter, Write};
use vx_eval_like::split_first;

/// How a text stands between quotes.
#[derive(Clone, Copy)]
pub(crate) enum Quoting {
    /// A quote is doubled, and a backslash is a character like others.
    Doubled,
    /// A quote is doubled, and a backslash as well, behind an `E`.
    Escaped,
    /// A backslash stands before a quote, and before a backslash.
    Backslashed,
}

impl Quoting {
    /// How the engine's texts stand. PostgreSQL's plain texts mean a backslash one way or the other
    /// by a setting, so a text with one is of its other kind.
    pub(crate) fn of(dialect: Dialect, text: &str) -> Quoting
        ensures { result ≡ quoting_of dialect text.now }
    {
        match dialect {
            Dialect::Postgres if text.as_bytes().contains(&b'\\') => Quoting::Escaped,
            Dialect::Postgres | Dialect::Sqlite | Dialect::DuckDb => Quoting::Doubled,
            Dialect::Spark | Dialect::ClickHouse => Quoting::Backslashed,
        }
    }

    /// What begins a text.
    pub(crate) fn opening(self) -> &'static str
        ensures { result.now ≡ opening self }
    {
        match self {
            Quoting::Escaped => "E'",
            Quoting::Doubled | Quoting::Backslashed => "'",
        }
    }

    /// Writes what stands for the character inside a text.
    pub(crate) fn write_inside<W: Write>(self, c: char, f: &mut Formatter<W>) -> fmt::Result
        ensures { WritesOnOk W.write_str_gives f.old result (encode_utf8_all (inside self c)) f.new }
    {
        match c {
            '\'' => f.write_str(self.quote_inside()),
            '\\' => f.write_str(self.backslash_inside()),
            _ => f.write_char(c),
        }
    }

    fn quote_inside(self) -> &'static str
        ensures { result.now ≡ quote_inside self }
    {
        match self {
            Quoting::Doubled | Quoting::Escaped => "''",
            Quoting::Backslashed => "\\'",
        }
    }

    fn backslash_inside(self) -> &'static str
        ensures { result.now ≡ backslash_inside self }
    {
        match self {
            Quoting::Doubled => "\\",
            Quoting::Escaped | Quoting::Backslashed => "\\\\",
        }
    }
}

/// Writes the text between quotes.
pub(crate) fn write_text<W: Write>(
    dialect: Dialect,
    text: &str,
    f: &mut Formatter<W>,
) -> fmt::Result
    ensures { WritesOnOk W.write_str_gives f.old result (text_sql dialect text.now) f.new }
{
    let quoting = Quoting::of(dialect, text);
    f.write_str(quoting.opening())?;
    write_characters(quoting, text, f)?;
    f.write_str("'")
}

// Writes what stands for the text's characters inside a text.
fn write_characters<W: Write>(quoting: Quoting, text: &str, f: &mut Formatter<W>) -> fmt::Result
    ensures { WritesOnOk W.write_str_gives f.old result (encode_utf8_all (flat_map (inside quoting) (chars text.now))) f.new }
{
    let mut rest = text;
    while let Some((c, after)) = split_first(rest, false) {
        quoting.write_inside(c, f)?;
        rest = after;
    }
    Ok(())
}

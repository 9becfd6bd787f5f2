// Texts between quotes.
ghost use Rattle.std.specs.Prelude.{◌<◌};
ghost use Rattle.std.specs.Fmt.{WritesOnOk};
ghost use Rattle.vx_dtype.specs.Quotes.{between_quotes, doubled};

use std::fmt;
use std::fmt::{Formatter, Write};

/// Writes the text between quotes, a quote in it doubled. Asks an ASCII quote.
pub fn write_quoted<W: Write>(text: &str, quote: char, f: &mut Formatter<W>) -> fmt::Result
    requires { quote < 128 }
    ensures { WritesOnOk W.write_str_gives f.old result (between_quotes quote text.now) f.new }
{
    f.write_char(quote)?;
    write_doubled(text, quote, f)?;
    f.write_char(quote)
}

// Writes the text, a quote in it doubled.
fn write_doubled<W: Write>(text: &str, quote: char, f: &mut Formatter<W>) -> fmt::Result
    requires { quote < 128 }
    ensures { WritesOnOk W.write_str_gives f.old result (doubled quote text.now) f.new }
{
    let mut rest = text;
    while let Some((front, back)) = rest.split_once(quote) {
        f.write_str(front)?;
        f.write_char(quote)?;
        f.write_char(quote)?;
        rest = back;
    }
    f.write_str(rest)
}

// Names and texts between the quotes of source text.
use std::fmt;
use std::fmt::{Display, Formatter, Write};
use vx_dtype::write_quoted;

/// A name between backquotes.
#[derive(Clone, Copy)]
pub(crate) struct QuotedName<'a>(pub &'a str);

impl Display for QuotedName<'_> {
    ghost use Rattle.std.specs.Prelude.{Some};
    ghost use Rattle.vx_dtype.specs.Quotes.{between_quotes};

    ghost output = { λ n. Some (between_quotes 96 n.0.now) };

    fn fmt<W: Write>(&self, f: &mut Formatter<W>) -> fmt::Result {
        write_quoted(self.0, '`', f)
    }
}

/// A text between double quotes.
#[derive(Clone, Copy)]
pub(crate) struct QuotedText<'a>(pub &'a str);

impl Display for QuotedText<'_> {
    ghost use Rattle.std.specs.Prelude.{Some};
    ghost use Rattle.vx_dtype.specs.Quotes.{between_quotes};

    ghost output = { λ t. Some (between_quotes 34 t.0.now) };

    fn fmt<W: Write>(&self, f: &mut Formatter<W>) -> fmt::Result {
        write_quoted(self.0, '"', f)
    }
}

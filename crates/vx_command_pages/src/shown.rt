// Texts with their control characters escaped.
use std::fmt;
use std::fmt::{Display, Formatter, Write};

/// What the value is printed as, with each control character escaped, as `\u{1b}` or `\n`, so that none
/// reaches a terminal. Takes no memory.
#[derive(Clone, Copy, Drop)]
pub struct Shown<D>(pub D);

impl<D: Display> Display for Shown<D> {
    fn fmt<W: Write>(&self, f: &mut Formatter<W>) -> fmt::Result {
        let mut out = Formatter::new(Escaping {
            out: f,
            keeps_lines: false,
        });
        self.0.fmt(&mut out)
    }
}

/// The same of what has several lines: their ends stay.
#[derive(Clone, Copy, Drop)]
pub(crate) struct ShownLines<D>(pub(crate) D);

impl<D: Display> Display for ShownLines<D> {
    fn fmt<W: Write>(&self, f: &mut Formatter<W>) -> fmt::Result {
        let mut out = Formatter::new(Escaping {
            out: f,
            keeps_lines: true,
        });
        self.0.fmt(&mut out)
    }
}

// A writer that escapes control characters, the ends of lines perhaps not.
#[derive(Drop)]
struct Escaping<'f, W: Write> {
    out: &'f mut Formatter<W>,
    keeps_lines: bool,
}

impl<W: Write> Write for Escaping<'_, W> {
    fn write_str(&mut self, text: &str) -> fmt::Result {
        for c in text.chars() {
            if c.is_control() && !(self.keeps_lines && c == '\n') {
                write!(self.out, "{}", c.escape_default())?;
            } else {
                self.out.write_char(c)?;
            }
        }
        Ok(())
    }
}

// A message about a place in a text, as it is printed.
use crate::excerpt::Excerpt;
use crate::position::Position;
use crate::remedy::Help;
use crate::shown::Shown;
use std::fmt;
use std::fmt::{Display, Formatter, Write};

/// Bytes of a text: from `start` on, and up to the one before `end`. Where that is none, or both lie
/// behind the text, it is the place at `start`.
#[derive(Clone, Copy, Debug, PartialEq, Eq)]
pub struct Span {
    /// The first byte.
    pub start: usize,
    /// The byte behind the last.
    pub end: usize,
}

/// What is wrong in a text, and where. Prints the message, the place as name, line and column, the
/// line, carets below the span, and what would do:
///
/// ```text
/// error: expected an operand
///  --> expression:1:4
///   |
/// 1 | x <
///   |    ^
///   = help: write a number
/// ```
///
/// A span over several lines is underlined up to the end of its first. Tabs stand below tabs, so that
/// the carets are right at any width of them; below a wide character there are two carets. Of a line of more than 100 characters the 100 around
/// the span are shown. Control characters are escaped in the message and the help, and have a sign in the
/// line. Takes no memory, and time in the length of the text.
#[derive(Clone, Copy, Drop)]
pub struct Report<'a, M: Display> {
    /// What is wrong.
    pub message: M,
    /// What the text is called.
    pub name: &'a str,
    /// The text.
    pub text: &'a str,
    /// Where in the text.
    pub span: Span,
    /// What would do, in a line of its own.
    pub help: Option<Help<'a>>,
}

impl<M: Display> Display for Report<'_, M> {
    fn fmt<W: Write>(&self, f: &mut Formatter<W>) -> fmt::Result {
        let place = Position::of(self.text, self.span.start);
        let excerpt = Excerpt::new(self.text, self.span);
        let gutter = Gutter(place.line);
        f.write_str("error: ")?;
        Shown(&self.message).fmt(f)?;
        write!(
            f,
            "\n{gutter}--> {}:{}:{}\n{gutter} |\n",
            Shown(self.name),
            place.line,
            place.column
        )?;
        write!(f, "{} | ", place.line)?;
        excerpt.write_line(f)?;
        write!(f, "\n{gutter} | ")?;
        excerpt.write_carets(f)?;
        match self.help {
            Some(help) => write!(f, "\n{gutter} = help: {help}"),
            None => Ok(()),
        }
    }
}

// As many spaces as the number has digits.
#[derive(Clone, Copy)]
struct Gutter(usize);

impl Display for Gutter {
    fn fmt<W: Write>(&self, f: &mut Formatter<W>) -> fmt::Result {
        for _ in 0..=self.0.checked_ilog10().unwrap_or(0) {
            f.write_str(" ")?;
        }
        Ok(())
    }
}

// The part of a line that is shown, and what is underlined in it.
use crate::position::{characters, line_start};
use crate::report::Span;
use std::fmt;
use std::fmt::{Formatter, Write};
use unicode_width::UnicodeWidthChar;

// How many characters of a line are shown, and how many of these before what is underlined, where
// the line has more.
const SHOWN: usize = 100;

const SHOWN_BEFORE: usize = 40;

/// The line that a span begins in, cut where it is long.
#[derive(Clone, Copy)]
pub(crate) struct Excerpt<'a> {
    line: &'a str,
    // How many characters of the line are left out in front, and how many are shown.
    skipped: usize,
    shown: usize,
    // How many of these stand before what is underlined, and how many are underlined.
    before: usize,
    underlined: usize,
}

impl<'a> Excerpt<'a> {
    pub(crate) fn new(text: &'a str, span: Span) -> Excerpt<'a> {
        let bytes = text.as_bytes();
        let start = span.start.min(bytes.len());
        let line_start = line_start(&bytes[..start]);
        let line = line_at(text, line_start);
        let before = characters(&bytes[line_start..start]);
        let end = span.end.min(line_start.saturating_add(line.len()));
        let marked = if start < end {
            characters(&bytes[start..end.min(bytes.len())])
        } else {
            1
        };
        let total = line.chars().count();
        let skipped = if total > SHOWN {
            before
                .saturating_sub(SHOWN_BEFORE)
                .min(total.saturating_sub(SHOWN))
        } else {
            0
        };
        let before = before.saturating_sub(skipped);
        Excerpt {
            line,
            skipped,
            shown: total.saturating_sub(skipped).min(SHOWN),
            before,
            underlined: marked.min(SHOWN.saturating_sub(before)).max(1),
        }
    }

    // Writes the line.
    pub(crate) fn write_line<W: Write>(&self, f: &mut Formatter<W>) -> fmt::Result {
        if self.skipped > 0 {
            f.write_str("...")?;
        }
        let mut chars = self.line.chars().skip(self.skipped);
        for c in chars.by_ref().take(self.shown) {
            f.write_char(shown(c))?;
        }
        if chars.next().is_some() {
            f.write_str("...")?;
        }
        Ok(())
    }

    // Writes carets below what is underlined.
    pub(crate) fn write_carets<W: Write>(&self, f: &mut Formatter<W>) -> fmt::Result {
        if self.skipped > 0 {
            f.write_str("   ")?;
        }
        let mut chars = self.line.chars().skip(self.skipped);
        for c in chars.by_ref().take(self.before) {
            if c == '\t' {
                f.write_str("\t")?;
            } else {
                write_times(" ", columns(c), f)?;
            }
        }
        let first = chars.next().map_or(1, columns);
        write_times("^", first.max(1), f)?;
        for c in chars.take(self.underlined.saturating_sub(1)) {
            write_times("^", columns(c), f)?;
        }
        Ok(())
    }
}

// The line that begins at that byte, without what ends it.
fn line_at(text: &str, start: usize) -> &str {
    let rest = match text.split_at_checked(start) {
        Some((_, rest)) => rest,
        None => "",
    };
    match rest.split_once('\n') {
        Some((line, _)) => line.strip_suffix('\r').unwrap_or(line),
        None => rest,
    }
}

// How many columns of a terminal the character takes, as it is shown.
fn columns(c: char) -> usize {
    shown(c).width().unwrap_or(1)
}

fn write_times<W: Write>(text: &str, times: usize, f: &mut Formatter<W>) -> fmt::Result {
    for _ in 0..times {
        f.write_str(text)?;
    }
    Ok(())
}

// The character, or a sign for one that would move the cursor.
fn shown(c: char) -> char {
    if c.is_control() && c != '\t' {
        char::REPLACEMENT_CHARACTER
    } else {
        c
    }
}

// A value's text compared as it is written, so that no memory is taken.
use std::fmt;
use std::fmt::{Display, Write};

/// A text that is awaited, less what was written of it.
#[derive(Drop)]
struct Awaited<'a> {
    rest: &'a str,
}

impl Write for Awaited<'_> {
    fn write_str(&mut self, piece: &str) -> fmt::Result {
        self.rest = self.rest.strip_prefix(piece).ok_or(fmt::Error)?;
        Ok(())
    }
}

/// Whether the value prints as the text.
pub fn reads<T: Display>(value: &T, text: &str) -> bool {
    let mut awaited = Awaited { rest: text };
    write!(awaited, "{value}").is_ok() && awaited.rest.is_empty()
}

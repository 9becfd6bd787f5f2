// Texts taken apart at their marks.
use crate::unread::Unread;
use std::alloc::{AllocError, Global};

/// What stands before the mark that ends the piece, and that mark, if one does.
pub fn parted<'a>(piece: &'a str, marks: &[char]) -> (&'a str, Option<char>) {
    match piece.chars().last() {
        Some(mark) if marks.contains(&mark) => (
            piece.strip_suffix(mark).unwrap_or(piece),
            Some(mark),
        ),
        _ => (piece, None),
    }
}

/// What stands between the brackets of the word, as `2` in `cases(2)`.
pub fn within<'a>(word: &'a str, name: &str) -> Option<&'a str> {
    word.strip_prefix(name)?
        .strip_prefix('(')?
        .strip_suffix(')')
}

/// The text, with the number in the place of each `#`.
pub fn numbered(alloc: Global, text: &str, number: usize) -> Result<String, AllocError> {
    let number = format!(in alloc; "{number}")?;
    text.replace(alloc, '#', number.as_str())
}

/// The number of the word.
pub fn number(word: &str, why: &'static str) -> Result<usize, Unread> {
    match word.parse() {
        Ok(number) => Ok(number),
        Err(_) => Err(Unread::Word(why)),
    }
}

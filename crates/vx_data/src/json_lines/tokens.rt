// The tokens of a record.
ghost use Rattle.std.specs.Prelude.{◌<◌, ◌≤◌, IfOk, IfSome, OnOk, length};

use crate::expected::Expected;
use crate::fault::Fault;
use json::{Reader, Scratch, Token};
use std::alloc::Global;
use std::str;

/// The tokens of the record.
pub(crate) fn reader_of<'a>(
    alloc: Global,
    record: &'a [u8],
    scratch: &'a mut Scratch,
) -> Result<Reader<'a>, Fault> {
    match str::from_utf8(record) {
        Ok(text) => Ok(Reader::new(text, scratch)?),
        Err(_) => Err(Fault::new(alloc, Expected::Utf8)),
    }
}

/// Refuses a record that is no JSON.
pub(crate) fn check_json(alloc: Global, record: &[u8], scratch: &mut Scratch) -> Result<(), Fault> {
    let mut reader = reader_of(alloc, record, scratch)?;
    match reader.skip_value(DEPTH) {
        Ok(()) => end(alloc, &mut reader),
        Err(_) => Err(no_json(alloc, &reader)),
    }
}

/// So many arrays and objects may be inside one another in what is checked or passed over.
pub(crate) const DEPTH: usize = 200;

/// Passes over a value, in which so many arrays and objects may be inside one another.
pub(crate) fn skip(alloc: Global, room: usize, reader: &mut Reader<'_>) -> Result<(), Fault>
    ensures { OnOk result (length reader.new ≤ length reader.old) }
{
    match reader.skip_value(room) {
        Ok(()) => Ok(()),
        Err(_) => Err(no_json(alloc, reader)),
    }
}

/// Refuses what follows a whole value.
pub(crate) fn end(alloc: Global, reader: &mut Reader<'_>) -> Result<(), Fault> {
    let at = reader.offset();
    match reader.next() {
        None => Ok(()),
        Some(_) => Err(Fault::new(alloc, Expected::End { at })),
    }
}

/// The next name of an object, or none at its end.
pub(crate) fn next_name<'a>(
    alloc: Global,
    reader: &mut Reader<'a>,
) -> Result<Option<&'a str>, Fault>
    ensures more { IfOk result (λ name. IfSome name (λ _. length reader.new < length reader.old)) }
    ensures no_longer { length reader.new ≤ length reader.old }
{
    match reader.next() {
        Some(Token::Key(name)) => Ok(Some(name)),
        Some(Token::EndObject) => Ok(None),
        _ => Err(no_json(alloc, reader)),
    }
}

/// The text is no JSON where the reader stands.
pub(crate) fn no_json(alloc: Global, reader: &Reader<'_>) -> Fault {
    let at = reader.offset();
    Fault::new(alloc, Expected::Json { at })
}

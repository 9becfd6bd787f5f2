// One line of a table.
use crate::answers::{Call, answer};
use crate::format::Format;
use crate::unread::Unread;
use std::alloc::{AllocError, Global};
use vx_test_support::{Judge, Judged};

/// Judges calls of a format.
#[derive(Clone, Copy)]
pub struct Calls;

impl Judge for Calls {
    type Unread = Unread;

    /// What the line comes to: a format, a call, its columns and the answer that is wanted, as
    /// `json rows | i32 | 7 | [7i32]`.
    fn judge(&mut self, alloc: Global, line: &str) -> Result<Judged, Unread> {
        let (kind, rest) = line.split_once('|').ok_or("no bar behind the call")?;
        let (format, call) = kind.trim().split_once(' ').ok_or("no format and call")?;
        let format = Format::named(format).ok_or("no such format")?;
        let call = Call::named(call.trim()).ok_or("no such call")?;
        let columns = columns_of(alloc, rest, call.columns())?;
        compare(alloc, format, call, columns.as_slice())
    }
}

// So many columns of a line, and the answer that is wanted behind them, which takes the rest of the line.
fn columns_of(alloc: Global, text: &str, count: usize) -> Result<Vec<&str>, AllocError> {
    let mut columns = Vec::new(alloc);
    for column in text.splitn(count.saturating_add(1), '|') {
        columns.push(column.trim())?;
    }
    Ok(columns)
}

fn compare(
    alloc: Global,
    format: Format<'_>,
    call: Call,
    columns: &[&str],
) -> Result<Judged, Unread> {
    let Some((wanted, columns)) = columns.split_last() else {
        return Err(Unread::Word("no answer"));
    };
    if columns.len() != call.columns() {
        return Err(Unread::Word("another number of columns"));
    }
    let answer = answer(alloc, format, call, columns)?;
    if answer.as_str().as_bytes() == unescaped(alloc, wanted)?.as_slice() {
        return Ok(Judged::Right);
    }
    Ok(Judged::Differs(answer))
}

/// The bytes that a column says: `¶` is the end of a line, `~` and two hexadecimal digits a byte, and each other character
/// is itself.
pub fn unescaped(alloc: Global, column: &str) -> Result<Vec<u8>, Unread> {
    let mut bytes = Vec::new(alloc);
    for (i, line) in column.split('¶').enumerate() {
        if i > 0 {
            bytes.push(b'\n')?;
        }
        push_line(line, &mut bytes)?;
    }
    Ok(bytes)
}

fn push_line(line: &str, bytes: &mut Vec<u8>) -> Result<(), Unread> {
    for (i, piece) in line.split('~').enumerate() {
        let plain = if i == 0 {
            piece
        } else {
            push_byte(piece, bytes)?
        };
        bytes.extend_from_slice(plain.as_bytes())?;
    }
    Ok(())
}

// The byte of the two digits that the piece begins with; gives what is behind them.
fn push_byte<'a>(piece: &'a str, bytes: &mut Vec<u8>) -> Result<&'a str, Unread> {
    let digits = piece.get(..2).unwrap_or("");
    let Ok(byte) = u8::from_str_radix(digits, 16) else {
        return Err(Unread::Word("no two digits behind `~`"));
    };
    bytes.push(byte)?;
    Ok(piece.get(2..).unwrap_or(""))
}

// Texts that stand many times.
use crate::pieces::{number, numbered, parted};
use crate::unread::Unread;
use std::alloc::Global;

/// The text with each `times(7) .. end` as what stands between so many times, a blank between them,
/// with the number of the time, from 0, in the place of each `#`.
pub fn repeated(alloc: Global, text: &str) -> Result<String, Unread> {
    let mut whole = String::new(alloc);
    for (i, part) in text.split("times(").enumerate() {
        if i == 0 {
            whole.push_str(part)?;
        } else {
            push_part(alloc, &mut whole, part)?;
        }
    }
    Ok(whole)
}

// What stands behind `times(`: a number, a text, and what follows its `end`.
fn push_part(alloc: Global, whole: &mut String, part: &str) -> Result<(), Unread> {
    let (times, rest) = part.split_once(") ").ok_or("no number of times")?;
    let (text, rest) = rest.split_once(" end").ok_or("no end")?;
    push_times(alloc, whole, times, text, ' ')?;
    Ok(whole.push_str(rest)?)
}

/// The text of a type with each `7*` and the field behind it as that field so many times.
pub fn repeated_fields(alloc: Global, text: &str) -> Result<String, Unread> {
    const MARKS: [char; 3] = ['{', ',', '}'];
    let mut whole = String::new(alloc);
    for piece in text.split_inclusive(MARKS) {
        let (word, mark) = parted(piece, &MARKS);
        match word.split_once('*') {
            Some((times, field)) => push_times(alloc, &mut whole, times, field, ',')?,
            None => whole.push_str(word)?,
        }
        if let Some(mark) = mark {
            whole.push(mark)?;
        }
    }
    Ok(whole)
}

// The text so many times, with the mark between them.
fn push_times(
    alloc: Global,
    whole: &mut String,
    times: &str,
    text: &str,
    mark: char,
) -> Result<(), Unread> {
    for i in 0..number(times, "no number of times")? {
        if i > 0 {
            whole.push(mark)?;
        }
        whole.push_str(numbered(alloc, text, i)?.as_str())?;
    }
    Ok(())
}

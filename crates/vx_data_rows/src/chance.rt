// Columns by chance, written and read again.
use crate::format::{Again, Format};
use crate::numbers::Numbers;
use crate::types::type_text;
use crate::unread::Unread;
use crate::values::value;
use std::alloc::{AllocError, Global};
use std::fmt::Display;
use vx_dtype::DType;
use vx_source_types::parse_type;
use vx_value::{Column, Value};

// More than a type by chance has inside one another.
const ROOM: usize = 16;

/// What becomes of that many columns by chance, `SEED COUNT`, which are written and read again.
pub fn written_by_chance(alloc: Global, format: Format<'_>, words: &str) -> Result<String, Unread> {
    let (seed, count) = seed_and_count(words)?;
    let mut numbers = Numbers::new(seed);
    let mut refused: u64 = 0;
    for _ in 0..count {
        let column = column(alloc, format, &mut numbers)?;
        match format.write_and_read(alloc, &column) {
            Again::Same => {}
            Again::Refused => refused = refused.saturating_add(1),
            Again::Other => return other_text(alloc, column),
        }
    }
    Ok(String::from_str(alloc, share(refused, count))?)
}

fn other_text<T: Display + Drop>(alloc: Global, rows: T) -> Result<String, Unread> {
    Ok(format!(in alloc; "another than {rows}")?)
}

fn share(refused: u64, count: u64) -> &'static str {
    if refused == 0 {
        "all are the same"
    } else if refused < count / 2 {
        "most are the same, and the others refused"
    } else {
        "most are refused"
    }
}

fn seed_and_count(words: &str) -> Result<(u64, u64), Unread> {
    let (seed, count) = words.split_once(' ').ok_or("no count")?;
    match (seed.parse(), count.parse()) {
        (Ok(seed), Ok(count)) => Ok((seed, count)),
        _ => Err(Unread::Word("no seed and count")),
    }
}

// A column with up to eight rows by chance, of a type by chance that the format can hold.
fn column(alloc: Global, format: Format<'_>, numbers: &mut Numbers) -> Result<Column, Unread> {
    let text = type_text(alloc, format, numbers)?;
    let dtype = parse_type(alloc, text.as_str())?;
    let rows = rows(alloc, &dtype, numbers)?;
    match Column::try_new(dtype, rows) {
        Ok(column) => Ok(column),
        Err(refusal) => {
            drop(refusal);
            Err(Unread::Word("a value by chance is none of its type"))
        }
    }
}

fn rows(alloc: Global, dtype: &DType, numbers: &mut Numbers) -> Result<Vec<Value>, AllocError> {
    let mut rows = Vec::new(alloc);
    for _ in 0..numbers.below(9) {
        rows.push(value(ROOM, alloc, dtype, numbers)?)?;
    }
    Ok(rows)
}

// Types guessed from JSON lines.
use crate::error::DataError;
use crate::guessing::Guessing;
use crate::json_lines::file::JsonFile;
use crate::json_lines::format::JsonFormat;
use crate::json_lines::guess::{Guess, guessed_type};
use crate::json_lines::observe::see_record;
use crate::json_lines::tokens::check_json;
use crate::kinds::Kinds;
use json::Scratch;
use std::alloc::Global;
use std::io::BufRead;
use vx_dtype::DType;

/// The narrowest type of the first 1,000 records, fewer where there are no more: `bool`, `i64`, `u64` where a number is
/// above the range of `i64`, `f64` where a number has a point or an exponent, `date` and `timestamp` of texts as in CSV,
/// `utf8`, a list for an array, a struct for an object with the fields in the order in which they come first. Numbers are
/// `utf8` where no type has them all, and where there were texts, too (`JsonFormat` says how they are read). Nullable is what
/// was null in some record, and a field that some record of its struct doesn't have.
/// What has no type by its values, as it was always null or is the item of a list that was always empty, is `utf8`; so is
/// the whole type where there is no record. Refuses with the line, the path of the field, and what is expected there:
/// the first value of another kind than those before, more than 200 arrays
/// and objects inside one another; with the reader's error; and with `OutOfMemory`. Time is linear in the records.
pub fn infer_json_type<R: BufRead + Drop>(alloc: Global, reader: R) -> Result<DType, DataError> {
    let format = JsonFormat::default();
    infer_json_type_by(alloc, format, Guessing::default(), reader)
}

/// The same of records of that format, guessed so. The fields whose types are said have types that say nothing of them.
pub fn infer_json_type_by<R: BufRead + Drop>(
    alloc: Global,
    format: JsonFormat,
    guessing: Guessing<'_>,
    reader: R,
) -> Result<DType, DataError> {
    let kinds = Kinds::new(alloc, guessing.decimals)?;
    let mut file = JsonFile::new(alloc, reader, format);
    let mut scratch = Scratch::new(alloc);
    let mut guess = Guess::new();
    for _ in 0..guessing.records {
        match seen(alloc, guessing, &kinds, &mut file, &mut scratch, &mut guess) {
            Ok(true) => {}
            Ok(false) => break,
            Err(DataError::Unexpected { .. }) if guessing.skips => {}
            Err(e) => return Err(e),
        }
    }
    match guessed_type(alloc, &kinds, &guess, false) {
        Ok(dtype) => Ok(dtype),
        Err(_) => Err(DataError::OutOfMemory),
    }
}

// Sees the next record, and tells whether there is one. Of one that may be left out nothing is seen unless it is JSON.
fn seen<R: BufRead>(
    alloc: Global,
    guessing: Guessing<'_>,
    kinds: &Kinds,
    file: &mut JsonFile<R>,
    scratch: &mut Scratch,
    guess: &mut Guess,
) -> Result<bool, DataError> {
    if !file.read_record()? {
        return Ok(false);
    }
    if guessing.skips
        && let Err(fault) = check_json(alloc, file.record(), scratch)
    {
        return Err(fault.on_line(alloc, file.line()));
    }
    match see_record(alloc, kinds, file.record(), guessing.said, scratch, guess) {
        Ok(()) => Ok(true),
        Err(fault) => Err(fault.on_line(alloc, file.line())),
    }
}

// Types guessed from CSV files.
ghost use Rattle.std.specs.Prelude.{◌≡◌, length};

use crate::csv_files::branches::{Branch, BranchKind, branches_of};
use crate::csv_files::format::CsvFormat;
use crate::csv_files::guess::CellGuess;
use crate::csv_files::header::{cell_names, fault_at};
use crate::csv_files::plan::{first_repeated, listed};
use crate::csv_files::records::CsvRecords;
use crate::error::DataError;
use crate::expected::Expected;
use crate::fault::Fault;
use crate::guessing::Guessing;
use crate::kinds::Kinds;
use csv::ByteRecord;
use std::alloc::{AllocError, Global};
use std::io::Read;
use std::str;
use vx_dtype::{DType, FieldName, FieldNames, Nullability, StructFields, VortexResult};

/// The narrowest type of the first 1,000 records behind the header, fewer where there are no more: a struct of its names in
/// their order, in which a name with dots leads to a field of a field, if in all such names the dots stand between words of
/// letters, digits and `_`, of which the first doesn't begin with a digit, and no name is both a cell and the way to others;
/// else each is a field of that name. A cell that is always `true` or `false` is `bool`; one that is always a whole number
/// as it is written, `i64`, or `u64` where one is above the range of `i64`; one that is always a number, of which one has a
/// point or an exponent, `f64`; one that is always a day, `date`; one that is always an instant, `timestamp(us, "UTC")`
/// where each has a zone or an offset and `timestamp(us)` where none has, in `ns` where one has more than six digits behind
/// the second's point; any other `utf8`, also one that has no text at all. It is nullable where some record lacks it or has
/// an empty one; no struct is. Refuses a file without a header, a name that stands there twice, a cell that is no text in
/// UTF-8, a record of more cells than the header, each with its line; with the reader's error; and with `OutOfMemory`.
pub fn infer_csv_type<R: Read + Drop>(alloc: Global, reader: R) -> Result<DType, DataError> {
    infer_csv_type_with(alloc, CsvFormat::default(), reader)
}

/// The same of records of that format. A cell of its text for null is as an empty one. Where it has no header the names
/// are the format's, and a file without a record is refused.
pub fn infer_csv_type_with<R: Read + Drop>(
    alloc: Global,
    format: CsvFormat<'_>,
    reader: R,
) -> Result<DType, DataError> {
    infer_csv_type_by(alloc, format, Guessing::default(), reader)
}

/// The same, guessed so. Of the fields whose types are said, the type is guessed all the same.
pub fn infer_csv_type_by<R: Read + Drop>(
    alloc: Global,
    format: CsvFormat<'_>,
    guessing: Guessing<'_>,
    reader: R,
) -> Result<DType, DataError> {
    let kinds = Kinds::new(alloc, guessing.decimals)?;
    let mut records = CsvRecords::with_format(alloc, reader, format);
    records.read_first()?;
    let (branches, mut guesses) = match fields_of(alloc, records.cells(), format, guessing.nested) {
        Ok(fields) => fields,
        Err(fault) => return Err(fault.on_line(alloc, records.line())),
    };
    for _ in 0..guessing.records {
        match seen(alloc, &kinds, &mut records, format.null, &mut guesses) {
            Ok(true) => {}
            Ok(false) => break,
            Err(DataError::Unexpected { .. }) if guessing.skips => {}
            Err(e) => return Err(e),
        }
    }
    match struct_of(&branches, alloc, &kinds, guesses.as_slice()) {
        Ok(dtype) => Ok(dtype),
        Err(_) => Err(DataError::OutOfMemory),
    }
}

// Sees the next record, and tells whether there is one.
fn seen<R: Read + Drop>(
    alloc: Global,
    kinds: &Kinds,
    records: &mut CsvRecords<R>,
    null: Option<&str>,
    guesses: &mut Vec<NamedGuess>,
) -> Result<bool, DataError> {
    if !records.read_record()? {
        return Ok(false);
    }
    match see_record(alloc, kinds, records.cells(), null, guesses) {
        Ok(()) => Ok(true),
        Err(fault) => Err(fault.on_line(alloc, records.line())),
    }
}

/// A cell of a record, by its name in the header, and what its texts have in common.
#[derive(Debug, Drop)]
struct NamedGuess {
    name: FieldName,
    guess: CellGuess,
}

// The fields of a file that begins with that record, and its cells, of which no text was seen.
fn fields_of(
    alloc: Global,
    first: &ByteRecord,
    format: CsvFormat<'_>,
    nested: bool,
) -> Result<(Vec<Branch>, Vec<NamedGuess>), Fault> {
    let names = listed(alloc, cell_names(alloc, first, format.has_header)?)?;
    if let Some(name) = first_repeated(&names) {
        return Err(fault_at(alloc, Expected::Once, name.as_str()));
    }
    let branches = branches_of(alloc, names.as_slice(), nested)?;
    let mut guesses = Vec::with_capacity(alloc, names.len())?;
    for name in names.iter() {
        let guess = CellGuess::new();
        let name = name.clone()?;
        guesses.push(NamedGuess { name, guess })?;
    }
    Ok((branches, guesses))
}

// Sees the record, in which the cells are empty that it lacks at its end, and those of the text for null.
fn see_record(
    alloc: Global,
    kinds: &Kinds,
    record: &ByteRecord,
    null: Option<&str>,
    guesses: &mut Vec<NamedGuess>,
) -> Result<(), Fault> {
    let mut texts = record.iter();
    for cell in guesses.iter_mut() {
        match str::from_utf8(texts.next().unwrap_or(&[])) {
            Ok(text) if null == Some(text) => cell.guess = cell.guess.and(kinds, ""),
            Ok(text) => cell.guess = cell.guess.and(kinds, text),
            Err(_) => return Err(fault_at(alloc, Expected::Utf8, cell.name.as_str())),
        }
    }
    Ok(())
}

// The struct of those fields.
#[cycle(typed)]
fn struct_of(
    branches: &Vec<Branch>,
    alloc: Global,
    kinds: &Kinds,
    guesses: &[NamedGuess],
) -> VortexResult<DType> {
    let mut names = Vec::new(alloc);
    let mut types = Vec::new(alloc);
    for branch in branches {
        types.push(field_type(&branch.kind, alloc, kinds, guesses)?)?;
        names.push(branch.name.clone()?)?;
    }
    struct_type(alloc, names, types)
}

#[cycle(typed)]
fn field_type(
    kind: &BranchKind,
    alloc: Global,
    kinds: &Kinds,
    guesses: &[NamedGuess],
) -> VortexResult<DType> {
    match kind {
        BranchKind::Cell(place) => {
            let guess = guesses
                .get(*place)
                .map_or(CellGuess::new(), |cell| cell.guess);
            Ok(guess.dtype(kinds)?)
        }
        BranchKind::Struct(fields) => struct_of(&fields.all, alloc, kinds, guesses),
    }
}

// The struct of those names, each with the type beside it.
fn struct_type(alloc: Global, names: Vec<FieldName>, types: Vec<DType>) -> VortexResult<DType>
    requires { length names.items ≡ length types.items }
{
    let names = FieldNames::new(alloc, names)?;
    let fields = StructFields::new(alloc, names, types)?;
    Ok(DType::Struct(fields, Nullability::NonNullable))
}

// What calls answer, as texts.
use crate::chance::written_by_chance;
use crate::cut::Cut;
use crate::format::{Again, Format, JSON_LINES};
use crate::line::unescaped;
use crate::records::Records;
use crate::unread::Unread;
use std::alloc::{AllocError, Global};
use std::fmt::Display;
use std::io::Read;
use vx_data::{CsvRecords, CsvWriter, JsonFile, WriteError, write_json_lines};
use vx_dtype::DType;
use vx_source_types::parse_type;
use vx_value::Column;

/// What is called.
#[derive(Clone, Copy)]
pub enum Call {
    /// A call on a file alone.
    Untyped(UntypedCall),
    /// A call on a file by the type of its rows.
    Typed(TypedCall),
    /// `by chance | SEED COUNT`: what becomes of so many columns that are written and read again.
    ByChance,
}

/// A call on a file alone.
#[derive(Clone, Copy)]
pub enum UntypedCall {
    /// `type | FILE`: the type that is guessed, by which the file has to be read.
    Type,
    /// `decimal type | FILE`: the same, where numbers with a point may be decimals.
    DecimalType,
    /// `cut type | FILE`: the type that is guessed of a reader that fails behind the file.
    CutType,
    /// `records | FILE`: each record as it stood, behind its line.
    Records,
}

/// A call on a file by the type of its rows.
#[derive(Clone, Copy)]
pub enum TypedCall {
    /// `rows | TYPE | FILE`: the rows, which have to be the same where they are written and read again.
    Rows,
    /// `cut rows | TYPE | FILE`: the rows of a reader that fails behind the file.
    CutRows,
    /// `written | TYPE | LINES`: the file of the rows that the lines of JSON are.
    Written,
    /// `twice | TYPE | LINES`: the file of these rows, written twice to one writer.
    Twice,
}

impl Call {
    /// The call of that name.
    pub fn named(name: &str) -> Option<Call> {
        match name {
            "rows" => Some(Call::Typed(TypedCall::Rows)),
            "cut rows" => Some(Call::Typed(TypedCall::CutRows)),
            "type" => Some(Call::Untyped(UntypedCall::Type)),
            "decimal type" => Some(Call::Untyped(UntypedCall::DecimalType)),
            "cut type" => Some(Call::Untyped(UntypedCall::CutType)),
            "records" => Some(Call::Untyped(UntypedCall::Records)),
            "written" => Some(Call::Typed(TypedCall::Written)),
            "twice" => Some(Call::Typed(TypedCall::Twice)),
            "by chance" => Some(Call::ByChance),
            _ => None,
        }
    }

    /// How many columns it takes.
    pub fn columns(self) -> usize {
        match self {
            Call::Typed(_) => 2,
            Call::Untyped(_) | Call::ByChance => 1,
        }
    }
}

/// What the call answers to these columns, or what it refuses with.
pub fn answer(
    alloc: Global,
    format: Format<'_>,
    call: Call,
    columns: &[&str],
) -> Result<String, Unread> {
    match (call, columns) {
        (Call::ByChance, [words]) => written_by_chance(alloc, format, words),
        (Call::Untyped(call), [file]) => {
            let file = unescaped(alloc, file)?;
            Ok(untyped_answer(alloc, format, call, file.as_slice())?)
        }
        (Call::Typed(call), [dtype, file]) => {
            let file = unescaped(alloc, file)?;
            let dtype = parse_type(alloc, dtype)?;
            Ok(typed_answer(alloc, format, call, &dtype, file.as_slice())?)
        }
        _ => Err(Unread::Word("another number of columns")),
    }
}

fn untyped_answer(
    alloc: Global,
    format: Format<'_>,
    call: UntypedCall,
    file: &[u8],
) -> Result<String, AllocError> {
    match (call, format) {
        (UntypedCall::Type, _) => guessed(alloc, format, false, file),
        (UntypedCall::DecimalType, _) => guessed(alloc, format, true, file),
        (UntypedCall::CutType, _) => shown(alloc, format.guess(alloc, false, file.chain(Cut))),
        (UntypedCall::Records, Format::Json(format)) => shown(
            alloc,
            Records::Json(JsonFile::new(alloc, file, format)).text(alloc),
        ),
        (UntypedCall::Records, Format::Csv(format)) => shown(
            alloc,
            Records::Csv(CsvRecords::with_format(alloc, file, format)).text(alloc),
        ),
    }
}

fn typed_answer(
    alloc: Global,
    format: Format<'_>,
    call: TypedCall,
    dtype: &DType,
    file: &[u8],
) -> Result<String, AllocError> {
    match call {
        TypedCall::Rows => rows(alloc, format, dtype, file),
        TypedCall::CutRows => shown(alloc, format.read(alloc, dtype, file.chain(Cut))),
        TypedCall::Written => written(alloc, format, dtype, file, false),
        TypedCall::Twice => written(alloc, format, dtype, file, true),
    }
}

// The text of what is given, or of the refusal.
fn shown<T: Display + Drop, E: Display + Drop>(
    alloc: Global,
    answer: Result<T, E>,
) -> Result<String, AllocError> {
    match answer {
        Ok(value) => text_of(alloc, "", value),
        Err(refusal) => text_of(alloc, "", refusal),
    }
}

// The text of what is given, behind those words. (Where a type is known, the prover writes out what is dropped.)
fn text_of<T: Display + Drop>(alloc: Global, before: &str, given: T) -> Result<String, AllocError> {
    format!(in alloc; "{before}{given}")
}

fn rows(
    alloc: Global,
    format: Format<'_>,
    dtype: &DType,
    file: &[u8],
) -> Result<String, AllocError> {
    match format.read(alloc, dtype, file) {
        Ok(column) => {
            let again = format.write_and_read(alloc, &column);
            rows_text(alloc, column, again)
        }
        Err(refusal) => text_of(alloc, "", refusal),
    }
}

// The text of the rows, and whether they become others.
fn rows_text<T: Display + Drop>(
    alloc: Global,
    rows: T,
    again: Again,
) -> Result<String, AllocError> {
    match again {
        Again::Same => format!(in alloc; "{rows}"),
        Again::Refused | Again::Other => format!(in alloc; "{rows}, which becomes another"),
    }
}

fn guessed(
    alloc: Global,
    format: Format<'_>,
    decimals: bool,
    file: &[u8],
) -> Result<String, AllocError> {
    match format.guess(alloc, decimals, file) {
        Ok(dtype) => {
            let rows = format.of_guess().read(alloc, &dtype, file);
            guess_text(alloc, dtype, rows)
        }
        Err(refusal) => text_of(alloc, "", refusal),
    }
}

// The text of the type that is guessed, and of what refuses the rows by it.
fn guess_text<T: Display + Drop, C: Drop, E: Display + Drop>(
    alloc: Global,
    dtype: T,
    rows: Result<C, E>,
) -> Result<String, AllocError> {
    match rows {
        Ok(_) => format!(in alloc; "{dtype}"),
        Err(refusal) => format!(in alloc; "{dtype}, and then {refusal}"),
    }
}

// The file of the rows that the lines of JSON are, with them once or twice.
fn written(
    alloc: Global,
    format: Format<'_>,
    dtype: &DType,
    lines: &[u8],
    twice: bool,
) -> Result<String, AllocError> {
    match JSON_LINES.read(alloc, dtype, lines) {
        Ok(column) => {
            let file = file_of(alloc, format, &column, twice);
            drop(column);
            file_text(alloc, file)
        }
        Err(refusal) => text_of(alloc, "no rows: ", refusal),
    }
}

fn file_of(
    alloc: Global,
    format: Format<'_>,
    column: &Column,
    twice: bool,
) -> Result<Vec<u8>, WriteError> {
    match (twice, format) {
        (false, _) => format.write(alloc, column),
        (true, Format::Json(_)) => json_twice(alloc, column),
        (true, Format::Csv(_)) => csv_twice(alloc, column),
    }
}

fn json_twice(alloc: Global, column: &Column) -> Result<Vec<u8>, WriteError> {
    let mut file = Vec::new(alloc);
    write_json_lines(alloc, column, &mut file)?;
    write_json_lines(alloc, column, &mut file)?;
    Ok(file)
}

fn csv_twice(alloc: Global, column: &Column) -> Result<Vec<u8>, WriteError> {
    let mut file = Vec::new(alloc);
    let mut writer = Box::new(alloc, CsvWriter::new(alloc, column.dtype(), &mut file)?)?;
    writer.write(column)?;
    writer.write(column)?;
    Box::into_inner(writer).finish()?;
    Ok(file)
}

fn file_text(alloc: Global, file: Result<Vec<u8>, WriteError>) -> Result<String, AllocError> {
    match file {
        Ok(file) => match String::from_utf8(file) {
            Ok(text) => Ok(text),
            Err(_) => String::from_str(alloc, "no text"),
        },
        Err(refusal) => text_of(alloc, "", refusal),
    }
}

// The calls, by the format of the file.
use std::alloc::Global;
use std::io::BufRead;
use vx_data::{
    CsvFormat, DataError, Guessing, JsonFormat, WriteError, infer_csv_type_by, infer_csv_type_with,
    infer_json_type, infer_json_type_by, rows_from_csv, rows_from_csv_with, rows_from_json,
    rows_from_json_lines, write_csv, write_json_lines,
};
use vx_dtype::DType;
use vx_value::Column;

/// The format of a file.
#[derive(Clone, Copy)]
pub enum Format<'a> {
    Json(JsonFormat),
    Csv(CsvFormat<'a>),
}

/// Lines of JSON.
pub const JSON_LINES: Format<'static> = Format::Json(JsonFormat {
    any_layout: false,
    number_texts: false,
});

impl<'a> Format<'a> {
    /// The format of that name: `json`, `json:any` or `json:numbers`; or `csv`, and behind it what is other than by
    /// default, as in `csv:no-header:delimiter=tab:comment=#:null=NA`.
    pub fn named(name: &'a str) -> Option<Format<'a>> {
        match cut(name) {
            ("json", "") => Some(JSON_LINES),
            ("json", "any") => Some(Format::Json(JsonFormat {
                any_layout: true,
                number_texts: false,
            })),
            ("json", "numbers") => Some(Format::Json(JsonFormat {
                any_layout: false,
                number_texts: true,
            })),
            ("csv", parts) => Some(Format::Csv(with_parts(parts)?)),
            _ => None,
        }
    }

    /// Whether it can hold lists.
    pub fn holds_lists(self) -> bool {
        match self {
            Format::Json(_) => true,
            Format::Csv(_) => false,
        }
    }

    /// The rows of that type that the file has.
    pub fn read<R: BufRead + Drop>(
        self,
        alloc: Global,
        dtype: &DType,
        file: R,
    ) -> Result<Column, DataError> {
        match self {
            Format::Json(format) if format == JsonFormat::default() => {
                rows_from_json_lines(alloc, dtype, file)
            }
            Format::Json(format) => rows_from_json(alloc, dtype, format, file),
            Format::Csv(format) if format == CsvFormat::default() => {
                rows_from_csv(alloc, dtype, file)
            }
            Format::Csv(format) => rows_from_csv_with(alloc, dtype, format, file),
        }
    }

    /// The type that is guessed of the file, perhaps with decimals.
    pub fn guess<R: BufRead + Drop>(
        self,
        alloc: Global,
        decimals: bool,
        file: R,
    ) -> Result<DType, DataError> {
        let guessing = Guessing {
            decimals,
            ..Guessing::default()
        };
        match self {
            Format::Json(format) if format == JsonFormat::default() && !decimals => {
                infer_json_type(alloc, file)
            }
            Format::Json(format) => infer_json_type_by(alloc, format, guessing, file),
            Format::Csv(format) if decimals => infer_csv_type_by(alloc, format, guessing, file),
            Format::Csv(format) => infer_csv_type_with(alloc, format, file),
        }
    }

    /// The format by which a file is read whose type was guessed: of JSON, numbers may stand for texts.
    pub fn of_guess(self) -> Format<'a> {
        match self {
            Format::Json(format) => Format::Json(JsonFormat {
                number_texts: true,
                ..format
            }),
            Format::Csv(format) => Format::Csv(format),
        }
    }

    /// The file of those rows, of CSV by default.
    pub fn write(self, alloc: Global, column: &Column) -> Result<Vec<u8>, WriteError> {
        let mut file = Vec::new(alloc);
        match self {
            Format::Json(_) => write_json_lines(alloc, column, &mut file)?,
            Format::Csv(_) => write_csv(alloc, column, &mut file)?,
        }
        Ok(file)
    }

    /// What becomes of the rows where they are written and read again.
    pub fn write_and_read(self, alloc: Global, column: &Column) -> Again {
        match self.write(alloc, column) {
            Ok(file) => {
                let rows = self
                    .of_written()
                    .read(alloc, column.dtype(), file.as_slice());
                Again::of_rows(rows, column)
            }
            Err(refusal) => {
                let again = Again::of_refusal(&refusal);
                drop(refusal);
                again
            }
        }
    }

    // The format in which files are written.
    fn of_written(self) -> Format<'static> {
        match self {
            Format::Json(_) => JSON_LINES,
            Format::Csv(_) => Format::Csv(CsvFormat::default()),
        }
    }
}

// What stands before the first colon and behind it, or all of the text and nothing.
fn cut(text: &str) -> (&str, &str) {
    text.split_once(':').unwrap_or((text, ""))
}

// The default format, with what the parts say, of which there are at most four.
fn with_parts<'a>(parts: &'a str) -> Option<CsvFormat<'a>> {
    let (first, parts) = cut(parts);
    let (second, parts) = cut(parts);
    let (third, fourth) = cut(parts);
    let format = with_part(CsvFormat::default(), first)?;
    let format = with_part(format, second)?;
    with_part(with_part(format, third)?, fourth)
}

// The same format, with what the part says, which may be nothing.
fn with_part<'a>(format: CsvFormat<'a>, part: &'a str) -> Option<CsvFormat<'a>> {
    if part.is_empty() {
        return Some(format);
    }
    if part == "no-header" {
        return Some(CsvFormat {
            has_header: false,
            ..format
        });
    }
    let (name, value) = part.split_once('=')?;
    match name {
        "delimiter" => Some(CsvFormat {
            delimiter: byte_named(value)?,
            ..format
        }),
        "comment" => Some(CsvFormat {
            comment: Some(byte_named(value)?),
            ..format
        }),
        "null" => Some(CsvFormat {
            null: Some(value),
            ..format
        }),
        _ => None,
    }
}

// The byte of that word: a tab, or the one that it is.
fn byte_named(word: &str) -> Option<u8> {
    if word == "tab" {
        return Some(b'\t');
    }
    match word.as_bytes() {
        [byte] => Some(*byte),
        _ => None,
    }
}

/// What becomes of rows that are written and read again.
#[derive(Clone, Copy)]
pub enum Again {
    /// The same rows of the same type.
    Same,
    /// Writing refuses them.
    Refused,
    /// Anything else.
    Other,
}

impl Again {
    // What became of rows, by what is read of them.
    fn of_rows<T: PartialEq + Drop, E: Drop>(read: Result<T, E>, rows: &T) -> Again {
        let is_same = match &read {
            Ok(read) => *read == *rows,
            Err(_) => false,
        };
        drop(read);
        if is_same { Again::Same } else { Again::Other }
    }

    // What became of rows that aren't written.
    fn of_refusal(refusal: &WriteError) -> Again {
        match refusal {
            WriteError::Unwritable { .. } => Again::Refused,
            WriteError::OutOfMemory | WriteError::Write(_) => Again::Other,
        }
    }
}

// Files of records, by the form that they have.
use crate::columns::{ColumnType, names_of, types_of, with_columns};
use crate::error::RowsError;
use crate::guessed::UntypedRecords;
use crate::stop::Stop;
use std::alloc::Global;
use std::io;
use std::io::{BufReader, Read};
use vx_command_pages::{Input, Span};
use vx_data::{
    CsvFormat, DataError, Guessing, JsonFormat, OtherFields, Recorded, WriteError,
    infer_csv_type_by, infer_json_type_by,
};
use vx_dtype::DType;
use vx_records::RecordsError;
use vx_value::FieldPath;

/// In what form records stand in a file.
#[derive(Clone, Copy, Debug, PartialEq, Eq)]
pub enum DataFormat<'a> {
    /// A line of JSON for each record, an array of them, or objects of several lines.
    Json,
    /// A CSV file of that format.
    Csv(CsvFormat<'a>),
}

impl DataFormat<'_> {
    /// The form of a file of that name: CSV where it ends in `.csv`, CSV with tabs where in `.tsv`, in letters of either
    /// case, else JSON lines.
    pub fn of(name: &str) -> Self {
        let start = name.len().saturating_sub(4);
        let end = name.as_bytes().get(start..).unwrap_or(&[]);
        let format = CsvFormat::default();
        if end.eq_ignore_ascii_case(b".csv") {
            DataFormat::Csv(format)
        } else if end.eq_ignore_ascii_case(b".tsv") {
            DataFormat::Csv(CsvFormat {
                delimiter: b'\t',
                ..format
            })
        } else {
            DataFormat::Json
        }
    }
}

impl DataFormat<'_> {
    /// Whether a file of that form seems to begin with a comment that is read as its header: one of CSV that begins with `#`,
    /// if it can be told. What was read of it is read no more.
    pub(crate) fn has_comments<D: Source>(self, data: &mut D) -> bool {
        let DataFormat::Csv(CsvFormat { comment: None, .. }) = self else {
            return false;
        };
        let mut first = [0];
        matches!(data.go_back(), Ok(true)) && data.read(&mut first).is_ok() && first[0] == b'#'
    }
}

impl DataFormat<'_> {
    /// Whether a word can be said to stand for null in files of that form, and none was.
    pub(crate) fn may_say_null(self) -> bool {
        matches!(self, DataFormat::Csv(CsvFormat { null: None, .. }))
    }
}

/// How JSON is read whose type is guessed.
pub(crate) const GUESSED_JSON: JsonFormat = JsonFormat {
    any_layout: true,
    number_texts: true,
};

/// How the type of records is guessed.
#[derive(Clone, Copy, Debug)]
pub struct Guess<'a> {
    /// How many records are looked at, at most.
    pub records: u64,
    /// The types that are said of some columns.
    pub columns: &'a [ColumnType<'a>],
    /// Whether each name with dots in a header leads to a field of a field.
    pub nested: bool,
    /// Whether numbers with a point are decimals, where each has as many digits behind it; else they are floating-point
    /// numbers.
    pub decimals: bool,
}

impl Guess<'_> {
    /// Whether the type of what stands there is said, and not guessed.
    pub(crate) fn says(self, at: &FieldPath) -> bool {
        self.columns.iter().any(|said| said.leads_to(at))
    }
}

impl Default for Guess<'_> {
    fn default() -> Self {
        Guess {
            records: 1_000,
            columns: &[],
            nested: false,
            decimals: false,
        }
    }
}

/// The type of the records.
#[derive(Clone, Copy, Debug)]
pub enum Schema<'a> {
    /// The one that the text says.
    Said(Input<'a>),
    /// The narrowest type of the first records.
    Guessed(Guess<'a>),
}

impl<'a> Schema<'a> {
    /// The text that says it, an empty one where none does.
    pub(crate) fn input(self) -> Input<'a> {
        match self {
            Schema::Said(input) => input,
            Schema::Guessed(_) => Input::new("", ""),
        }
    }

    /// The columns whose types are said, where the others are guessed.
    pub(crate) fn columns(self) -> &'a [ColumnType<'a>] {
        let guess = match self {
            Schema::Said(_) => Guess::default(),
            Schema::Guessed(guess) => guess,
        };
        guess.columns
    }

    /// What becomes of fields that the type doesn't have: one that is said may be of some columns only.
    pub(crate) fn others(self) -> OtherFields {
        match self {
            Schema::Said(_) => OtherFields::PassedOver,
            Schema::Guessed(_) => OtherFields::Refused,
        }
    }
}

/// What records are read from, perhaps more than once.
pub trait Source: Read {
    /// Goes back to where reading began. Tells whether it did; where it can't, nothing is changed.
    fn go_back(&mut self) -> io::Result<bool>;
}

/// The type of the records, and the bytes that were read to tell it and are to be read before what is left: none where the
/// source goes back. Fails as `guessed_type` does.
pub(crate) fn inferred_type<D: Source>(
    alloc: Global,
    records: UntypedRecords<'_>,
    data: &mut D,
) -> Result<(DType, Vec<u8>), Stop> {
    if went_back(data)? {
        let dtype = guessed_type(alloc, records, &mut *data)?;
        went_back(data)?;
        return Ok((dtype, Vec::new(alloc)));
    }
    let mut recorded = Recorded::new(alloc, data);
    let dtype = guessed_type(alloc, records, &mut recorded)?;
    let (read, _) = recorded.into_parts();
    Ok((dtype, read))
}

fn went_back<D: Source>(data: &mut D) -> Result<bool, RowsError> {
    match data.go_back() {
        Ok(went) => Ok(went),
        Err(e) => opened(Err(DataError::from(e))),
    }
}

// The narrowest type of the records that are looked at, but for the columns whose types are said, and perhaps without the
// records that can't be read. Fails at a type that can't be read, as `infer_json_type_by` and `infer_csv_type_by` of `vx_data` do, and at a column that isn't there.
fn guessed_type<D: Read + Drop>(
    alloc: Global,
    records: UntypedRecords<'_>,
    data: D,
) -> Result<DType, Stop> {
    let UntypedRecords {
        format,
        guess,
        skips,
        ..
    } = records;
    let types = types_of(alloc, guess.columns)?;
    let said = names_of(alloc, guess.columns)?;
    let guessing = Guessing {
        records: guess.records,
        said: said.as_slice(),
        skips,
        nested: guess.nested,
        decimals: guess.decimals,
    };
    let guessed = narrowest_type(alloc, format, guessing, data)?;
    Ok(with_columns(alloc, guessed, guess.columns, types.as_slice())?)
}

// The narrowest type of the records that are looked at.
fn narrowest_type<D: Read + Drop>(
    alloc: Global,
    format: DataFormat<'_>,
    guessing: Guessing<'_>,
    data: D,
) -> Result<DType, RowsError> {
    match format {
        DataFormat::Json => {
            let lines = buffered(alloc, data)?;
            opened(infer_json_type_by(alloc, GUESSED_JSON, guessing, lines))
        }
        DataFormat::Csv(format) => opened(infer_csv_type_by(alloc, format, guessing, data)),
    }
}

/// The reader with a buffer, or the error for want of memory.
pub fn buffered<D: Read + Drop>(alloc: Global, data: D) -> Result<BufReader<D>, RowsError> {
    match BufReader::new(alloc, data) {
        Ok(reader) => Ok(reader),
        Err(e) => Err(stopped_by(RecordsError::from(DataError::from(e)))),
    }
}

/// What was opened, or the error of what stopped reading.
pub fn opened<T>(file: Result<T, DataError>) -> Result<T, RowsError> {
    match file {
        Ok(opened) => Ok(opened),
        Err(e) => Err(stopped_by(RecordsError::from(e))),
    }
}

/// Nothing, or the error of what stopped writing.
pub fn unwritten(written: Result<(), WriteError>) -> Result<(), RowsError> {
    match written {
        Ok(()) => Ok(()),
        Err(e) => Err(stopped_by(RecordsError::Write(e))),
    }
}

// The error of what no node of the expression stopped.
fn stopped_by(error: RecordsError) -> RowsError {
    let span = Span { start: 0, end: 0 };
    RowsError::Records { error, span }
}

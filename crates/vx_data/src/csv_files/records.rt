// The records of a CSV file.
use crate::csv_files::format::CsvFormat;
use crate::csv_files::kept::Kept;
use crate::csv_files::quotes::{WrongQuotes, misquoted};
use crate::error::DataError;
use crate::expected::Expected;
use crate::fault::Fault;
use csv::{ByteRecord, Error, ErrorKind, Reader, ReaderBuilder};
use std::alloc::{AllocError, Global};
use std::io::Read;

/// A CSV file, whose records are read one after another, the header first. Blank lines and comments are none. In memory
/// are one record, as cells and as it stood, and the reader's buffer.
#[derive(Drop)]
pub struct CsvRecords<R> {
    alloc: Global,
    reader: Reader<Kept<R>>,
    has_header: bool,
    delimiter: u8,
    comment: Option<u8>,
    cells: ByteRecord,
    // How many cells the first record has, once it is read.
    width: Option<usize>,
    // The record behind the lines that are none, and where it begins there.
    text: Vec<u8>,
    start: usize,
    // The byte and the line at which the next record is looked for.
    next_byte: u64,
    next_line: u64,
    line: u64,
    // Whether the last record is read once more.
    again: bool,
}

impl<R: Read + Drop> CsvRecords<R> {
    /// Nothing is read yet. Takes no memory.
    pub fn new(alloc: Global, reader: R) -> CsvRecords<R> {
        CsvRecords::with_format(alloc, reader, CsvFormat::default())
    }

    /// The same of records of that format.
    pub fn with_format(alloc: Global, reader: R, format: CsvFormat<'_>) -> CsvRecords<R> {
        CsvRecords {
            alloc,
            reader: ReaderBuilder::new()
                .has_headers(false)
                .flexible(true)
                .delimiter(format.delimiter)
                .comment(format.comment)
                .from_reader(alloc, Kept::new(alloc, reader)),
            has_header: format.has_header,
            delimiter: format.delimiter,
            comment: format.comment,
            cells: ByteRecord::new(alloc),
            width: None,
            text: Vec::new(alloc),
            start: 0,
            next_byte: 0,
            next_line: 1,
            line: 1,
            again: false,
        }
    }

    /// Reads the first record: the header, or where there is none the first row, which `read_record` then reads once more.
    /// Refuses a file without a record; and as `read_record` does.
    pub fn read_first(&mut self) -> Result<(), DataError> {
        if !self.read_record()? {
            let expected = if self.has_header {
                Expected::Header
            } else {
                Expected::FirstRecord
            };
            return Err(Fault::new(self.alloc, expected).on_line(self.alloc, 1));
        }
        self.again = !self.has_header;
        Ok(())
    }

    /// Reads the next record, and tells whether there is one. Refuses a record with a cell that a quote opens and none
    /// closes, or that goes on behind its closing quote; one that has more cells than the first; and with the reader's
    /// error, and with `OutOfMemory`, after which no record is read.
    pub fn read_record(&mut self) -> Result<bool, DataError> {
        if self.again {
            self.again = false;
            return Ok(true);
        }
        let read = self.reader.read_byte_record(&mut self.cells);
        self.take_text()?;
        match read {
            Ok(found) => self.checked(found),
            Err(e) => Err(refusal(e)),
        }
    }

    // Whether what was found is a record. Refuses one whose quotes aren't those of cells, and one that has more cells
    // than the first.
    fn checked(&mut self, found: bool) -> Result<bool, DataError> {
        if !found || self.is_open_comment() {
            return Ok(false);
        }
        if let Some(wrong) = misquoted(self.record(), self.delimiter) {
            let fault = Fault::new(self.alloc, expected_of(wrong));
            return Err(fault.on_line(self.alloc, self.line));
        }
        let count = self.cells.len();
        match self.width {
            None => self.width = Some(count),
            Some(most) if count > most => {
                let fault = Fault::new(self.alloc, Expected::Cells(most as u64));
                return Err(fault.on_line(self.alloc, self.line));
            }
            Some(_) => {}
        }
        Ok(true)
    }

    // Whether what was read is a comment that ends with the file, which comes as a record of an empty cell.
    fn is_open_comment(&self) -> bool {
        self.comment.is_some() && self.record().is_empty()
    }

    // The record as it stood, and its line.
    fn take_text(&mut self) -> Result<(), AllocError> {
        let is_first = self.next_byte == 0;
        let end = self.reader.position().byte();
        let count = end.saturating_sub(self.next_byte);
        self.text.clear();
        self.reader.get_ref().take(count, &mut self.text)?;
        self.next_byte = end;
        let lines = line_ends(self.text.as_slice());
        self.start = record_start(self.text.as_slice(), self.comment, is_first);
        let before = line_ends(self.text.get(..self.start).unwrap_or(&[]));
        self.line = self.next_line.saturating_add(before);
        self.next_line = self.next_line.saturating_add(lines);
        Ok(())
    }

    /// The line at which the last record begins, counted from 1.
    pub fn line(&self) -> u64 {
        self.line
    }

    /// The cells of the last record.
    pub fn cells(&self) -> &ByteRecord {
        &self.cells
    }

    /// The last record as it stood, without the end of its line and without a byte order mark.
    pub fn record(&self) -> &[u8] {
        record_in(self.text.get(self.start..).unwrap_or(&[]))
    }
}

// What a record lacks whose quotes are wrong.
fn expected_of(wrong: WrongQuotes) -> Expected {
    match wrong {
        WrongQuotes::Open(at) => Expected::ClosingQuote { at },
        WrongQuotes::Behind(at) => Expected::CellEnd { at },
    }
}

// The byte order mark that may begin a file.
const MARK: &[u8] = b"\xef\xbb\xbf";

// Where the record begins, behind blank lines and comments, and in the file's first bytes behind a byte order mark.
fn record_start(text: &[u8], comment: Option<u8>, is_first: bool) -> usize {
    let mut rest = match text.strip_prefix(MARK) {
        Some(unmarked) if is_first => unmarked,
        _ => text,
    };
    for _ in 0..text.len() {
        rest = match rest {
            [b'\n' | b'\r', behind @ ..] => behind,
            [first, ..] if comment == Some(*first) => behind_line(rest),
            _ => break,
        };
    }
    text.len().saturating_sub(rest.len())
}

// What stands behind the first line.
fn behind_line(text: &[u8]) -> &[u8] {
    match text.iter().position(|byte| *byte == b'\n') {
        Some(end) => text.get(end.saturating_add(1)..).unwrap_or(&[]),
        None => &[],
    }
}

// The record without the ends of lines behind it.
fn record_in(text: &[u8]) -> &[u8] {
    let mut record = text;
    'ends: while let [rest @ .., b'\n' | b'\r'] = record {
        record = rest;
    }
    record
}

fn line_ends(text: &[u8]) -> u64 {
    text.iter().filter(|byte| **byte == b'\n').count() as u64
}

// Why a record isn't read. (Bytes in records of any lengths give no other error.)
fn refusal(e: Error) -> DataError {
    match e.into_kind() {
        ErrorKind::Io(e) => DataError::from(e),
        _ => DataError::OutOfMemory,
    }
}

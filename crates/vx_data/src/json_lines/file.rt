// The records of a file of JSON.
use crate::error::DataError;
use crate::expected::Expected;
use crate::fault::Fault;
use crate::json_lines::format::JsonFormat;
use crate::json_lines::lines::JsonLines;
use crate::json_lines::scan::Scan;
use std::alloc::{AllocError, Global};
use std::io::{BufRead, ErrorKind};

/// A file of JSON, whose records are read one after another, as its format says. In memory is one record.
#[derive(Drop)]
pub struct JsonFile<R> {
    alloc: Global,
    lines: JsonLines<R>,
    layout: Layout,
    // The line on which the next byte stands, where records aren't lines.
    next_line: u64,
}

// How records stand in a file.
#[derive(Clone, Copy, Debug, PartialEq, Eq)]
enum Layout {
    // The file's beginning tells it, which isn't read.
    Untold,
    // Each line is one.
    Lines,
    // Each is an object; of the first the brace is read.
    FirstObject,
    Objects,
    // They are the items of an array, and the last that was read of it is its bracket, a comma or an item.
    FirstItem,
    BehindComma,
    BehindItem,
    // There are no more.
    Ended,
}

impl<R: BufRead> JsonFile<R> {
    /// Nothing is read yet. Takes no memory.
    pub fn new(alloc: Global, reader: R, format: JsonFormat) -> JsonFile<R> {
        JsonFile {
            alloc,
            lines: JsonLines::new(alloc, reader),
            layout: if format.any_layout {
                Layout::Untold
            } else {
                Layout::Lines
            },
            next_line: 1,
        }
    }

    /// Reads the next record, and tells whether there is one. Refuses an array of which two items have no comma between them,
    /// a comma has no item behind it, the end is missing, or something stands behind that; and with the reader's error, and
    /// with `OutOfMemory`.
    pub fn read_record(&mut self) -> Result<bool, DataError> {
        if self.layout == Layout::Untold {
            self.layout = self.told_layout()?;
        }
        match self.layout {
            Layout::Untold | Layout::Lines => self.lines.read_record(),
            Layout::FirstObject => {
                self.layout = Layout::Objects;
                self.read_value(Scan::of_object())?;
                Ok(true)
            }
            Layout::Objects => {
                self.lines.bytes.clear();
                if self.behind_blanks()?.is_none() {
                    return Ok(false);
                }
                self.read_value(Scan::new())?;
                Ok(true)
            }
            Layout::FirstItem | Layout::BehindComma | Layout::BehindItem => self.read_item(),
            Layout::Ended => Ok(false),
        }
    }

    /// The line at which the last record begins, counted from 1.
    pub fn line(&self) -> u64 {
        self.lines.line()
    }

    /// The last record as it stood, without what stands between records and without a byte order mark.
    pub fn record(&self) -> &[u8] {
        self.lines.record()
    }

    // The layout that the file's beginning tells, which is read up to the first byte that does: a bracket with nothing
    // behind it on its line, or a brace or a bracket, is an array's; a brace with nothing behind it on its line an object's.
    fn told_layout(&mut self) -> Result<Layout, DataError> {
        let mut first = None;
        for _ in 0..u64::MAX {
            match (first, self.next_byte()?) {
                (None, Some(b'\n')) => {
                    self.pass(1);
                    self.lines.bytes.clear();
                    self.lines.line = self.lines.line.saturating_add(1);
                    self.next_line = self.next_line.saturating_add(1);
                }
                (None, Some(open @ (b'[' | b'{'))) => {
                    first = Some(open);
                    self.keep(open)?;
                }
                (None, Some(mark @ (0xef | 0xbb | 0xbf))) => self.keep(mark)?,
                (_, Some(blank @ (b' ' | b'\t' | b'\r'))) => self.keep(blank)?,
                (Some(b'['), Some(b'\n' | b'{' | b']')) => return Ok(Layout::FirstItem),
                (Some(b'{'), Some(b'\n')) => return Ok(Layout::FirstObject),
                _ => break,
            }
        }
        self.lines.is_begun = true;
        Ok(Layout::Lines)
    }

    // Reads the next item of an array, and tells whether there is one.
    fn read_item(&mut self) -> Result<bool, DataError> {
        let before = self.record().len();
        match (self.layout, self.behind_blanks()?) {
            (Layout::BehindItem, Some(b',')) => {
                self.pass(1);
                self.layout = Layout::BehindComma;
                match self.behind_blanks()? {
                    Some(b',' | b']') | None => self.read_no_item(),
                    Some(_) => self.read_item_here(),
                }
            }
            (_, Some(b']') | None) => self.read_no_item(),
            (Layout::BehindItem, Some(_)) => {
                self.layout = Layout::BehindComma;
                Err(self.refusal_on(self.line(), Expected::End { at: before }))
            }
            (_, Some(b',')) => self.read_no_item(),
            (_, Some(_)) => self.read_item_here(),
        }
    }

    // Reads the item that begins here.
    fn read_item_here(&mut self) -> Result<bool, DataError> {
        self.layout = Layout::BehindItem;
        self.lines.bytes.clear();
        self.read_value(Scan::new())?;
        Ok(true)
    }

    // Reads what stands in place of an item: the end of the array, a comma that is one too many, or the end of the file.
    fn read_no_item(&mut self) -> Result<bool, DataError> {
        let is_behind_comma = self.layout == Layout::BehindComma;
        match self.next_byte()? {
            Some(b']') => {
                self.pass(1);
                self.layout = Layout::Ended;
                if is_behind_comma {
                    return Err(self.refusal(Expected::Json { at: 0 }));
                }
                match self.behind_blanks()? {
                    Some(_) => Err(self.refusal(Expected::End { at: 0 })),
                    None => Ok(false),
                }
            }
            Some(_) => {
                self.pass(1);
                Err(self.refusal(Expected::Json { at: 0 }))
            }
            None => {
                self.layout = Layout::Ended;
                Err(self.refusal(Expected::Json { at: 0 }))
            }
        }
    }

    // Reads the rest of a value behind what is kept of it.
    fn read_value(&mut self, begun: Scan) -> Result<(), DataError> {
        let mut scan = begun;
        self.lines.line = self.next_line;
        for _ in 0..u64::MAX {
            let count = match self.lines.reader.fill_buf() {
                Ok(found) => {
                    let taken = scan.read(found);
                    self.lines.bytes.extend_from_slice(taken)?;
                    self.next_line = self.next_line.saturating_add(line_ends(taken));
                    taken.len()
                }
                Err(e) if e.kind() == ErrorKind::Interrupted => continue,
                Err(e) => return Err(DataError::from(e)),
            };
            self.pass(count);
            if count == 0 || scan.is_whole() {
                break;
            }
        }
        Ok(())
    }

    // The next byte behind blank ones, which are passed over.
    fn behind_blanks(&mut self) -> Result<Option<u8>, DataError> {
        for _ in 0..u64::MAX {
            match self.next_byte()? {
                Some(b'\n') => {
                    self.pass(1);
                    self.next_line = self.next_line.saturating_add(1);
                }
                Some(b' ' | b'\t' | b'\r') => self.pass(1),
                next => return Ok(next),
            }
        }
        Ok(None)
    }

    // The next byte, which isn't passed over.
    fn next_byte(&mut self) -> Result<Option<u8>, DataError> {
        for _ in 0..u64::MAX {
            match self.lines.reader.fill_buf() {
                Ok(found) => return Ok(found.first().copied()),
                Err(e) if e.kind() == ErrorKind::Interrupted => {}
                Err(e) => return Err(DataError::from(e)),
            }
        }
        Ok(None)
    }

    fn pass(&mut self, count: usize) {
        self.lines.reader.consume(count);
    }

    // Passes over the byte, which is kept.
    fn keep(&mut self, byte: u8) -> Result<(), AllocError> {
        self.pass(1);
        Ok(self.lines.bytes.push(byte)?)
    }

    fn refusal(&self, expected: Expected) -> DataError {
        self.refusal_on(self.next_line, expected)
    }

    fn refusal_on(&self, line: u64, expected: Expected) -> DataError {
        Fault::new(self.alloc, expected).on_line(self.alloc, line)
    }
}

fn line_ends(text: &[u8]) -> u64 {
    text.iter().filter(|byte| **byte == b'\n').count() as u64
}

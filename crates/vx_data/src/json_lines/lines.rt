// The records of a file of JSON lines.
use crate::error::DataError;
use std::alloc::Global;
use std::io::BufRead;

/// A file of JSON lines, whose records are read one after another: each line is a record, unless it is blank. In
/// memory is one line.
#[derive(Drop)]
pub struct JsonLines<R> {
    pub(super) reader: R,
    pub(super) bytes: Vec<u8>,
    pub(super) line: u64,
    // Whether the bytes begin the next line.
    pub(super) is_begun: bool,
}

impl<R: BufRead> JsonLines<R> {
    /// Nothing is read yet. Takes no memory.
    pub fn new(alloc: Global, reader: R) -> JsonLines<R> {
        JsonLines {
            reader,
            bytes: Vec::new(alloc),
            line: 0,
            is_begun: false,
        }
    }

    /// Reads the next record, and tells whether there is one. Refuses with the reader's error, and with
    /// `OutOfMemory`.
    pub fn read_record(&mut self) -> Result<bool, DataError> {
        for _ in self.line..u64::MAX {
            if !self.is_begun {
                self.bytes.clear();
            }
            self.is_begun = false;
            self.reader.read_until(b'\n', &mut self.bytes)?;
            if self.bytes.is_empty() {
                return Ok(false);
            }
            self.line = self.line.saturating_add(1);
            if !is_blank(self.record()) {
                return Ok(true);
            }
        }
        Ok(false)
    }

    /// The line of the last record, counted from 1.
    pub fn line(&self) -> u64 {
        self.line
    }

    /// The last record as it stood, without the end of its line and without a byte order mark.
    pub fn record(&self) -> &[u8] {
        record_in(self.bytes.as_slice(), self.line)
    }
}

// The line without what ends it, and without the byte order mark that may begin the first one.
fn record_in(bytes: &[u8], line: u64) -> &[u8] {
    let bytes = bytes.strip_suffix(b"\n").unwrap_or(bytes);
    let bytes = bytes.strip_suffix(b"\r").unwrap_or(bytes);
    if line > 1 {
        return bytes;
    }
    bytes.strip_prefix(b"\xef\xbb\xbf").unwrap_or(bytes)
}

fn is_blank(record: &[u8]) -> bool {
    record.iter().all(|byte| byte.is_ascii_whitespace())
}

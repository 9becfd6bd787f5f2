// Records as they stood.
use std::alloc::{AllocError, Global};
use std::str;
use vx_data::{CsvRecords, DataError, JsonFile};

/// A file whose records are read one after another, as they stood.
#[derive(Drop)]
pub enum Records<'a> {
    Json(JsonFile<&'a [u8]>),
    Csv(CsvRecords<&'a [u8]>),
}

impl Records<'_> {
    // Reads the next record: the line at which it begins, and what it is, None behind the last.
    fn next(&mut self) -> Result<Option<(u64, &[u8])>, DataError> {
        Ok(match self {
            Records::Json(file) => {
                if file.read_record()? {
                    Some((file.line(), file.record()))
                } else {
                    None
                }
            }
            Records::Csv(file) => {
                if file.read_record()? {
                    Some((file.line(), file.record()))
                } else {
                    None
                }
            }
        })
    }

    /// Each record behind its line, as `1: 7 / 3: 8`; of a CSV file the header first.
    pub fn text(mut self, alloc: Global) -> Result<String, DataError> {
        let mut text = String::new(alloc);
        for _ in 0..u64::MAX {
            match self.next()? {
                Some((line, record)) => push_record(alloc, line, record, &mut text)?,
                None => break,
            }
        }
        Ok(text)
    }
}

fn push_record(
    alloc: Global,
    line: u64,
    record: &[u8],
    text: &mut String,
) -> Result<(), AllocError> {
    let before = if text.is_empty() { "" } else { " / " };
    let record = str::from_utf8(record).unwrap_or("no text");
    text.push_str(format!(in alloc; "{before}{line}: {record}")?.as_str())
}

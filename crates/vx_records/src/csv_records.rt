// CSV files as records.
ghost use Rattle.std.specs.Prelude.{◌≡◌};
ghost use Rattle.vx_value.specs.Views.{type_of};

use crate::record::require_fit;
use crate::{Record, RecordReader};
use std::alloc::Global;
use std::io::Read;
use vx_data::{CsvFormat, CsvParser, CsvRecords, DataError, FirstRecord, OtherFields};
use vx_dtype::DType;
use vx_value::FieldPathSet;

/// The records of a CSV file behind its header, if it has one, as rows of a type. In memory are one record and the
/// reader's buffer.
#[derive(Drop)]
pub struct CsvRows<R> {
    dtype: DType,
    records: CsvRecords<R>,
    parser: CsvParser,
    // The header as it stands, on a line, and nothing where there is none.
    head: Vec<u8>,
}

impl<R: Read + Drop> CsvRows<R> {
    /// The records of that type behind the header, which is read. Refuses a file without a header, a
    /// header that isn't the type's, and a type that no cells make, as [`CsvParser::new`] does; with
    /// the reader's error; and with `OutOfMemory`.
    pub fn open(alloc: Global, dtype: DType, reader: R) -> Result<CsvRows<R>, DataError> {
        CsvRows::open_with(alloc, dtype, CsvFormat::default(), reader)
    }

    /// The same of a file of that format. Where it has no header its first record is read, and a file without a record
    /// is refused.
    pub fn open_with(
        alloc: Global,
        dtype: DType,
        format: CsvFormat<'_>,
        reader: R,
    ) -> Result<CsvRows<R>, DataError> {
        CsvRows::open_others(alloc, dtype, format, OtherFields::Refused, reader)
    }

    /// The same, where that becomes of cells whose names are none of the type.
    pub fn open_others(
        alloc: Global,
        dtype: DType,
        format: CsvFormat<'_>,
        others: OtherFields,
        reader: R,
    ) -> Result<CsvRows<R>, DataError> {
        let mut records = CsvRecords::with_format(alloc, reader, format);
        records.read_first()?;
        let first = FirstRecord {
            line: records.line(),
            cells: records.cells(),
        };
        let parser = CsvParser::with_others(alloc, &dtype, first, format, others)?;
        let mut head = Vec::new(alloc);
        if format.has_header {
            head.extend_from_slice(records.record())?;
            head.push(b'\n')?;
        }
        Ok(CsvRows {
            dtype,
            records,
            parser,
            head,
        })
    }

    /// The same records, of whose rows nothing is asked for but what stands at those paths: what stands elsewhere may be read
    /// as another value of its type. What is refused stays the same, and so does each record's text.
    pub fn along(self, paths: &FieldPathSet) -> CsvRows<R>
        ensures scope { type_of result.dtype ≡ type_of self.dtype }
        ensures head { result.head ≡ self.head }
    {
        let CsvRows {
            dtype,
            records,
            parser,
            head,
        } = self;
        let parser = parser.along(&dtype, paths);
        CsvRows {
            dtype,
            records,
            parser,
            head,
        }
    }
}

impl<R: Read + Drop> RecordReader for CsvRows<R> {
    // What reading a file gives isn't known.
    ghost leaves = { λ _ _. Unit {0} };

    ghost scope = { λ r. type_of r.dtype };

    ghost head = { λ r. r.head.items };

    fn dtype(&self) -> &DType {
        &self.dtype
    }

    fn heading(&self) -> &[u8] {
        self.head.as_slice()
    }

    fn read(&mut self, alloc: Global) -> Result<Option<Record>, DataError> {
        if !self.records.read_record()? {
            return Ok(None);
        }
        let line = self.records.line();
        let row = self.parser.parse(line, self.records.cells())?;
        require_fit(alloc, &self.dtype, line, &row)?;
        let text = Vec::from_slice(alloc, self.records.record())?;
        Ok(Some(Record { text, row, line }))
    }
}

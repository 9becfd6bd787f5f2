// Files of JSON as records.
ghost use Rattle.std.specs.Prelude.{◌≡◌, []};
ghost use Rattle.vx_value.specs.Views.{type_of};

use crate::record::require_fit;
use crate::{Record, RecordReader};
use std::alloc::Global;
use std::io::BufRead;
use vx_data::{DataError, JsonFile, JsonFormat, JsonParser, OtherFields};
use vx_dtype::DType;

/// The records of a file of JSON as rows of a type. In memory is one record.
#[derive(Drop)]
pub struct JsonRecords<R> {
    dtype: DType,
    file: JsonFile<R>,
    parser: JsonParser,
}

impl<R: BufRead> JsonRecords<R> {
    /// The records of that type, one a line, of which none is read yet. Takes no memory.
    pub fn new(alloc: Global, dtype: DType, reader: R) -> JsonRecords<R>
        ensures { type_of result.dtype ≡ type_of dtype }
    {
        JsonRecords::with_format(alloc, dtype, JsonFormat::default(), reader)
    }

    /// The same of a file of that format.
    pub fn with_format(alloc: Global, dtype: DType, format: JsonFormat, reader: R) -> JsonRecords<R>
        ensures { type_of result.dtype ≡ type_of dtype }
    {
        JsonRecords::with_others(alloc, dtype, format, OtherFields::Refused, reader)
    }

    /// The same, where that becomes of fields that the type doesn't have.
    pub fn with_others(
        alloc: Global,
        dtype: DType,
        format: JsonFormat,
        others: OtherFields,
        reader: R,
    ) -> JsonRecords<R>
        ensures { type_of result.dtype ≡ type_of dtype }
    {
        JsonRecords {
            dtype,
            file: JsonFile::new(alloc, reader, format),
            parser: JsonParser::with_others(alloc, format, others),
        }
    }
}

impl<R: BufRead> RecordReader for JsonRecords<R> {
    // What reading a file gives isn't known.
    ghost leaves = { λ _ _. Unit {0} };

    ghost scope = { λ r. type_of r.dtype };

    ghost head = { λ _. [] };

    fn dtype(&self) -> &DType {
        &self.dtype
    }

    fn heading(&self) -> &[u8] {
        &[]
    }

    fn read(&mut self, alloc: Global) -> Result<Option<Record>, DataError> {
        if !self.file.read_record()? {
            return Ok(None);
        }
        let line = self.file.line();
        let row = self.parser.parse(&self.dtype, line, self.file.record())?;
        require_fit(alloc, &self.dtype, line, &row)?;
        let text = Vec::from_slice(alloc, self.file.record())?;
        Ok(Some(Record { text, row, line }))
    }
}

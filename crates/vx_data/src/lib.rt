// Data from files: rows read from JSON lines and CSV files, types guessed, rows written.
#![tactic(auto)]

mod builder;
mod cells;
mod csv_files;
mod error;
mod expected;
mod fault;
mod guessing;
mod json_lines;
mod kind;
mod kinds;
mod numbers;
mod other_fields;
mod recorded;

pub use builder::ColumnBuilder;
pub use csv_files::{
    CsvFormat, CsvParser, CsvRecords, CsvWriter, FirstRecord, infer_csv_type, infer_csv_type_by,
    infer_csv_type_with, rows_from_csv, rows_from_csv_with, write_csv,
};
pub use error::{DataError, WriteError};
pub use expected::Expected;
pub use fault::Fault;
pub use guessing::Guessing;
pub use json_lines::{
    JsonFile, JsonFormat, JsonLines, JsonParser, infer_json_type, infer_json_type_by,
    rows_from_json, rows_from_json_lines, write_json_lines,
};
pub use other_fields::OtherFields;
pub use recorded::Recorded;

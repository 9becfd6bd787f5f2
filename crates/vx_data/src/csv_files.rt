// Rows from records of comma-separated cells, their types guessed from such records, and rows written as such records.
mod branches;
mod cells;
mod format;
mod guess;
mod header;
mod infer;
mod kept;
mod parser;
mod plan;
mod quotes;
mod records;
mod rows;
mod write;

pub use format::CsvFormat;
pub use infer::{infer_csv_type, infer_csv_type_by, infer_csv_type_with};
pub use parser::{CsvParser, FirstRecord};
pub use records::CsvRecords;
pub use rows::{rows_from_csv, rows_from_csv_with};
pub use write::{CsvWriter, write_csv};

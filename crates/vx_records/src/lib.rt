// Files of records, what an expression means at each of them, and the records of which it is true.
#![tactic(auto)]

mod answers;
mod batches;
mod chunked;
mod counted;
mod csv_records;
mod error;
mod evaluated;
mod filtered;
mod json_records;
mod kept;
mod laws;
mod lines;
mod portions;
mod read;
mod record;
mod selected;
mod skipping;
mod writing;

pub use chunked::{ChunkTally, Chunking, filter_chunks};
pub use counted::count_records;
pub use csv_records::CsvRows;
pub use error::{RecordFault, RecordsError, SelectError};
pub use evaluated::{RowWriter, evaluate_records};
pub use filtered::filter_records;
pub use json_records::JsonRecords;
pub use laws::fewer_never_fault;
pub use record::{Record, RecordReader};
pub use selected::{Selection, select_records};
pub use skipping::Skipping;

// So many records are read together at most.
const CHUNK: u64 = 4_096;

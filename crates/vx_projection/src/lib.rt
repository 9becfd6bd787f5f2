// What is kept of a batch along paths of fields, and readers that read no more.
#![tactic(auto)]

pub mod along;
mod defaults;
mod laws;
mod lost;
mod read;
mod reader;
mod wanted;

pub use defaults::default_value;
pub use laws::{kept_rows_agree, kept_rows_fit};
pub use read::read_referenced;
pub use reader::{ColumnReader, PathReader};

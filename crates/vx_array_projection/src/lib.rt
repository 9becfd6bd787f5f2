// What is kept of an array along paths of fields, and readers of arrays that read no more.
#![tactic(auto)]

mod defaults;
mod kept;
mod read;
mod reader;

pub use read::read_referenced_array;
pub use reader::{ArrayPlanReader, ArrayReader};

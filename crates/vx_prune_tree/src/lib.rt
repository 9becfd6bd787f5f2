// Statistics of a chunk, and what they bound of a tree's values.
#![tactic(auto)]

mod bounding;
mod chunk_stats;
mod ends;
mod field_stats;
mod functions;
mod laws;
mod order;
mod paths;
mod places;
mod predicates;
mod reading;
mod searches;
pub mod statistics_laws;
mod verdicts;

pub use bounding::bounds;
pub use chunk_stats::ChunkStats;
pub use field_stats::{FieldStats, Inconsistency};
pub use laws::{more_is_as_sure, more_narrows};
pub use predicates::verdict;
pub use verdicts::Verdict;

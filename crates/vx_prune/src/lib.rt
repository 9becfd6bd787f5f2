// Which chunks can be skipped: predicates planned and selected by statistics, and statistics read from files.
#![tactic(auto)]

mod chunk_records;
mod places;
mod record_type;
mod selected;
mod stats_error;

pub use chunk_records::ChunkRecords;
pub use selected::select_rows;
pub use stats_error::StatsError;
pub use vx_prune_bounds::{Bounds, Endpoint, Truths, TypedBounds};
pub use vx_prune_tree::{ChunkStats, FieldStats, Inconsistency, Verdict, bounds, verdict};

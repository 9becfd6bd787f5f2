// Columns in typed buffers, put together by conditions or by masks.
#![tactic(auto)]

mod chosen;
mod columns;
mod matching;
mod merges;
mod turns;

pub use matching::first_match_array;
pub use merges::{merge_compact_array, merge_runs_array};

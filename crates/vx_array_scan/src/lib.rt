// Planned queries over columns in typed buffers.
#![tactic(auto)]

mod pruned;
mod scanned;
mod selected;
mod split;
mod statistics;
mod truths;

pub use pruned::select_rows_array;
pub use scanned::scan_array;
pub use selected::select_array;
pub use split::evaluate_split_array;
pub use statistics::stats_of_array;

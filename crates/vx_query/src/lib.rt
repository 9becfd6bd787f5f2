// A query as one run: bound, rewritten, perhaps split, and evaluated.
#![tactic(auto)]

mod query;
mod split;

pub use query::run_query;
pub use split::optimize_partitions;

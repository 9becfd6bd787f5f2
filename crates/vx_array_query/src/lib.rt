// A query over columns in typed buffers, as one run.
#![tactic(auto)]

mod query;
mod split;

pub use query::run_query_array;

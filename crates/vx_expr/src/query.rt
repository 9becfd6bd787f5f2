//! A query as one run: bound, rewritten, perhaps split, and evaluated.
pub use vx_query::run_query;

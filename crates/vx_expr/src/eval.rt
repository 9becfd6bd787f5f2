//! Evaluation over columns.
pub use vx_eval::{RowMask, apply_bound, first_match, merge_compact, merge_runs, prefer_runs};
pub use vx_forms::apply;

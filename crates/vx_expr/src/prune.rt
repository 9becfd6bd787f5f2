//! Pruning by statistics: whether a predicate can be true in a chunk of rows, told before it is read.
pub use vx_prune::{
    Bounds, ChunkStats, Endpoint, FieldStats, Truths, TypedBounds, Verdict, bounds, select_rows,
    verdict,
};

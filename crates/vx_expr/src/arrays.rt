//! Columns in typed buffers, made of vectors and of a [`Column`](crate::value::Column), and evaluation over
//! them: the same rows as over a column, by loops over the buffers. `scan_array` and `select_array` give what
//! a plan means of their rows, `select_rows_array` by statistics, `scan_chunks` so of one chunk after the
//! other, and `run_query_array` is a query in one call. Clones and slices share the buffers.
pub use vx_array::{Array, BitPart, Validity};
pub use vx_array_build::{
    Native, NativeFloat, are_within, binaries, booleans, concat, constant, days, filter, floats,
    from_column, instants, primitive, struct_of, take, texts,
};
pub use vx_array_chunks::{ArrayChunk, Chunk, ScannedChunks, scan_chunk, scan_chunks};
pub use vx_array_eval::apply_array;
pub use vx_array_loops::Bits;
pub use vx_array_merges::{first_match_array, merge_compact_array, merge_runs_array};
pub use vx_array_projection::{ArrayPlanReader, ArrayReader, read_referenced_array};
pub use vx_array_query::run_query_array;
pub use vx_array_scan::{scan_array, select_array, select_rows_array, stats_of_array};

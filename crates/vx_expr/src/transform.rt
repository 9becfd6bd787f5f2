//! Bound trees rewritten: ranges fused, trees split into partitions, and passes one after another.
pub use vx_forms::replace_nodes;
pub use vx_rewrite::{
    BoundPartitionedExpr, PartitionKey, Pass, find_between, partition_bound,
    partition_bound_annotations, passes_keep, run_passes,
};

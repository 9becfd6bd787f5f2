// Analyses and rewriting of bound trees: what the crates below have, under one name.
#![tactic(auto)]

pub mod laws;
mod passes;

pub use laws::passes_keep;
pub use passes::{Pass, run_passes};
pub use vx_partition::{
    BoundPartitionedExpr, PartitionKey, partition_bound, partition_bound_annotations,
};
pub use vx_rewrite_analysis::{
    Annotation, BoundAnnotations, BoundLabels, covers, descendent_bound_annotations,
    direct_bound_annotations, free_fields, label_bound_tree,
};
pub use vx_rewrite_core::{Rule, optimize_root, optimize_with, optimized, optimized_root};
pub use vx_rewrite_folding::FoldingRules;
pub use vx_rewrite_fusing::find_between;
pub use vx_rewrite_paths::referenced_field_paths;
pub use vx_rewrite_standard::{BranchRules, Optimize, StandardRules};

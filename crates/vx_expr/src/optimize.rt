//! Bound trees optimized, by the standard rules or by any lawful set.
pub use vx_rewrite::{
    BranchRules, FoldingRules, Optimize, Rule, StandardRules, optimize_root, optimize_with,
    optimized, optimized_root,
};

// The pieces of a tree, the partitions that pack them, and the tree that puts them together again.
#![tactic(auto)]

mod laws;

pub use laws::{replaced_are_typed, replaced_recombine, splits_recombine};

// Bound trees split into partitions by annotations of their nodes.
#![tactic(auto)]

mod collect;
mod fill;
mod found;
mod groups;
mod holes;
mod joined;
mod key;
mod laws;
mod mark;
mod met;
mod names;
mod numbered;
mod pack;
mod partitioned;
mod shown;
mod split;

pub use key::PartitionKey;
pub use laws::field_names_are_free;
pub use partitioned::BoundPartitionedExpr;
pub use split::{partition_bound, partition_bound_annotations, partition_bound_met};

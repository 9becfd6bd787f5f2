// The expression layer under one name, for who uses it: what the crates below have, by subject.
#![tactic(auto)]

pub mod analysis;
pub mod arrays;
pub mod bound;
pub mod display;
pub mod dtype;
pub mod error;
pub mod eval;
pub mod expr;
pub mod functions;
pub mod optimize;
pub mod prelude;
pub mod prune;
pub mod query;
pub mod scan;
pub mod source;
pub mod sql;
pub mod threads;
pub mod transform;
pub mod traversal;
pub mod value;

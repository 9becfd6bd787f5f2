// The field paths of its scope that a bound tree references.
#![tactic(auto)]

mod referenced;
mod request;
mod selection;

pub use referenced::referenced_field_paths;

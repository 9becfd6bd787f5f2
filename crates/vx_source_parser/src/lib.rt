// The parser of source text: from tokens to expressions.
#![tactic(auto)]

mod after;
mod again;
mod begin;
mod brackets;
mod calls;
mod chains;
mod close;
mod comparisons;
mod members;
mod numbers;
mod postfix;
mod predicates;
mod step;
mod steps;
mod values;
mod whole;
mod words;

pub use again::read_again;
pub use vx_source_operands::Places;
pub use whole::{Placed, Readings, parse, parse_open, parse_with, parse_with_places};

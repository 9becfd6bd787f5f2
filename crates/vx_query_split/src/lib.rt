// Trees split by the fields of their scope, and what such splits give over a batch.
#![tactic(auto)]

mod division;
mod evaluation;
mod reading;

pub use division::split_by_fields;
pub use evaluation::evaluate_split;

// Laws of source text: what is written of an expression is read as that expression, and each expression of the program
// is one that a text can say.
#![tactic(auto)]

mod laws;
mod spelled;
mod spelled_trees;

pub use laws::{end_stops, nesting_is_height, source_is_read_again};
pub use spelled::{scalar_is_spelled, type_is_spelled, value_is_spelled};
pub use spelled_trees::{expression_is_spelled, function_is_spelled};

// Where in a tree a refusal of binding or a fault of evaluation is.
#![tactic(auto)]

mod faults;
mod holes;
mod nodes;
mod place;
mod refusals;
mod values;

pub use faults::first_fault_at;
pub use nodes::node_at;
pub use place::Place;
pub use refusals::first_refusal_at;

// Plans as SQL: what of a tree an engine takes, and the statement that it runs.
#![tactic(auto)]

mod columns;
mod laws;
mod plan;
mod pushdown;
mod refusal;

pub use laws::{no_other_fault, others_are_left, pushdown_keeps_the_meaning, pushdown_keeps_types};
pub use plan::{SqlPlan, sql_plan};
pub use pushdown::{Pushdown, push_down};
pub use refusal::NoStatement;

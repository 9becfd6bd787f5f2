// Random expressions, and tables of random rows, for SQL engines.
#![tactic(auto)]

mod grammar;
mod kinds;
mod maker;
mod rows;
mod shows;
mod table;
mod values;

pub use kinds::{Kind, has_measures};
pub use maker::Maker;
pub use rows::{table_kinds, table_rows, table_scope};
pub use shows::shown;
pub use table::{push_digits, push_shown, push_table};

// SQL texts of bound trees, by the engine that they are handed to.
#![tactic(auto)]

mod calculations;
mod children;
mod conversion;
mod dialect;
mod laws;
mod lists;
mod literals;
mod names;
mod patterns;
mod quotes;
mod reasons;
mod text;
mod types;
mod unsupported;
mod walk;
mod words;
mod zeros;

pub use conversion::to_sql;
pub use dialect::Dialect;
pub use laws::{names_read_back, patterns_read_back, texts_read_back};
pub use names::SqlName;
pub use reasons::{column_names, is_escaped, name_reason, spelling_reason};
pub use types::{has_days, has_decimals, has_floats};
pub use unsupported::{Reason, Unsupported};
pub use walk::first_unsupported;
pub use words::{is_one_of, is_word};

// Source text read over a scope: literals without a type take it from what they stand beside.
#![tactic(auto)]

mod error;
mod laws;
mod literals;
mod nodes;
mod peers;
mod searching;
mod settle;
mod whole;
mod written;

pub use error::OverError;
pub use laws::{other_values_stay, reading_over_is_unique, typed_texts_stay, types_alone_change};
pub use literals::is_pointed;
pub use whole::{parse_over, parse_over_with_places};
pub use written::{Written, over, read_open};

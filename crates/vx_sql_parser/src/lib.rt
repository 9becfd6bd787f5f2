// SQL in an engine's own words, read into the expression that means it.
#![tactic(auto)]

mod ahead;
mod calls;
mod cases;
mod cast_types;
mod casts;
mod comments;
mod error;
mod escapes;
mod first;
mod folds;
mod globs;
mod keywords;
mod laws;
mod lengths;
mod lexed;
mod likes;
mod names;
mod octets;
mod patterns;
mod places;
mod quotes;
mod reason;
mod rules;
mod source;
mod state;
mod step;
mod translation;
mod types;
mod whole;

pub use error::SqlError;
pub use laws::{
    written_days_are_read, written_decimals_are_read, written_floats_are_read,
    written_instants_are_read, written_names_are_read, written_numbers_are_read,
    written_texts_are_read, written_types_are_read,
};
pub use reason::Unread;
pub use source::SqlSource;
pub use translation::Place;
pub use whole::{parse_sql, parse_sql_over, sql_source};

// Texts against the patterns of LIKE, and against what they may begin with.
#![tactic(auto)]

mod beginnings;
mod characters;
mod laws;
mod parts;
mod pattern;
mod walk;

pub use beginnings::{beginning_of, begins_with};
pub use characters::split_first;
pub use laws::{accepts_what_is_like, like_is_beginning};
pub use parts::{Part, first_part};
pub use pattern::{Pattern, is_like};

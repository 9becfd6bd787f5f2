// Masks of rows, and columns put together by them.
#![tactic(auto)]

mod bits;
mod choice;
pub mod laws;
mod mask;
mod over;
mod places;
mod pushing;

pub use choice::{Merging, prefer_runs, preferred};
pub use mask::RowMask;
pub use over::{write_moved, write_repeated, write_with};
pub use places::{place_at, place_of_all};
pub use pushing::{push_moved, push_repeated, push_with};

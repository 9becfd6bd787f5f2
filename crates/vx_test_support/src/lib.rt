// What tests share: tables line by line, trees and values of texts, random trees.
#![tactic(auto)]

mod files;
mod grammar;
mod judge;
mod literals;
mod maker;
mod pieces;
mod seeds;
mod table;
mod texts;
mod times;
mod trees;
mod types;
mod unread;

pub use files::judge_files;
pub use judge::{Judge, Judged};
pub use literals::{typed, value, values};
pub use maker::Maker;
pub use pieces::{number, parted};
pub use seeds::Seeds;
pub use table::{Aim, Table, Tally, exit_code};
pub use texts::reads;
pub use times::repeated;
pub use trees::{bound, column, expression};
pub use types::{dtype, i32_type, names};
pub use unread::Unread;

// Evaluation over columns in typed buffers.
#![tactic(auto)]

mod blocks;
mod by_rows;
mod evaluation;
mod few;
mod node;
mod nodes;
mod structs;
mod trees;
mod walks;

pub use evaluation::apply_array;

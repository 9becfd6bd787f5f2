// Evaluation over columns.
#![tactic(auto)]

mod across;
mod arithmetic;
mod beginnings;
mod blocks;
mod byte_lengths;
mod casting;
mod choice;
mod compared;
mod comparison;
mod conjunction;
mod constants;
mod evaluation;
mod fields;
mod filling;
mod logic;
mod matching;
mod membership;
mod merges;
mod merging;
mod nodes;
mod nulls;
mod numbers;
mod packed;
mod rows;
mod searches;
mod text;
mod trees;
mod truths;

pub use across::looks_across;
pub use evaluation::apply_bound;
pub use fields::{place_of, places_of};
pub use matching::first_match;
pub use merges::{merge_compact, merge_runs};
pub use nodes::apply as apply_function;
pub use rows::Rows;
pub use vx_eval_masks::{RowMask, prefer_runs};

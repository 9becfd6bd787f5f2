// Tables of rows: each line a call, what it is made on, and what it has to answer.
#![tactic(auto)]

mod answers;
mod kind;
mod line;
mod refusals;
mod scene;
mod table;
mod told;

pub use table::judge_table;

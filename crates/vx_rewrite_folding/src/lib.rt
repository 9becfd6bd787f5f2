// Folding behind the branch rules, as code: what stands for a node whose value is known before any
// row is read.
#![tactic(auto)]

mod arithmetic;
mod cases;
mod constants;
mod given;
mod known;
mod like;
mod logic;
mod nulls;
mod rules;
mod searches;
mod single;

pub use rules::FoldingRules;

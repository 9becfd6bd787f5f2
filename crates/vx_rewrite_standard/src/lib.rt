// The standard rules and those of a CASE as code, and trees optimized by them.
#![tactic(auto)]

mod branches;
mod cases;
mod optimize;
mod packs;
mod rules;
mod standard;
mod zips;

pub use optimize::Optimize;
pub use rules::BranchRules;
pub use standard::StandardRules;

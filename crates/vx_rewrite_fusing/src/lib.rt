// Range fusing: two comparisons of one item in a conjunction as one Between.
#![tactic(auto)]

mod conjunction;
mod finding;
mod heads;
mod laws;
mod merge;
mod nodes;
mod places;
mod ranges;
mod rest;

pub use finding::find_between;
pub use laws::{
    fused_stays, fusing_is_unique, merge_shortens, merge_stays_fused, merges_end, merges_keep,
};
pub use nodes::{as_and, conjoined};

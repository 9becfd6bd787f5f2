// Bounds of values and what functions give of them, LIKE among them.
#![tactic(auto)]

mod beginning;
mod begun;
mod bounds;
mod comparing;
mod endpoint;
mod joins;
mod kernels;
mod laws;
mod like;
mod searching;
mod shown;
mod spans;
mod truths;

pub use begun::begun_truths;
pub use bounds::Bounds;
pub use comparing::{between_truths, comparison_truths};
pub use endpoint::Endpoint;
pub use joins::is_interval;
pub use kernels::{arithmetic_bounds, choice_bounds, fill_bounds, mask_bounds};
pub use laws::{
    bounds_are_ordered, join_is_the_narrowest_around_both, meet_is_the_widest_within_both,
    values_are_bounds, wider_bounds_contain_more,
};
pub use like::like_truths;
pub use searching::search_truths;
pub use shown::TypedBounds;
pub use truths::Truths;

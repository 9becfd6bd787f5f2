// Functions over columns in typed buffers.
#![tactic(auto)]

mod arithmetic;
mod beginnings;
mod blend;
mod buckets;
mod byte_kind;
mod byte_rows;
mod choices;
mod columns;
mod comparison;
mod float_arithmetic;
mod float_comparison;
mod float_rows;
mod keys;
mod lengths;
mod likeness;
mod logic;
mod masks;
mod member_numbers;
mod member_texts;
mod membership;
mod nulls;
mod number_rows;
mod pair;
mod picked;
mod ranges;
mod reach;
mod text_validity;
mod truths;
mod validity;
mod width;
mod widths;

pub use arithmetic::{computation_of, compute};
pub use beginnings::starts_with;
pub use choices::{case_when, fill_null, zip};
pub use comparison::{compare, comparison_of};
pub use float_arithmetic::compute_floats;
pub use lengths::byte_length;
pub use likeness::like;
pub use logic::{Connective, connect, not};
pub use masks::mask;
pub use membership::list_contains;
pub use nulls::{is_not_null, is_null};
pub use pair::Pair;
pub use ranges::{Range, between};

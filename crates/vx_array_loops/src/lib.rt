// Loops over typed buffers and over words of bits, in a form that compilers turn into vector code.
#![tactic(auto)]

mod bits;
mod choice;
mod comparing;
mod comparison;
mod computation;
mod count;
mod fill;
mod number;
mod signed;
mod unsigned;
mod words;

pub use bits::Bits;
pub use choice::write_where;
pub use comparing::{compare, compare_both};
pub use comparison::Comparison;
pub use computation::Computation;
pub use fill::{first_where, tabulated, write_flagged, write_rows};
pub use number::Number;

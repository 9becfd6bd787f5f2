// Columns in typed buffers.
#![tactic(auto)]

mod array;
mod bit_part;
mod fields;
mod floats;
mod items;
mod lanes;
pub mod laws;
mod masks;
mod nulls;
mod numbers;
mod part;
mod spans;
mod stretch;
mod texts;
mod validity;
mod values;

pub use array::Array;
pub use bit_part::BitPart;
pub use floats::Floats;
pub use lanes::Lanes;
pub use numbers::Numbers;
pub use part::Part;
pub use spans::Spans;
pub use stretch::Stretch;
pub use validity::Validity;
pub use values::{to_values, value_at};

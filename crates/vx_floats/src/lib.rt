// Floating-point numbers by their bits: their order, their arithmetic and their texts.
#![tactic(auto)]

mod arithmetic;
mod decimals;
mod float;
pub mod laws;
mod parts;
mod reading;
mod remainder;
mod texts;

pub use arithmetic::Arithmetic;
pub use float::Float;
pub use reading::read_float;
pub use texts::has_value_text;

// Decimals, days and instants as texts, written and read.
#![tactic(auto)]

mod days;
mod decimals;
mod digits;
mod instants;
pub mod laws;

pub use days::{has_day_text, read_day, write_day};
pub use decimals::{read_decimal, write_decimal};
pub use digits::power_of_ten;
pub use instants::{has_instant_text, read_instant, units_a_second, write_instant};

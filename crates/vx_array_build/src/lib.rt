// Arrays out of vectors, scalars, columns and other arrays.
#![tactic(auto)]

mod bytes;
mod columns;
mod constants;
mod filled;
mod float_bits;
mod floating;
mod floats_builder;
mod gather;
mod joined_bits;
mod lane_types;
mod native;
mod native_floats;
mod numbers;
mod numbers_builder;
mod parts;
mod rows_builder;
mod same;
mod selection;
mod spans_builder;
mod structs;
mod taken;
mod truths;
mod truths_builder;
mod valid_rows;
mod validity;

pub use bytes::{binaries, texts};
pub use columns::from_column;
pub use constants::constant;
pub use float_bits::{FloatBits, bits_of, floats_of};
pub use floating::floats_by_bits;
pub use floats_builder::FloatsBuilder;
pub use gather::are_within;
pub use lane_types::lane_type;
pub use native::Native;
pub use native_floats::{NativeFloat, floats};
pub use numbers::{days, in_lanes, instants, primitive};
pub use numbers_builder::NumbersBuilder;
pub use parts::concat;
pub use rows_builder::RowsBuilder;
pub use selection::{filter, take};
pub use spans_builder::SpansBuilder;
pub use structs::struct_of;
pub use truths::booleans;
pub use truths_builder::TruthsBuilder;

// Source text: expressions, types and scalars as text, and read back.
#![tactic(auto)]

pub use vx_source_over::{
    OverError, Written, is_pointed, over, parse_over, parse_over_with_places, read_open,
};
pub use vx_source_parser::{
    Placed, Places, Readings, parse, parse_open, parse_with, parse_with_places, read_again,
};
pub use vx_source_types::{
    DEFAULT_NESTING, Expected, ParseError, ScalarText, TypeText, parse_scalar, parse_scalar_with,
    parse_type, parse_type_with,
};
pub use vx_source_writer::SourceText;

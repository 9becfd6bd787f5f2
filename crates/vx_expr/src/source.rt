//! Source text: expressions, types and scalars as people write them, and written so that they are read
//! back.
pub use vx_source::{
    DEFAULT_NESTING, Expected, OverError, ParseError, Placed, Places, ScalarText, SourceText,
    TypeText, Written, over, parse, parse_over, parse_over_with_places, parse_scalar,
    parse_scalar_with, parse_type, parse_type_with, parse_with, parse_with_places, read_open,
};

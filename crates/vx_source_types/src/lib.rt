// Source text of types and scalars: its tokens, written, and parsed back.
#![tactic(auto)]

mod blanks;
mod error;
mod expectation;
mod first;
mod literal;
mod names;
mod notation;
mod number;
mod point;
mod quotes;
mod scalar_parser;
mod scalar_text;
mod signs;
mod state;
mod token;
mod type_parser;
mod type_parts;
mod type_reader;
mod type_state;
mod type_text;
mod type_words;
mod typed_value;
mod value_reader;
mod value_state;
mod words;

pub use error::ParseError;
pub use expectation::Expected;
pub use first::{Found, first_token};
pub use literal::{number_literal, open_literal, plain_literal, typed_literal};
pub use names::{NameText, field_name, is_word, write_name, write_names};
pub use scalar_parser::{ScalarMode, ScalarStep, parse_scalar, parse_scalar_with, suffixed};
pub use scalar_text::{ScalarText, write_scalar};
pub use state::{expected, inside, refusal};
pub use token::{Sign, Token};
pub use type_parser::{DEFAULT_NESTING, parse_type, parse_type_with};
pub use type_reader::length_of;
pub use type_state::{FieldsSoFar, TypeFrame, TypeMode, TypeReader, TypeStep};
pub use type_text::{TypeText, write_type};
pub use value_state::{Draft, ItemsSoFar, ValueFrame, ValueMode, ValueReader, ValueStep};

// Values, scalars, columns and field paths, over the types of the crate below.
#![tactic(auto)]

mod column;
mod column_rows;
mod field_path;
mod field_path_set;
mod fits;
pub mod laws;
mod notation;
mod scalar;
mod struct_column;
mod taking;
mod value;
mod value_texts;

pub use column::Column;
pub use field_path::{Field, FieldPath};
pub use field_path_set::{FieldPathSet, FieldPaths};
pub use notation::{ValueNotation, write_value_in};
pub use scalar::Scalar;
pub use taking::{TakeRow, take_row};
pub use value::Value;

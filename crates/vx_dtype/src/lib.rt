// Names, types of columns and refusals.
#![tactic(auto)]

mod copied;
mod decimal_type;
mod dtype;
mod equality;
mod error;
mod fields;
mod float_type;
mod hashed;
mod joins;
pub mod laws;
mod name_list;
mod names;
mod notation;
mod quotes;
mod shown;
mod timestamp_type;

pub use decimal_type::DecimalType;
pub use dtype::{DType, Nullability, PType, StructFields};
pub use error::{VortexError, VortexResult};
pub use float_type::FloatType;
pub use names::{FieldName, FieldNames, names_without};
pub use notation::{TypeNotation, write_type_in};
pub use quotes::write_quoted;
pub use shown::{Shown, separator};
pub use timestamp_type::{TimeUnit, TimestampType};

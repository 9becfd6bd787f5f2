//! Values, scalars, columns, and the paths of fields in them. A floating-point number is a [`Float`], by its bits.
pub use vx_floats::Float;
pub use vx_forms::{
    IntoScalar, Native, column, column_of, date, decimal, scalar, struct_column, struct_row,
    timestamp,
};
pub use vx_tree::{Column, Field, FieldPath, FieldPathSet, Scalar, Value};

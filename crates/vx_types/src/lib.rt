// Types and values under one name: what the three crates below have.
#![tactic(auto)]

pub mod laws;

pub use vx_dtype::{
    DType, DecimalType, FieldName, FieldNames, FloatType, Nullability, PType, StructFields,
    TimeUnit, TimestampType, VortexError, VortexResult, names_without,
};
pub use vx_floats::{Arithmetic, Float};
pub use vx_value::{Column, Field, FieldPath, FieldPathSet, FieldPaths, Scalar, Value};

//! Types, names, and what a call refuses with. Types are of truth values, whole numbers ([`PType`]), floating-point
//! numbers ([`FloatType`]), decimals, days, instants, texts, bytes, lists and structs.
pub use vx_dtype::{DecimalType, FloatType, TimeUnit, TimestampType};
pub use vx_forms::{IntoFieldName, IntoFieldNames, struct_type};
pub use vx_tree::{
    DType, FieldName, FieldNames, Nullability, PType, StructFields, VortexError, VortexResult,
};

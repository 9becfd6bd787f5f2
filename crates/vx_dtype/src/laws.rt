// What `==` says of names and types, what unions are, and that threads may share types.
ghost use Rattle.std.specs.Prelude.{◌≡◌, ◌↔◌, Some, IsTrue, IsSome};
ghost use Rattle.vx_dtype.specs.Types.{LogicalType};
ghost use Rattle.vx_dtype.specs.Joins.{union, Narrower};
ghost use Rattle.vx_dtype.specs.Views.{type_of, fields_of};

use crate::{DType, FieldName, FieldNames, StructFields};

/// Names are equal exactly where they are spelled alike.
pub fn names_are_equal_exactly(a: &FieldName, b: &FieldName) -> bool
    ensures { IsTrue result ↔ (a.now ≡ b.now) }
{
    a == b
}

/// Lists of names are equal exactly where they have the same names in the same order.
pub fn name_lists_are_equal_exactly(a: &FieldNames, b: &FieldNames) -> bool
    ensures { IsTrue result ↔ (a.now ≡ b.now) }
{
    a == b
}

/// Types are equal exactly where they are the same at every level, nullability and names included.
pub fn types_are_equal_exactly(a: &DType, b: &DType) -> bool
    ensures { IsTrue result ↔ (type_of a.now ≡ type_of b.now) }
{
    a == b
}

/// Fields are equal exactly where they have the same names and types in the same order.
pub fn fields_are_equal_exactly(a: &StructFields, b: &StructFields) -> bool
    ensures { IsTrue result ↔ (fields_of a.now ≡ fields_of b.now) }
{
    a == b
}

/// The union of two types is above both, and narrower than every type above both; it is there
/// wherever some type is above both.
pub fn union_is_the_narrowest_above_both()
    ensures first { (t u w : LogicalType) → union t u ≡ Some w → Narrower t w }
    ensures second { (t u w : LogicalType) → union t u ≡ Some w → Narrower u w }
    ensures narrowest { (t u w v : LogicalType) → union t u ≡ Some w → Narrower t v → Narrower u v → Narrower w v }
    ensures there { (t u v : LogicalType) → Narrower t v → Narrower u v → IsSome (union t u) }
{}

/// Types and names may be sent to other threads and shared with them: this compiles.
pub fn types_are_send_and_sync(dtype: &DType, names: &FieldNames) {
    assert_send_sync(dtype);
    assert_send_sync(names);
}

/// Compiles for a value that may be sent to other threads and shared with them, and for no other.
pub fn assert_send_sync<T: Send + Sync>(value: &T) {
    let _value = value;
}

// What `==` says of values, what misfits are, and what joined columns hold.
ghost use Rattle.std.specs.Prelude.{◌≡◌, ◌↔◌, ◌<◌, ℕ, get_or, List, Some, None, IsTrue};
ghost use Rattle.vx_value.specs.Types.{LogicalType, Datum, null, struct_of};
ghost use Rattle.vx_value.specs.Fits.{Fits, IsBatch};
ghost use Rattle.vx_value.specs.Columns.{first_misfit, IsFirstMisfit};
ghost use Rattle.vx_value.specs.Fields.{data_of};
ghost use Rattle.vx_value.specs.Joins.{Narrower};
ghost use Rattle.vx_value.specs.StructColumns.{row_at, struct_rows};
ghost use Rattle.vx_value.specs.Views.{value_of};

use crate::{Column, FieldPath, Scalar, Value};
use vx_dtype::laws::assert_send_sync;

/// Values are equal exactly where they are the same.
pub fn values_are_equal_exactly(a: &Value, b: &Value) -> bool
    ensures { IsTrue result ↔ (value_of a.now ≡ value_of b.now) }
{
    a == b
}

/// Scalars are equal exactly where their types and their values are the same.
pub fn scalars_are_equal_exactly(a: &Scalar, b: &Scalar) -> bool
    ensures { IsTrue result ↔ (a.now ≡ b.now) }
{
    a == b
}

/// Columns are equal exactly where their types are the same, and their rows in the same order.
pub fn columns_are_equal_exactly(a: &Column, b: &Column) -> bool
    ensures { IsTrue result ↔ (a.now ≡ b.now) }
{
    a == b
}

/// A value of a type is one of every type above it, so of its union with another too.
pub fn values_stay_values_above()
    ensures { (v : Datum) → (t u : LogicalType) → Narrower t u → Fits v t → Fits v u }
{}

/// The first misfit is a row that isn't a value of the type, and each row before it is one;
/// without a misfit each row is one.
pub fn first_misfit_is_the_first()
    ensures misfit { (t : LogicalType) → (rows : List Datum) → (i : ℕ) → first_misfit t rows ≡ Some i → IsFirstMisfit t rows i }
    ensures none { (t : LogicalType) → (rows : List Datum) → (first_misfit t rows ≡ None) ↔ IsBatch t rows }
{}

/// Row k of joined columns is the struct of the columns' values in their rows k.
pub fn joined_rows_are_the_columns_rows()
    ensures { (n : ℕ) → (columns : List (List Datum)) → (k : ℕ) → k < n → get_or (struct_rows n columns) k null ≡ struct_of (data_of (row_at k columns)) }
{}

/// Values, scalars, columns and paths may be sent to other threads and shared with them: this compiles.
pub fn values_are_send_and_sync(value: &Value, scalar: &Scalar, column: &Column, path: &FieldPath) {
    assert_send_sync(value);
    assert_send_sync(scalar);
    assert_send_sync(column);
    assert_send_sync(path);
}

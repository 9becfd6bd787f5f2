// Comparisons of floating-point numbers that may be of -0 with 0, which engines take for one number.
ghost use Rattle.std.specs.Prelude.{◌≡◌};
ghost use Rattle.vx_value.specs.Views.{type_of, value_of};
ghost use Rattle.vx_tree.specs.Views.{bounds_of};
ghost use Rattle.vx_sql.specs.Zeros.{is_zero, no_zero, no_zero_at, is_float, has_float_first, mixes_zeros, mixes_zeros_between};

use crate::children::{child_at, literal_in};
use vx_dtype::DType;
use vx_floats::Float;
use vx_tree::BoundExpression;
use vx_value::Value;

/// Whether a comparison of two children may be of -0 with 0: they are floating-point numbers, and none is a literal
/// that is neither.
pub(crate) fn mixes_zeros(children: &[BoundExpression]) -> bool
    ensures { result ≡ mixes_zeros (bounds_of children.now) }
{
    has_float_first(children) && !(no_zero_at(children, 0) || no_zero_at(children, 1))
}

/// The same of the first child and two bounds.
pub(crate) fn mixes_zeros_between(children: &[BoundExpression]) -> bool
    ensures { result ≡ mixes_zeros_between (bounds_of children.now) }
{
    has_float_first(children)
        && !(no_zero_at(children, 0) || (no_zero_at(children, 1) && no_zero_at(children, 2)))
}

fn has_float_first(children: &[BoundExpression]) -> bool
    ensures { result ≡ has_float_first (bounds_of children.now) }
{
    match child_at(children, 0) {
        Some(child) => is_float(child.dtype()),
        None => false,
    }
}

/// Whether the child at that index is a literal, and neither 0 nor -0.
pub(crate) fn no_zero_at(children: &[BoundExpression], index: usize) -> bool
    ensures { result ≡ no_zero_at (bounds_of children.now) index }
{
    match child_at(children, index) {
        Some(child) => match literal_in(child) {
            Some(scalar) => no_zero(scalar.value()),
            None => false,
        },
        None => false,
    }
}

/// Whether values of the type are floating-point numbers.
pub(crate) fn is_float(dtype: &DType) -> bool
    ensures { result ≡ is_float (type_of dtype.now) }
{
    matches!(dtype, DType::Float(..))
}

/// Whether the value is neither 0 nor -0.
pub(crate) fn no_zero(value: &Value) -> bool
    ensures { result ≡ no_zero (value_of value.now) }
{
    match value {
        Value::Float(number) => !is_zero(*number),
        _ => true,
    }
}

// Whether the number is 0 or -0, whose sign alone is set.
fn is_zero(number: Float) -> bool
    ensures { result ≡ is_zero number }
{
    match number {
        Float::F32(bits) => bits == 0 || bits == 0x8000_0000,
        Float::F64(bits) => bits == 0 || bits == 0x8000_0000_0000_0000,
    }
}

// The literal lists that values are looked up in.
ghost use Rattle.std.specs.Prelude.{◌≡◌, option_map};
ghost use Rattle.vx_value.specs.Views.{type_of, value_of, data_view};
ghost use Rattle.vx_fn.specs.Values as values;
ghost use Rattle.vx_tree.specs.Views.{bounds_of};
ghost use Rattle.vx_sql.specs.Lists.{item_type, items_in, has_items, no_zeros, literal_first};
ghost use Rattle.vx_sql.specs.Reasons.{mixes_zeros_in, items_reason, list_reason, membership_reason};

use crate::children::{child_at, literal_in};
use crate::reasons::literal_reason;
use crate::unsupported::Reason;
use crate::zeros::{is_float, no_zero, no_zero_at};
use vx_dtype::DType;
use vx_tree::BoundExpression;
use vx_value::{Scalar, Value};

/// The literal that the first child is.
pub(crate) fn literal_first(children: &[BoundExpression]) -> Option<&Scalar>
    ensures { option_map (λ s. s.now) result ≡ literal_first (bounds_of children.now) }
{
    match child_at(children, 0) {
        Some(child) => literal_in(child),
        None => None,
    }
}

/// The type of a list's elements.
pub(crate) fn item_type(dtype: &DType) -> &DType
    ensures { type_of result.now ≡ item_type (type_of dtype.now) }
{
    match dtype {
        DType::List(item, _) => item.as_ref(),
        _ => dtype,
    }
}

// The elements of a list, none of another value.
fn items_in(value: &Value) -> &[Value]
    ensures { data_view result.now ≡ items_in (value_of value.now) }
{
    match value {
        Value::List(items) => items.as_slice(),
        _ => &[],
    }
}

/// Why the second child isn't looked up in the first: that is no literal list; the reason of comparisons; those of the
/// elements.
pub(crate) fn membership_reason(children: &[BoundExpression]) -> Option<Reason>
    ensures { result ≡ membership_reason (bounds_of children.now) }
{
    match literal_first(children) {
        Some(list) => list_reason(item_type(list.dtype()), items_in(list.value()), children),
        None => Some(Reason::UnknownFunction),
    }
}

fn list_reason(dtype: &DType, items: &[Value], children: &[BoundExpression]) -> Option<Reason>
    ensures { result ≡ list_reason (type_of dtype.now) (data_view items.now) (bounds_of children.now) }
{
    if mixes_zeros_in(dtype, items, children) {
        return Some(Reason::FloatOrder);
    }
    items_reason(dtype, items)
}

/// Whether there is an element.
pub(crate) fn has_items(items: &[Value]) -> bool
    ensures { result ≡ has_items (data_view items.now) }
{
    !items.is_empty()
}

// Whether the second child may be -0 where an element is 0, or 0 where one is -0.
fn mixes_zeros_in(dtype: &DType, items: &[Value], children: &[BoundExpression]) -> bool
    ensures { result ≡ mixes_zeros_in (type_of dtype.now) (data_view items.now) (bounds_of children.now) }
{
    is_float(dtype) && !(no_zero_at(children, 1) || no_zeros(items))
}

/// Whether some element is null.
pub(crate) fn has_null(items: &[Value]) -> bool
    ensures { result ≡ values.has_null (data_view items.now) }
{
    for item in items {
        if item.is_null() {
            return true;
        }
    }
    false
}

// Whether none of them is 0 or -0.
fn no_zeros(items: &[Value]) -> bool
    ensures { result ≡ no_zeros (data_view items.now) }
{
    for item in items {
        if !no_zero(item) {
            return false;
        }
    }
    true
}

// The first reason of one of these literals.
fn items_reason(dtype: &DType, items: &[Value]) -> Option<Reason>
    ensures { result ≡ items_reason (type_of dtype.now) (data_view items.now) }
{
    for item in items {
        if let Some(reason) = literal_reason(dtype, item) {
            return Some(reason);
        }
    }
    None
}

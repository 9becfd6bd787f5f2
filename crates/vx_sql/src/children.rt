// The children of a node, and what is asked of them.
ghost use Rattle.std.specs.Prelude.{◌≡◌, option_map};
ghost use Rattle.vx_value.specs.Views.{type_of};
ghost use Rattle.vx_fn.specs.Functions.{is_text, is_atomic};
ghost use Rattle.vx_tree.specs.Nodes.{bound_at};
ghost use Rattle.vx_tree.specs.Views.{bound_of, bounds_of};
ghost use Rattle.vx_sql.specs.Children.{is_row, has_text_first, is_string, has_string_first, is_struct, has_struct_first, has_atomic_first, literal_in, admits_null_at};

use vx_dtype::DType;
use vx_fn::ScalarFnRef;
use vx_tree::BoundExpression;
use vx_value::Scalar;

/// The child at that index, if there is one.
pub(crate) fn child_at(children: &[BoundExpression], index: usize) -> Option<&BoundExpression>
    ensures { option_map (λ b. bound_of b.now) result ≡ bound_at (bounds_of children.now) index }
{
    if index < children.len() {
        Some(&children[index])
    } else {
        None
    }
}

/// Whether the first child is the row of the scope.
pub(crate) fn is_row(children: &[BoundExpression]) -> bool
    ensures { result ≡ is_row (bounds_of children.now) }
{
    match child_at(children, 0) {
        Some(child) => child.is_root(),
        None => false,
    }
}

/// Whether the first child is a text.
pub(crate) fn has_text_first(children: &[BoundExpression]) -> bool
    ensures { result ≡ has_text_first (bounds_of children.now) }
{
    match child_at(children, 0) {
        Some(child) => is_text(child.dtype()),
        None => false,
    }
}

/// Whether the first child is a text or bytes.
pub(crate) fn has_string_first(children: &[BoundExpression]) -> bool
    ensures { result ≡ has_string_first (bounds_of children.now) }
{
    match child_at(children, 0) {
        Some(child) => is_string(child.dtype()),
        None => false,
    }
}

/// Whether the first child is a struct.
pub(crate) fn has_struct_first(children: &[BoundExpression]) -> bool
    ensures { result ≡ has_struct_first (bounds_of children.now) }
{
    match child_at(children, 0) {
        Some(child) => is_struct(child.dtype()),
        None => false,
    }
}

/// Whether the first child is a value without parts.
pub(crate) fn has_atomic_first(children: &[BoundExpression]) -> bool
    ensures { result ≡ has_atomic_first (bounds_of children.now) }
{
    match child_at(children, 0) {
        Some(child) => is_atomic(child.dtype()),
        None => false,
    }
}

/// Whether the child at that index may be null.
pub(crate) fn admits_null_at(children: &[BoundExpression], index: usize) -> bool
    ensures { result ≡ admits_null_at (bounds_of children.now) index }
{
    match child_at(children, index) {
        Some(child) => child.dtype().is_nullable(),
        None => false,
    }
}

/// Whether values of the type are texts.
pub(crate) fn is_text(dtype: &DType) -> bool
    ensures { result ≡ is_text (type_of dtype.now) }
{
    matches!(dtype, DType::Utf8(_))
}

fn is_string(dtype: &DType) -> bool
    ensures { result ≡ is_string (type_of dtype.now) }
{
    matches!(dtype, DType::Utf8(_) | DType::Binary(_))
}

fn is_struct(dtype: &DType) -> bool
    ensures { result ≡ is_struct (type_of dtype.now) }
{
    matches!(dtype, DType::Struct(..))
}

/// Whether values of the type have no parts.
pub(crate) fn is_atomic(dtype: &DType) -> bool
    ensures { result ≡ is_atomic (type_of dtype.now) }
{
    match dtype {
        DType::Bool(_) | DType::Utf8(_) | DType::Binary(_) => true,
        DType::Primitive(..) | DType::Float(..) | DType::Decimal(..) => true,
        DType::Date(_) | DType::Timestamp(..) => true,
        DType::List(..) | DType::FixedSizeList(..) | DType::Struct(..) => false,
    }
}

/// The literal that the tree is.
pub(crate) fn literal_in(b: &BoundExpression) -> Option<&Scalar>
    ensures { option_map (λ s. s.now) result ≡ literal_in (bound_of b.now) }
{
    match b {
        BoundExpression::Scalar { scalar_fn, .. } => match scalar_fn {
            ScalarFnRef::Literal(scalar) => Some(scalar),
            _ => None,
        },
        BoundExpression::Root { .. } => None,
    }
}

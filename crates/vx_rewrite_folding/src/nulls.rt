// Comparisons with the null literal, and tests by bounds that are.
ghost use Rattle.std.specs.Prelude.{◌≡◌, ◌||◌, ◌&&◌, Bool};
ghost use Rattle.std.specs.Option.{option_map};
ghost use Rattle.vx_value.specs.Types.{is_null_datum};
ghost use Rattle.vx_value.specs.Views.{type_of};
ghost use Rattle.vx_fn.specs.Functions.{between};
ghost use Rattle.vx_rewrite_folding.specs.Known.{tree_of};
ghost use Rattle.vx_rewrite_rule_laws.specs.Folding.{comparison_given, is_literal_of, known_given};
ghost use Rattle.vx_tree.specs.Trees.{node};
ghost use Rattle.vx_tree.specs.Views.{bound_of, bounds_of};

use crate::known::Known;
use vx_dtype::DType;
use vx_rewrite_core::{literal_value, triple};
use vx_tree::BoundExpression;

// What is known of a comparison of the type: with a null it is null.
pub(crate) fn known_of_comparison<'a>(
    dtype: &'a DType,
    left: &BoundExpression,
    right: &BoundExpression,
) -> Option<Known<'a>>
    ensures { option_map tree_of result ≡ comparison_given (type_of dtype.now) (bound_of left.now) (bound_of right.now) }
{
    if is_null_literal(left) || is_null_literal(right) {
        return Some(Known::Null(dtype));
    }
    None
}

// What is known of a test of the type by two bounds: of a null, or by two nulls, it is null. One null bound doesn't
// decide, since the other may say false.
pub(crate) fn known_of_between<'a>(
    dtype: &'a DType,
    children: &[BoundExpression],
) -> Option<Known<'a>>
    ensures { (lower_strict upper_strict : Bool) → option_map tree_of result ≡ known_given (node (type_of dtype.now) (between lower_strict upper_strict) (bounds_of children.now)) }
{
    match triple(children) {
        Some((tested, lower, upper)) if decides_null(tested, lower, upper) => {
            Some(Known::Null(dtype))
        }
        _ => None,
    }
}

// Whether what is tested is a null literal, or both bounds are.
fn decides_null(tested: &BoundExpression, lower: &BoundExpression, upper: &BoundExpression) -> bool
    ensures { result ≡ (is_literal_of is_null_datum (bound_of tested.now) || (is_literal_of is_null_datum (bound_of lower.now) && is_literal_of is_null_datum (bound_of upper.now))) }
{
    is_null_literal(tested) || is_null_literal(lower) && is_null_literal(upper)
}

// Whether the tree is a null literal.
fn is_null_literal(tree: &BoundExpression) -> bool
    ensures { result ≡ is_literal_of is_null_datum (bound_of tree.now) }
{
    match literal_value(tree) {
        Some(scalar) => scalar.is_null(),
        None => false,
    }
}

// What a function knows by its child alone: a negation undone or of a test for null, a cast to the child's own type, a mask
// that is always true, a test for null of what is never null.
ghost use Rattle.std.specs.Prelude.{◌≡◌, Ok, option_and_then};
ghost use Rattle.std.specs.Option.{option_map};
ghost use Rattle.vx_value.specs.Returns.{ReturnsOrOom};
ghost use Rattle.vx_value.specs.Views.{type_of};
ghost use Rattle.vx_fn.specs.Values.{is_true};
ghost use Rattle.vx_rewrite_folding.specs.Known.{tree_of};
ghost use Rattle.vx_rewrite_rule_laws.specs.Folding.{cast_given, is_literal_of, mask_given, not_given, null_test, test_given};
ghost use Rattle.vx_rewrite_core.specs.Nodes.{only_one, two_of};
ghost use Rattle.vx_tree.specs.Views.{bound_of, bounds_of};

use crate::known::Known;
use std::alloc::Global;
use vx_dtype::{DType, Nullability};
use vx_fn::{EmptyOptions, ScalarFnRef};
use vx_rewrite_core::{literal_value, only, pair};
use vx_tree::{BoundExpression, VortexResult};
use vx_value::Value;

// What is known of a negation: of a negation, what that negates, and of a test for null the other test.
pub(crate) fn known_of_not<'a>(children: &'a [BoundExpression]) -> Option<Known<'a>>
    ensures { option_map tree_of result ≡ option_and_then not_given (only_one (bounds_of children.now)) }
{
    let BoundExpression::Scalar {
        scalar_fn,
        children,
        ..
    } = only(children)?
    else {
        return None;
    };
    let operand = only(children.as_slice())?;
    match scalar_fn {
        ScalarFnRef::Not(_) => Some(Known::Tree(operand)),
        ScalarFnRef::IsNull(_) => Some(Known::NullTest(false, operand)),
        ScalarFnRef::IsNotNull(_) => Some(Known::NullTest(true, operand)),
        _ => None,
    }
}

// The test whether the tree is null, or that it is not.
pub(crate) fn null_test(
    alloc: Global,
    is_null: bool,
    tested: &BoundExpression,
) -> VortexResult<BoundExpression>
    ensures { ReturnsOrOom bound_of result (Ok (null_test is_null (bound_of tested.now))) }
{
    let children = vec![in alloc; tested.clone()?]?;
    let function = if is_null {
        ScalarFnRef::IsNull(EmptyOptions)
    } else {
        ScalarFnRef::IsNotNull(EmptyOptions)
    };
    let dtype = DType::Bool(Nullability::NonNullable);
    BoundExpression::new_typed(alloc, dtype, function, children)
}

// What is known of a cast to the type: of a tree of that type, the tree.
pub(crate) fn known_of_cast<'a>(dtype: &DType, children: &'a [BoundExpression]) -> Option<Known<'a>>
    ensures { option_map tree_of result ≡ option_and_then (cast_given (type_of dtype.now)) (only_one (bounds_of children.now)) }
{
    match only(children) {
        Some(input) if input.dtype() == dtype => Some(Known::Tree(input)),
        _ => None,
    }
}

// What is known of a mask: by the literal true, the input.
pub(crate) fn known_of_mask<'a>(children: &'a [BoundExpression]) -> Option<Known<'a>>
    ensures { option_map tree_of result ≡ option_and_then (λ p. mask_given p.0 p.1) (two_of (bounds_of children.now)) }
{
    match pair(children) {
        Some((input, mask)) if is_true_literal(mask) => Some(Known::Tree(input)),
        _ => None,
    }
}

// What is known of a test for null with that answer where there is no null: the answer, if the type
// of what is tested has none.
pub(crate) fn known_of_test<'a>(answer: bool, children: &[BoundExpression]) -> Option<Known<'a>>
    ensures { option_map tree_of result ≡ option_and_then (test_given answer) (only_one (bounds_of children.now)) }
{
    match only(children) {
        Some(tested) if !tested.dtype().is_nullable() => Some(Known::Truth(answer)),
        _ => None,
    }
}

// Whether the tree is the literal true.
fn is_true_literal(tree: &BoundExpression) -> bool
    ensures { result ≡ is_literal_of is_true (bound_of tree.now) }
{
    match literal_value(tree) {
        Some(scalar) => matches!(scalar.value(), Value::Bool(true)),
        None => false,
    }
}

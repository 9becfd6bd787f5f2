// Searches in lists that are literals.
ghost use Rattle.std.specs.Prelude.{◌≡◌, ◌∷◌, [], IsTrue, option_map};
ghost use Rattle.vx_value.specs.Views.{data_view, value_of};
ghost use Rattle.vx_fn.specs.Views.{function_of};
ghost use Rattle.vx_tree.specs.Views.{bound_of};
ghost use Rattle.vx_prune_bounds.specs.Views.{bounds_view};
ghost use Rattle.vx_prune_tree.specs.Bounding.{elements_of, given_bounds, literal_elements, searched_in};
ghost use Rattle.vx_prune_tree.specs.Cases.{is_of_children};

use crate::functions::put_of_two;
use vx_fn::ScalarFnRef;
use vx_prune_bounds::{Bounds, search_truths};
use vx_tree::BoundExpression;
use vx_value::Value;

// Puts those of a function of two children in the place of the first child's: of a search in a list
// that is a literal by its elements. That isn't inlined into the recursion over a tree.
#[inline(never)]
pub(crate) fn put_of_first<'a>(
    f: &ScalarFnRef,
    first: &BoundExpression,
    x: &mut Bounds<'a>,
    y: &Bounds<'a>,
)
    requires { IsTrue (is_of_children (function_of f.now)) }
    ensures { bounds_view x.new ≡ given_bounds (function_of f.now) (searched_in (function_of f.now) (bound_of first.now)) (bounds_view x.old ∷ bounds_view y.now ∷ []) }
{
    match searched(f, first) {
        Some(elements) => *x = Bounds::of_truths(search_truths(elements, y)),
        None => put_of_two(f, x, y),
    }
}

// The elements that a function of two children searches, if the first is a literal list.
fn searched<'a>(f: &ScalarFnRef, list: &'a BoundExpression) -> Option<&'a [Value]>
    ensures { option_map (λ vs. data_view vs.now) result ≡ searched_in (function_of f.now) (bound_of list.now) }
{
    match f {
        ScalarFnRef::ListContains(_) => literal_elements(list),
        _ => None,
    }
}

// The elements of a list that is a literal.
fn literal_elements<'a>(list: &'a BoundExpression) -> Option<&'a [Value]>
    ensures { option_map (λ vs. data_view vs.now) result ≡ literal_elements (bound_of list.now) }
{
    match list {
        BoundExpression::Root { .. } => None,
        BoundExpression::Scalar { scalar_fn, .. } => match scalar_fn {
            ScalarFnRef::Literal(scalar) => elements_of(scalar.value()),
            _ => None,
        },
    }
}

// The elements of a list.
fn elements_of<'a>(value: &'a Value) -> Option<&'a [Value]>
    ensures { option_map (λ vs. data_view vs.now) result ≡ elements_of (value_of value.now) }
{
    match value {
        Value::List(elements) => Some(elements.as_slice()),
        _ => None,
    }
}

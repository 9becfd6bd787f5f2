// Trees with a search in a long literal list.
ghost use Rattle.std.specs.Prelude.{◌≡◌};
ghost use Rattle.vx_value.specs.Views.{value_of};
ghost use Rattle.vx_fn.specs.Views.{function_of};
ghost use Rattle.vx_tree.specs.Views.{bound_of, bounds_of};
ghost use Rattle.vx_eval.specs.Searches.{is_long, is_long_list, is_search, searches};

use vx_fn::ScalarFnRef;
use vx_tree::BoundExpression;
use vx_value::Value;

// A list of more elements than these is made ready for look-ups once, and not anew for each block of rows.
const LONG: usize = 64;

/// Whether some node of the tree searches in a literal list of more than 64 elements.
pub fn searches(b: &BoundExpression) -> bool
    ensures { result ≡ searches (bound_of b.now) }
{
    match b {
        BoundExpression::Root { .. } => false,
        BoundExpression::Scalar {
            scalar_fn,
            children,
            ..
        } => {
            let children = children.as_slice();
            if is_search(scalar_fn, children) {
                return true;
            }
            for child in children {
                if searches(child) {
                    return true;
                }
            }
            false
        }
    }
}

// Whether a node of the function over these children does.
fn is_search(f: &ScalarFnRef, children: &[BoundExpression]) -> bool
    ensures { result ≡ is_search (function_of f.now) (bounds_of children.now) }
{
    match f {
        ScalarFnRef::ListContains(_) => match children {
            [list, ..] => is_long(list),
            [] => false,
        },
        _ => false,
    }
}

// Whether the tree is such a list.
fn is_long(b: &BoundExpression) -> bool
    ensures { result ≡ is_long (bound_of b.now) }
{
    match b {
        BoundExpression::Root { .. } => false,
        BoundExpression::Scalar { scalar_fn, .. } => match scalar_fn {
            ScalarFnRef::Literal(scalar) => is_long_list(scalar.value()),
            _ => false,
        },
    }
}

// Whether the value is such a list.
fn is_long_list(value: &Value) -> bool
    ensures { result ≡ is_long_list (value_of value.now) }
{
    match value {
        Value::List(items) => items.len() > LONG,
        _ => false,
    }
}

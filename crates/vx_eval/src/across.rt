// Trees with a node that looks across rows.
ghost use Rattle.std.specs.Prelude.{◌≡◌};
ghost use Rattle.vx_fn.specs.Views.{function_of};
ghost use Rattle.vx_tree.specs.Views.{bound_of, bounds_of};
ghost use Rattle.vx_eval.specs.Across.{is_across, is_literal, looks_across};

use vx_fn::ScalarFnRef;
use vx_tree::BoundExpression;

/// Whether some node of the tree looks across rows: one that fills nulls by what isn't a literal,
/// since its fills have to be one value in all rows.
pub fn looks_across(b: &BoundExpression) -> bool
    ensures { result ≡ looks_across (bound_of b.now) }
{
    match b {
        BoundExpression::Root { .. } => false,
        BoundExpression::Scalar {
            scalar_fn,
            children,
            ..
        } => {
            let children = children.as_slice();
            if is_across(scalar_fn, children) {
                return true;
            }
            for child in children {
                if looks_across(child) {
                    return true;
                }
            }
            false
        }
    }
}

// Whether a node of the function over these children does.
fn is_across(f: &ScalarFnRef, children: &[BoundExpression]) -> bool
    ensures { result ≡ is_across (function_of f.now) (bounds_of children.now) }
{
    match f {
        ScalarFnRef::FillNull(_) => match children {
            [_, fill] => !is_literal(fill),
            _ => true,
        },
        _ => false,
    }
}

// Whether the tree is a literal.
fn is_literal(b: &BoundExpression) -> bool
    ensures { result ≡ is_literal (bound_of b.now) }
{
    match b {
        BoundExpression::Root { .. } => false,
        BoundExpression::Scalar { scalar_fn, .. } => matches!(scalar_fn, ScalarFnRef::Literal(_)),
    }
}

// Trees whose first node walks over rows, and one below it, too.
ghost use Rattle.std.specs.Prelude.{◌≡◌};
ghost use Rattle.vx_fn.specs.Views.{function_of};
ghost use Rattle.vx_tree.specs.Views.{bound_of, bounds_of};
ghost use Rattle.vx_array_eval.specs.Walks.{has_walk, some_walk, walks, walks_twice};

use vx_fn::ScalarFnRef;
use vx_tree::BoundExpression;

/// Whether the tree's first node walks over rows, and some node below it. What the lower ones make is read
/// again then, which is quick while it is in the processor's cache.
pub fn walks_twice(b: &BoundExpression) -> bool
    ensures { result ≡ walks_twice (bound_of b.now) }
{
    match b {
        BoundExpression::Root { .. } => false,
        BoundExpression::Scalar {
            scalar_fn,
            children,
            ..
        } => walks(scalar_fn) && some_walk(children.as_slice()),
    }
}

// Whether some node of the trees walks over rows.
#[cycle(walk)]
fn some_walk(trees: &[BoundExpression]) -> bool
    ensures { result ≡ some_walk (bounds_of trees.now) }
{
    for tree in trees {
        if has_walk(tree) {
            return true;
        }
    }
    false
}

// Whether some node of the tree does.
#[cycle(walk)]
fn has_walk(b: &BoundExpression) -> bool
    ensures { result ≡ has_walk (bound_of b.now) }
{
    match b {
        BoundExpression::Root { .. } => false,
        BoundExpression::Scalar {
            scalar_fn,
            children,
            ..
        } => walks(scalar_fn) || some_walk(children.as_slice()),
    }
}

// Whether the function walks over rows: those that share columns don't.
fn walks(f: &ScalarFnRef) -> bool
    ensures { result ≡ walks (function_of f.now) }
{
    !matches!(
        f,
        ScalarFnRef::Literal(_)
            | ScalarFnRef::GetItem(_)
            | ScalarFnRef::Pack(_)
            | ScalarFnRef::Select(_)
    )
}

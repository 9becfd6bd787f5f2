// The node of a function over children of either kind. They are pushed one by one, since no array of
// a type parameter can be handed on: nothing says that it fits into memory.
ghost use Rattle.std.specs.Prelude.{◌≡◌, [], ◌∷◌};
ghost use Rattle.vx_fn.specs.Functions.{arity_of};
ghost use Rattle.vx_fn.specs.Views.{function_of};

use std::alloc::Global;
use vx_tree::{ScalarFnRef, TreeNode, VortexResult};

// The node of a function of one child.
pub(crate) fn node_of_one<T: TreeNode>(
    alloc: Global,
    scalar_fn: ScalarFnRef,
    child: T,
) -> VortexResult<T>
    requires { arity_of (function_of scalar_fn) ≡ 1 }
    ensures { T.gives (function_of scalar_fn) (child ∷ []) result }
{
    let mut children = Vec::with_capacity(alloc, 1)?;
    children.push(child)?;
    T::of_function(alloc, scalar_fn, children)
}

// The node of a function of two children.
pub(crate) fn node_of_two<T: TreeNode>(
    alloc: Global,
    scalar_fn: ScalarFnRef,
    first: T,
    second: T,
) -> VortexResult<T>
    requires { arity_of (function_of scalar_fn) ≡ 2 }
    ensures { T.gives (function_of scalar_fn) (first ∷ second ∷ []) result }
{
    let mut children = Vec::with_capacity(alloc, 2)?;
    children.push(first)?;
    children.push(second)?;
    T::of_function(alloc, scalar_fn, children)
}

// The node of a function of three children.
pub(crate) fn node_of_three<T: TreeNode>(
    alloc: Global,
    scalar_fn: ScalarFnRef,
    first: T,
    second: T,
    third: T,
) -> VortexResult<T>
    requires { arity_of (function_of scalar_fn) ≡ 3 }
    ensures { T.gives (function_of scalar_fn) (first ∷ second ∷ third ∷ []) result }
{
    let mut children = Vec::with_capacity(alloc, 3)?;
    children.push(first)?;
    children.push(second)?;
    children.push(third)?;
    T::of_function(alloc, scalar_fn, children)
}

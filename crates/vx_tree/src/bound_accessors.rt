// What is at a node of a bound expression. None of these calls takes memory.
ghost use Rattle.std.specs.Prelude.{◌≡◌, ◌<◌, ℕ, length, Some, option_map, IsTrue};
ghost use Rattle.vx_fn.specs.Views.{function_of};
ghost use Rattle.vx_tree.specs.Nodes.{is_root, function_at, is_call_of, function_where, bound_children_of, bound_count_of, bound_at};
ghost use Rattle.vx_tree.specs.Trees.{unbound};
ghost use Rattle.vx_tree.specs.Views.{bound_of, bounds_of};

use crate::BoundExpression;
use crate::accessors::options_at;
use vx_fn::{ScalarFnRef, ScalarFnVTable};

impl BoundExpression {
    /// Whether this is a scope root.
    pub fn is_root(&self) -> bool
        ensures { result ≡ is_root (unbound (bound_of self.now)) }
    {
        match self {
            BoundExpression::Scalar { .. } => false,
            BoundExpression::Root { .. } => true,
        }
    }

    /// The function of a function node, None at a scope root.
    pub fn as_scalar(&self) -> Option<&ScalarFnRef>
        ensures { option_map (λ f. function_of f.now) result ≡ function_at (unbound (bound_of self.now)) }
    {
        match self {
            BoundExpression::Scalar { scalar_fn, .. } => Some(scalar_fn),
            BoundExpression::Root { .. } => None,
        }
    }

    /// Whether this is a node of the function.
    pub fn is<V: ScalarFnVTable>(&self) -> bool
        ensures { result ≡ is_call_of V.is_of (unbound (bound_of self.now)) }
    {
        self.as_opt::<V>().is_some()
    }

    /// The options of a node of the function, None at any other node; the node's function is
    /// `V::bind` of them.
    pub fn as_opt<V: ScalarFnVTable>(&self) -> Option<&V::Options>
        ensures { option_map (λ o. function_of (V.bound o.now)) result ≡ function_where V.is_of (unbound (bound_of self.now)) }
    {
        options_at::<V>(self.as_scalar())
    }

    /// The options of a node of the function, which is `V::bind` of them. Asks for such a node.
    pub fn as_<V: ScalarFnVTable>(&self) -> &V::Options
        requires { IsTrue (is_call_of V.is_of (unbound (bound_of self.now))) }
        ensures { Some (function_of (V.bound result.now)) ≡ function_at (unbound (bound_of self.now)) }
    {
        match self.as_opt::<V>() {
            Some(options) => options,
            None => unreachable!(),
        }
    }

    /// The children from left to right, none at a scope root.
    pub fn children(&self) -> &[BoundExpression]
        ensures trees { bounds_of result.now ≡ bound_children_of (bound_of self.now) }
        ensures count { length result.now ≡ bound_count_of (bound_children_of (bound_of self.now)) }
    {
        match self {
            BoundExpression::Scalar { children, .. } => children.as_slice(),
            BoundExpression::Root { .. } => &[],
        }
    }

    /// The child at that index, counted from 0. Asks for an index below the number of children.
    pub fn child(&self, index: usize) -> &BoundExpression
        requires { index < bound_count_of (bound_children_of (bound_of self.now)) }
        ensures { Some (bound_of result.now) ≡ bound_at (bound_children_of (bound_of self.now)) index }
    {
        &self.children()[index]
    }
}

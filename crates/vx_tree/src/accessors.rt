// What is at a node of an expression. None of these calls takes memory.
ghost use Rattle.std.specs.Prelude.{◌≡◌, ◌<◌, ℕ, length, Some, option_map, option_and_then, IsTrue};
ghost use Rattle.vx_fn.specs.Views.{function_of};
ghost use Rattle.vx_tree.specs.Nodes.{is_root, function_at, is_call_of, function_where, passing, children_of, count_of, tree_at};
ghost use Rattle.vx_tree.specs.Views.{tree_of, trees_of};

use crate::Expression;
use vx_fn::{ScalarFnRef, ScalarFnVTable};

impl Expression {
    /// Whether this is the scope root.
    pub fn is_root(&self) -> bool
        ensures { result ≡ is_root (tree_of self.now) }
    {
        match self {
            Expression::Scalar { .. } => false,
            Expression::Root => true,
        }
    }

    /// The function of a function node, None at the scope root.
    pub fn as_scalar(&self) -> Option<&ScalarFnRef>
        ensures { option_map (λ f. function_of f.now) result ≡ function_at (tree_of self.now) }
    {
        match self {
            Expression::Scalar { scalar_fn, .. } => Some(scalar_fn),
            Expression::Root => None,
        }
    }

    /// Whether this is a node of the function.
    pub fn is<V: ScalarFnVTable>(&self) -> bool
        ensures { result ≡ is_call_of V.is_of (tree_of self.now) }
    {
        self.as_opt::<V>().is_some()
    }

    /// The options of a node of the function, None at any other node; the node's function is
    /// `V::bind` of them.
    pub fn as_opt<V: ScalarFnVTable>(&self) -> Option<&V::Options>
        ensures { option_map (λ o. function_of (V.bound o.now)) result ≡ function_where V.is_of (tree_of self.now) }
    {
        options_at::<V>(self.as_scalar())
    }

    /// The options of a node of the function, which is `V::bind` of them. Asks for such a node.
    pub fn as_<V: ScalarFnVTable>(&self) -> &V::Options
        requires { IsTrue (is_call_of V.is_of (tree_of self.now)) }
        ensures { Some (function_of (V.bound result.now)) ≡ function_at (tree_of self.now) }
    {
        match self.as_opt::<V>() {
            Some(options) => options,
            None => unreachable!(),
        }
    }

    /// The children from left to right, none at the scope root.
    pub fn children(&self) -> &[Expression]
        ensures trees { trees_of result.now ≡ children_of (tree_of self.now) }
        ensures count { length result.now ≡ count_of (children_of (tree_of self.now)) }
    {
        match self {
            Expression::Scalar { children, .. } => children.as_slice(),
            Expression::Root => &[],
        }
    }

    /// The child at that index, counted from 0. Asks for an index below the number of children.
    pub fn child(&self, index: usize) -> &Expression
        requires { index < count_of (children_of (tree_of self.now)) }
        ensures { Some (tree_of result.now) ≡ tree_at (children_of (tree_of self.now)) index }
    {
        &self.children()[index]
    }
}

// The options of the function, if it is there and of the kind that is asked for.
pub(crate) fn options_at<V: ScalarFnVTable>(scalar_fn: Option<&ScalarFnRef>) -> Option<&V::Options>
    ensures { option_map (λ o. function_of (V.bound o.now)) result
        ≡ option_and_then (passing V.is_of) (option_map (λ f. function_of f.now) scalar_fn.entry) }
{
    match scalar_fn {
        Some(f) => V::options_of(f),
        None => None,
    }
}

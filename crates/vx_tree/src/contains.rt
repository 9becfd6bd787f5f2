// Whether some node of a tree is one of a function. The call takes no memory.
ghost use Rattle.std.specs.Prelude.{◌≡◌};
ghost use Rattle.vx_tree.specs.Nodes.{has_call_of};
ghost use Rattle.vx_tree.specs.Trees.{unbound};
ghost use Rattle.vx_tree.specs.Views.{tree_of, bound_of};

use crate::{BoundExpression, Expression, TreeNode};
use vx_fn::ScalarFnVTable;

impl Expression {
    /// Whether some node of the tree, this one among them, is one of the function. Ends at the
    /// first such node, a node before its children.
    pub fn contains<V: ScalarFnVTable>(&self) -> bool
        ensures { result ≡ has_call_of V.is_of (tree_of self.now) }
    {
        has_call::<V, Expression>(self)
    }
}

impl BoundExpression {
    /// Whether some node of the tree, this one among them, is one of the function. Ends at the
    /// first such node, a node before its children.
    pub fn contains<V: ScalarFnVTable>(&self) -> bool
        ensures { result ≡ has_call_of V.is_of (unbound (bound_of self.now)) }
    {
        has_call::<V, BoundExpression>(self)
    }
}

fn has_call<V: ScalarFnVTable, T: TreeNode>(node: &T) -> bool
    ensures { result ≡ has_call_of V.is_of (T.tree node.now) }
{
    let Some(scalar_fn) = node.node_function() else {
        return false;
    };
    if scalar_fn.is::<V>() {
        return true;
    }
    for child in node.node_children() {
        if has_call::<V, T>(child) {
            return true;
        }
    }
    false
}

// Equal trees are hashed alike: what is fed depends on the tree that is stood for alone.
ghost use Rattle.std.specs.Prelude.{◌≡◌, fold, map};
ghost use Rattle.vx_tree.specs.Hashes.{tree_fed, trees_fed, tree_alike, bound_fed, bound_alike};
ghost use Rattle.vx_tree.specs.Views.{tree_of, trees_from, bound_of};

use crate::{BoundExpression, Expression, TreeNode};
use std::hash::{Hash, Hasher};

impl Hash for Expression {
    ghost hash_input = { λ e. tree_fed (tree_of e) };

    ghost respects_eq = { λ x y. tree_alike.fed (tree_of x) (tree_of y) };

    fn hash<H: Hasher>(&self, state: &mut H) {
        feed(self, state);
    }
}

impl Hash for BoundExpression {
    ghost hash_input = { λ b. bound_fed (bound_of b) };

    ghost respects_eq = { λ x y. bound_alike.fed (bound_of x) (bound_of y) };

    // The types are left out: trees that differ in them alone are bound to different scopes.
    fn hash<H: Hasher>(&self, state: &mut H) {
        feed(self, state);
    }
}

// Feeds the tree without its types to the hasher.
#[cycle(feed)]
fn feed<T: TreeNode, H: Hasher>(node: &T, state: &mut H)
    ensures { state.new ≡ fold H.write state.old (tree_fed (T.tree node.now)) }
{
    let Some(scalar_fn) = node.node_function() else {
        return state.write_u8(0);
    };
    state.write_u8(1);
    scalar_fn.hash(state);
    feed_all(node.node_children(), state);
}

// Feeds the trees, and then that there are no more.
#[cycle(feed)]
fn feed_all<T: TreeNode, H: Hasher>(nodes: &[T], state: &mut H)
    ensures { state.new ≡ fold H.write state.old (trees_fed (trees_from (map T.tree nodes.now))) }
{
    for node in nodes {
        feed(node, state);
    }
    state.write_u8(2);
}

// The node at a place.
ghost use Rattle.std.specs.Prelude.{◌≡◌, option_map};
ghost use Rattle.vx_places.specs.Nodes.{node_at};

use vx_tree::TreeNode;

/// The node that the child indices lead to, from the tree's first node down, of a tree of either
/// kind. None where some index is no child's. Takes no memory.
pub fn node_at<'a, T: TreeNode>(tree: &'a T, path: &[usize]) -> Option<&'a T>
    ensures { option_map (λ node. T.tree node.now) result ≡ node_at path.now (T.tree tree.now) }
{
    let mut node = tree;
    for index in path {
        match node.node_children().get(*index) {
            Some(child) => node = child,
            None => return None,
        }
    }
    Some(node)
}

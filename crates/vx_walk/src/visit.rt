// Visitors, and the walk of a tree.
ghost use Rattle.vx_walk.specs.Orders.{Answer};
ghost use Rattle.vx_walk.specs.Walks.{At, Walked};

use crate::{Node, TraversalOrder};
use vx_tree::VortexResult;

/// What is called at the nodes of a tree, on the way down and on the way up. Both calls say where
/// the walk goes on.
pub trait NodeVisitor {
    type NodeTy: Node;

    /// Where it may be called.
    ghost ready: { Self → Type 0 } = { λ _. Unit {0} };

    /// Its step on the way down: at a node it may give this answer, and becomes that.
    /// A visitor that says nothing of it promises nothing.
    ghost down_gives: { Self → Self.NodeTy → Answer → Self → Type 0 } = { λ _ _ _ _. Unit {0} };

    /// Its step on the way up, in the same words.
    ghost up_gives: { Self → Self.NodeTy → Answer → Self → Type 0 } = { λ _ _ _ _. Unit {0} };

    /// Called at a node before its children. Skip leaves them out, and Stop ends the walk.
    fn visit_down(&mut self, node: &Self::NodeTy) -> VortexResult<TraversalOrder>
        requires { ready self.old }
        ensures gives { down_gives self.old node.now result self.new }
        ensures ready { ready self.new };

    /// Called at a node after its children. Skip of a last child leaves out the way up of the node
    /// above it, and Stop ends the walk.
    fn visit_up(&mut self, node: &Self::NodeTy) -> VortexResult<TraversalOrder>
        requires { ready self.old }
        ensures gives { up_gives self.old node.now result self.new }
        ensures ready { ready self.new };
}

// The walk of a tree. The visitor is called by functions of their own, so that what it does takes no
// stack at each level.
pub(crate) fn walk<N: Node, V: NodeVisitor<NodeTy = N>>(
    node: &N,
    visitor: &mut V,
) -> VortexResult<TraversalOrder>
    requires { V.ready visitor.old }
    ensures walked { Walked N.kids (At N.mirror V.down_gives) (At N.mirror V.up_gives) (N.mirror node.now) visitor.old visitor.new result }
    ensures ready { V.ready visitor.new }
{
    match visit_down(node, visitor)? {
        TraversalOrder::Stop => return Ok(TraversalOrder::Stop),
        TraversalOrder::Skip => return visit_up(node, visitor),
        TraversalOrder::Continue => {}
    }
    let mut order = TraversalOrder::Continue;
    for child in node.children_slice() {
        order = walk(child, visitor)?;
        if let TraversalOrder::Stop = order {
            return Ok(TraversalOrder::Stop);
        }
    }
    match order {
        TraversalOrder::Continue => visit_up(node, visitor),
        TraversalOrder::Skip | TraversalOrder::Stop => Ok(order),
    }
}

#[inline(never)]
fn visit_down<N: Node, V: NodeVisitor<NodeTy = N>>(
    node: &N,
    visitor: &mut V,
) -> VortexResult<TraversalOrder>
    requires { V.ready visitor.old }
    ensures gives { V.down_gives visitor.old node.now result visitor.new }
    ensures ready { V.ready visitor.new }
{
    visitor.visit_down(node)
}

#[inline(never)]
fn visit_up<N: Node, V: NodeVisitor<NodeTy = N>>(
    node: &N,
    visitor: &mut V,
) -> VortexResult<TraversalOrder>
    requires { V.ready visitor.old }
    ensures gives { V.up_gives visitor.old node.now result visitor.new }
    ensures ready { V.ready visitor.new }
{
    visitor.visit_up(node)
}

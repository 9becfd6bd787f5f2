// A walk with a way down alone.
ghost use Rattle.std.specs.Fn.{CalledAt};
ghost use Rattle.vx_walk.specs.Walks.{At, WalkedDown};

use crate::closures::FnVisitor;
use crate::visit::walk;
use crate::{Node, TraversalOrder};
use std::marker::PhantomData;
use vx_tree::VortexResult;

/// Calls `f` at each node before its children, as [`crate::NodeExt::accept`] calls `visit_down`: Skip
/// leaves the children out, and Stop ends the walk. Takes no memory, and fails only where `f` does.
pub fn pre_order_visit_down<N: Node, F: FnMut(&N) -> VortexResult<TraversalOrder>>(
    node: &N,
    f: F,
) -> VortexResult<TraversalOrder>
    requires { F.IsAlwaysCallable f }
    ensures { WalkedDown N.kids (At N.mirror (CalledAt F.FnMut)) (N.mirror node.now) f result }
{
    let mut visitor = FnVisitor { f, of: PhantomData };
    walk(node, &mut visitor)
}

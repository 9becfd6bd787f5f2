// Where a walk goes on.
ghost use Rattle.std.specs.Prelude.{◌≡◌};
ghost use Rattle.vx_walk.specs.Orders.{VisitsChildren, VisitsParent};
ghost use Rattle.vx_walk.specs.declared.order.TraversalOrder.TheVariants.{Continue};

use vx_tree::VortexResult;

/// Where a walk goes on after a node.
#[derive(Clone, Copy, Debug, PartialEq, Eq)]
pub enum TraversalOrder {
    /// On the way down: past the children, to the node's own way up. On the way up: past the way up
    /// of the nodes above, as far as this is a last child.
    Skip,
    /// Nowhere: the walk ends.
    Stop,
    /// To what comes next.
    Continue,
}

impl TraversalOrder {
    /// After a node's way down: what its children answer, unless they are left out. Skip gives
    /// Continue, Stop stays, and Continue runs `f`.
    pub fn visit_children<F: FnOnce() -> VortexResult<TraversalOrder>>(
        self,
        f: F,
    ) -> VortexResult<TraversalOrder>
        requires { self ≡ Continue → F.pre f }
        ensures { VisitsChildren (F.post f) self result }
    {
        match self {
            TraversalOrder::Skip => Ok(TraversalOrder::Continue),
            TraversalOrder::Stop => Ok(TraversalOrder::Stop),
            TraversalOrder::Continue => f(),
        }
    }

    /// After a node's children: what the node answers on its way up, unless that is left out.
    /// Continue runs `f`, and the others stay.
    pub fn visit_parent<F: FnOnce() -> VortexResult<TraversalOrder>>(
        self,
        f: F,
    ) -> VortexResult<TraversalOrder>
        requires { self ≡ Continue → F.pre f }
        ensures { VisitsParent (F.post f) self result }
    {
        match self {
            TraversalOrder::Continue => f(),
            TraversalOrder::Skip | TraversalOrder::Stop => Ok(self),
        }
    }
}

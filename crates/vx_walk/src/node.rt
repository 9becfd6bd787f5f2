// Nodes of trees.
ghost use Rattle.std.specs.Prelude.{◌≡◌, ℕ, ◌<◌, List, length, Contains, map, Ok, Result};
ghost use Rattle.std.specs.Fn.{CalledAt};
ghost use Rattle.vx_dtype.specs.declared.error.VortexError.{VortexError};
ghost use Rattle.vx_walk.specs.Handed.{seen, seen_node};
ghost use Rattle.vx_walk.specs.Mapping.{AtOwned, MappedTo, MappedBy};
ghost use Rattle.vx_walk.specs.Shapes.{element, parts, row};
ghost use Rattle.vx_walk.specs.Visits.{Visited, VisitedFrom};
ghost use Rattle.vx_walk.specs.Walks.{At};

use crate::siblings::{map_siblings, rebuild};
use crate::{ElementMapper, ElementVisitor, Transformed, TraversalOrder};
use std::alloc::Global;
use vx_tree::VortexResult;

/// A node of a tree, with the tree below it. Both trees of expressions are nodes.
pub trait Node: Sized + Clone {
    /// What nodes are seen as; nodes that are seen alike are equal.
    ghost Mirror: { Type 0 };

    ghost mirror: { Self → Mirror };

    /// The children, from left to right.
    ghost kids: { Mirror → List Mirror };

    /// The height, which contracts alone see. Equal nodes have equal heights.
    ghost height: { Mirror → ℕ };

    /// What `with_children` may answer.
    ghost rebuild_gives: { Mirror → List Mirror → Result Mirror VortexError → Type 0 };

    /// The children, from left to right.
    fn children_slice(&self) -> &[Self]
        ensures { map mirror result.now ≡ kids (mirror self.now) };

    /// The node over other children.
    fn with_children(self, alloc: Global, children: Vec<Self>) -> VortexResult<Self>
        ensures { rebuild_gives (mirror self) (map mirror children.items) (seen_node mirror result) };

    /// The number of children.
    final fn children_count(&self) -> usize
        ensures { result ≡ length (kids (mirror self.now)) }
    {
        self.children_slice().len()
    }

    /// Calls `f` at the children from left to right, until it answers Stop or refuses. The last
    /// answer is the answer, Continue where there is no child. Fails only where `f` does.
    final fn apply_children<F: FnMut(&Self) -> VortexResult<TraversalOrder>>(
        &self,
        mut f: F,
    ) -> VortexResult<TraversalOrder>
        requires { F.IsAlwaysCallable f }
        ensures { VisitedFrom (At mirror (CalledAt F.FnMut)) f (row (parts element (kids (mirror self.now)))) result }
    {
        self.apply_children_with(&mut f)
    }

    /// Calls the visitor at the children, as [`Node::apply_children`] calls a closure. The visitor
    /// then is where these calls, and no others, left it.
    final fn apply_children_with<V: ElementVisitor<Self>>(
        &self,
        visitor: &mut V,
    ) -> VortexResult<TraversalOrder>
        requires { V.ready visitor.old }
        ensures applied { Visited (At mirror V.gives) visitor.old (row (parts element (kids (mirror self.now)))) result visitor.new }
        ensures ready { V.ready visitor.new }
    {
        let mut order = TraversalOrder::Continue;
        for child in self.children_slice() {
            order = visitor.visit(child)?;
            if let TraversalOrder::Stop = order {
                return Ok(TraversalOrder::Stop);
            }
        }
        Ok(order)
    }

    /// Hands the children to `f` from left to right, until it answers Stop; later ones stay as they
    /// are. Where one is handed back as changed the node is rebuilt by `with_children` from those
    /// handed back, and else it stays. The order is the last one answered.
    ///
    /// Refuses as `f` and `with_children` do, and with `OutOfMemory` (1).
    final fn map_children<F: FnMut(Self) -> VortexResult<Transformed<Self>>>(
        self,
        alloc: Global,
        mut f: F,
    ) -> VortexResult<Transformed<Self>>
        requires { F.IsAlwaysCallable f }
        ensures { MappedTo rebuild_gives (AtOwned mirror F.step) (kids (mirror self)) (mirror self) f (seen mirror result) }
    {
        self.map_children_with(alloc, &mut f)
    }

    /// Hands the children to the mapper, as [`Node::map_children`] hands them to a closure. The
    /// mapper then is where these calls, and no others, left it.
    final fn map_children_with<V: ElementMapper<Self>>(
        self,
        alloc: Global,
        mapper: &mut V,
    ) -> VortexResult<Transformed<Self>>
        requires { V.ready mapper.old }
        ensures mapped { MappedBy rebuild_gives (AtOwned mirror V.gives) (kids (mirror self)) (mirror self) mapper.old (seen mirror result) mapper.new }
        ensures ready { V.ready mapper.new }
    {
        let siblings = map_siblings(alloc, self.children_slice(), mapper)?;
        rebuild(alloc, self, siblings)
    }

    /// A child is lower than its node.
    ghost kids_are_lower: { (m k : Mirror) → Contains (kids m) k → height k < height m };

    /// A node that was rebuilt has exactly the children that it was given.
    ghost rebuilt_over: { (m n : Mirror) (ks : List Mirror) → rebuild_gives m ks (Ok n) → kids n ≡ ks };

    /// A clone is equal to what it is a clone of.
    ghost clones_are_equal: { (n m : Self) → Self.is_clone n m → mirror m ≡ mirror n };
}

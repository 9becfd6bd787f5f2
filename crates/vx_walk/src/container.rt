// Containers of elements.
ghost use Rattle.std.specs.Prelude.{◌≡◌, IfOk};
ghost use Rattle.std.specs.Fn.{CalledAt};
ghost use Rattle.vx_walk.specs.Containers.{Mapped};
ghost use Rattle.vx_walk.specs.Handed.{seen};
ghost use Rattle.vx_walk.specs.Shapes.{elements, parts, places, row, Shape};
ghost use Rattle.vx_walk.specs.Visits.{Continues, Visited, VisitedFrom, VisitsEach};

use crate::{ElementMapper, ElementVisitor, Transformed, TraversalOrder};
use std::alloc::Global;
use vx_tree::VortexResult;

/// What holds elements in an order. A box and an `Rc` pass on to what they hold; a pair and a `Vec` go
/// from left to right, as the children of a node; an expression is one element.
pub trait NodeContainer<T>: Sized {
    /// What elements are seen as; elements that are seen alike are equal.
    ghost Mirror: { Type 0 };

    ghost mirror: { T → Mirror };

    /// How the elements lie in it. By this contracts say how it is visited and mapped.
    ghost shape: { Self → Shape T };

    /// Calls the visitor at the elements, as [`NodeContainer::apply_elements`] calls a closure.
    fn apply_with<V: ElementVisitor<T>>(&self, visitor: &mut V) -> VortexResult<TraversalOrder>
        requires { V.ready visitor.old }
        ensures applied { Visited V.gives visitor.old (shape self.now) result visitor.new }
        ensures ready { V.ready visitor.new };

    /// Hands the elements to the mapper, as [`NodeContainer::map_elements`] hands them to a closure.
    fn map_with<V: ElementMapper<T>>(
        self,
        alloc: Global,
        mapper: &mut V,
    ) -> VortexResult<Transformed<Self>>
        requires { V.ready mapper.old }
        ensures mapped { Mapped mirror V.gives mapper.old (shape self) (seen shape result) mapper.new }
        ensures ready { V.ready mapper.new };

    /// Calls `f` at the elements from left to right, until it answers Stop or refuses. The last
    /// answer is the answer, and that of a part without elements is Continue. Takes no memory, and
    /// fails only where `f` does.
    final fn apply_elements<F: FnMut(&T) -> VortexResult<TraversalOrder>>(
        &self,
        mut f: F,
    ) -> VortexResult<TraversalOrder>
        requires { F.IsAlwaysCallable f }
        ensures visited { VisitedFrom (CalledAt F.FnMut) f (shape self.now) result }
        ensures each { Continues (CalledAt F.FnMut) → VisitsEach (CalledAt F.FnMut) f (elements (shape self.now)) result }
    {
        self.apply_with(&mut f)
    }

    /// Hands the elements to `f` from left to right, until it answers Stop; what is handed back
    /// stands in its own place, and after a Stop the later ones stay. It is changed where one is, and
    /// the order is the last one answered.
    ///
    /// Refuses as `f` does, and with `OutOfMemory` (1), where a vector, a box or an `Rc` is
    /// made anew.
    final fn map_elements<F: FnMut(T) -> VortexResult<Transformed<T>>>(
        self,
        alloc: Global,
        mut f: F,
    ) -> VortexResult<Transformed<Self>>
        requires { F.IsAlwaysCallable f }
        ensures mapped { (g : F) × Mapped mirror F.step f (shape self) (seen shape result) g }
        ensures places { IfOk result (λ t. places (shape t.value) ≡ places (shape self)) }
    {
        self.map_with(alloc, &mut f)
    }
}

/// Calls `f` at the elements of the containers, from left to right, as
/// [`NodeContainer::apply_elements`] of a `Vec` of them does.
pub fn apply_ref_elements<T, C: NodeContainer<T>, F: FnMut(&T) -> VortexResult<TraversalOrder>>(
    containers: &[C],
    mut f: F,
) -> VortexResult<TraversalOrder>
    requires { F.IsAlwaysCallable f }
    ensures visited { VisitedFrom (CalledAt F.FnMut) f (row (parts C.shape containers.now)) result }
    ensures each { Continues (CalledAt F.FnMut) → VisitsEach (CalledAt F.FnMut) f (elements (row (parts C.shape containers.now))) result }
{
    apply_ref_elements_with(containers, &mut f)
}

/// Calls the visitor at the elements of the containers, as [`apply_ref_elements`] calls a closure.
/// The visitor then is where these calls, and no others, left it.
pub fn apply_ref_elements_with<T, C: NodeContainer<T>, V: ElementVisitor<T>>(
    containers: &[C],
    visitor: &mut V,
) -> VortexResult<TraversalOrder>
    requires { V.ready visitor.old }
    ensures applied { Visited V.gives visitor.old (row (parts C.shape containers.now)) result visitor.new }
    ensures ready { V.ready visitor.new }
{
    let mut order = TraversalOrder::Continue;
    for container in containers {
        order = container.apply_with(visitor)?;
        if let TraversalOrder::Stop = order {
            return Ok(TraversalOrder::Stop);
        }
    }
    Ok(order)
}

// Closures as visitors and rewriters that have a way down alone.
ghost use Rattle.std.specs.Prelude.{◌≡◌, ◌≤◌, Ok};
ghost use Rattle.std.specs.Fn.{CalledAt};
ghost use Rattle.vx_walk.specs.Handed.{unchanged};
ghost use Rattle.vx_walk.specs.declared.order.TraversalOrder.TheVariants.{Continue};
ghost use Rattle.vx_walk.specs.declared.transformed.Transformed.{Transformed};

use crate::{Node, NodeRewriter, NodeVisitor, Transformed, TraversalOrder};
use std::marker::PhantomData;
use vx_tree::VortexResult;

// A closure that is called on the way down.
#[derive(Drop)]
pub(crate) struct FnVisitor<T, F> {
    pub f: F,
    pub of: PhantomData<T>,
}

impl<T: Node, F: FnMut(&T) -> VortexResult<TraversalOrder>> NodeVisitor for FnVisitor<T, F> {
    type NodeTy = T;

    ghost ready = { λ s. F.IsAlwaysCallable s.f };

    ghost down_gives = { λ s n a t. CalledAt F.FnMut s.f n a t.f };

    ghost up_gives = { λ s n a t. (a ≡ Ok Continue) × (t ≡ s) };

    fn visit_down(&mut self, node: &T) -> VortexResult<TraversalOrder> {
        (self.f)(node)
    }

    fn visit_up(&mut self, _node: &T) -> VortexResult<TraversalOrder> {
        Ok(TraversalOrder::Continue)
    }
}

// A closure that is handed nodes on the way down.
#[derive(Drop)]
pub(crate) struct FnRewriter<T, F> {
    pub f: F,
    pub of: PhantomData<T>,
}

impl<T: Node, F: FnMut(T) -> VortexResult<Transformed<T>>> NodeRewriter for FnRewriter<T, F> {
    type NodeTy = T;

    ghost ready = { λ s. F.IsAlwaysCallable s.f × ((g h : F) (n : T) (t : Transformed T) → F.step g n (Ok t) h → t.order ≡ Continue → T.height (T.mirror t.value) ≤ T.height (T.mirror n)) };

    ghost down_gives = { λ s n a t. F.step s.f n a t.f };

    ghost up_gives = { λ s n a t. (a ≡ Ok (unchanged n)) × (t ≡ s) };

    ghost no_higher = { λ v w n t ready d e. ready.1 v.f w.f n t d e };

    fn visit_down(&mut self, node: T) -> VortexResult<Transformed<T>> {
        (self.f)(node)
    }

    fn visit_up(&mut self, node: T) -> VortexResult<Transformed<T>> {
        Ok(Transformed::no(node))
    }
}

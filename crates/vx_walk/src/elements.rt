// What is called at the elements of a container, or at the children of a node.
ghost use Rattle.std.specs.Prelude.{◌≡◌, Result};
ghost use Rattle.std.specs.Fn.{CalledAt};
ghost use Rattle.vx_dtype.specs.declared.error.VortexError.{VortexError};
ghost use Rattle.vx_walk.specs.Orders.{Answer};
ghost use Rattle.vx_walk.specs.declared.transformed.Transformed.{Transformed};

use crate::{Transformed, TraversalOrder};
use vx_tree::VortexResult;

/// What is called at each element; closures are.
pub trait ElementVisitor<T> {
    /// Where it may be called.
    ghost ready: { Self → Type 0 };

    /// Its step: at an element it may give this answer, and becomes that.
    ghost gives: { Self → T → Answer → Self → Type 0 };

    fn visit(&mut self, element: &T) -> VortexResult<TraversalOrder>
        requires { ready self.old }
        ensures gives { gives self.old element.now result self.new }
        ensures ready { ready self.new };
}

/// What is handed each element, and hands one back; closures are.
pub trait ElementMapper<T> {
    /// Where it may be called.
    ghost ready: { Self → Type 0 };

    /// Its step: for an element it may give this answer, and becomes that.
    ghost gives: { Self → T → Result (Transformed T) VortexError → Self → Type 0 };

    fn map(&mut self, element: T) -> VortexResult<Transformed<T>>
        requires { ready self.old }
        ensures gives { gives self.old element result self.new }
        ensures ready { ready self.new };
}

impl<T, F: FnMut(&T) -> VortexResult<TraversalOrder>> ElementVisitor<T> for F {
    ghost ready = { λ f. F.IsAlwaysCallable f };

    ghost gives = { CalledAt F.FnMut };

    fn visit(&mut self, element: &T) -> VortexResult<TraversalOrder> {
        self(element)
    }
}

impl<T, F: FnMut(T) -> VortexResult<Transformed<T>>> ElementMapper<T> for F {
    ghost ready = { λ f. F.IsAlwaysCallable f };

    ghost gives = { λ f element answer g. F.step f element answer g };

    fn map(&mut self, element: T) -> VortexResult<Transformed<T>> {
        self(element)
    }
}

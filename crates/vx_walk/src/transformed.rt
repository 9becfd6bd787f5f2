// What is handed back for something that was handed over.
ghost use Rattle.std.specs.Prelude.{◌≡◌, ◌||◌};
ghost use Rattle.vx_walk.specs.Handed.{changed_to, unchanged};

use crate::TraversalOrder;

/// What is handed back for something that was handed over: it or another, where the walk goes on,
/// and whether it was changed.
#[derive(Clone, Debug, Drop)]
pub struct Transformed<T> {
    pub value: T,
    pub order: TraversalOrder,
    pub changed: bool,
}

impl<T> Transformed<T> {
    /// Changed to that value; the walk goes on.
    pub fn yes(value: T) -> Transformed<T>
        ensures { result ≡ changed_to value }
    {
        Transformed {
            value,
            order: TraversalOrder::Continue,
            changed: true,
        }
    }

    /// Not changed; the walk goes on.
    pub fn no(value: T) -> Transformed<T>
        ensures { result ≡ unchanged value }
    {
        Transformed {
            value,
            order: TraversalOrder::Continue,
            changed: false,
        }
    }

    /// The value alone.
    pub fn into_inner(self) -> T
        ensures { result ≡ self.value }
    {
        self.value
    }

    /// The same with the value that `f` gives of the value.
    pub fn map<U, F: FnOnce(T) -> U>(self, f: F) -> Transformed<U>
        requires { F.pre f self.value }
        ensures value { F.post f self.value result.value }
        ensures order { result.order ≡ self.order }
        ensures changed { result.changed ≡ self.changed }
    {
        let Transformed {
            value,
            order,
            changed,
        } = self;
        Transformed {
            value: f(value),
            order,
            changed,
        }
    }

    // Changed too where `changed` says so.
    pub(crate) fn marked(self, changed: bool) -> Transformed<T>
        ensures { result ≡ record self { changed = self.changed || changed } }
    {
        Transformed {
            value: self.value,
            order: self.order,
            changed: self.changed | changed,
        }
    }
}

// The least and the greatest of values.
ghost use Rattle.std.specs.Prelude.{◌≡◌, ◌∷◌, ◌++◌, [], List, Some};
ghost use Rattle.vx_value.specs.Types.{Datum};
ghost use Rattle.vx_value.specs.Views.{value_of};

use crate::order::{comparable, higher, lower};
use vx_value::Value;

// The least and the greatest of some values, each unless two of them can't be compared.
#[derive(Clone, Copy)]
pub(crate) struct Ends<'a> {
    pub(crate) least: Option<&'a Value>,
    pub(crate) greatest: Option<&'a Value>,
}

impl<'a> Ends<'a> {
    ghost use Rattle.vx_prune_tree.specs.Ends.{AreEnds};

    // Those of one more value: the ones given are those of the values before it, if there were any.
    pub(crate) fn with(before: Option<Ends<'a>>, value: &'a Value) -> Ends<'a>
        ensures { (values : List Datum) → AreEnds before.entry values → AreEnds (Some result) (values ++ value_of value.now ∷ []) }
    {
        match before {
            None => Ends {
                least: comparable(value),
                greatest: comparable(value),
            },
            Some(ends) => Ends {
                least: lower(ends.least, value),
                greatest: higher(ends.greatest, value),
            },
        }
    }
}

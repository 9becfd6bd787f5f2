// What a search of a value among those of a list may give.
ghost use Rattle.std.specs.Prelude.{◌≡◌};
ghost use Rattle.vx_value.specs.Views.{data_view};
ghost use Rattle.vx_prune_bounds.specs.Searching.{search_truths};
ghost use Rattle.vx_prune_bounds.specs.Views.{bounds_view};

use crate::bounds::Bounds;
use crate::comparing::comparison_truths;
use crate::truths::Truths;
use vx_fn::Operator;
use vx_value::Value;

/// What a search of a value within these bounds may give among the elements of a list: what the
/// disjunction of `=` with each of them may give. So it is never true where the bounds meet no
/// element, true where they leave but one value that is an element, and null only where the value or
/// an element may be. Takes no memory, and time by the number of elements.
pub fn search_truths(elements: &[Value], x: &Bounds) -> Truths
    ensures { result ≡ search_truths (data_view elements.now) (bounds_view x.now) }
{
    let mut found = Truths {
        null: x.null,
        no: x.value,
        yes: false,
    };
    for element in elements {
        let equal = comparison_truths(Operator::Eq, &Bounds::exactly(element), x);
        found = found.or(equal);
    }
    found
}

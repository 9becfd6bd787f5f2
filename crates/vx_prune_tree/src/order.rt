// Values in the order in which they are compared.
ghost use Rattle.std.specs.Prelude.{◌≡◌};
ghost use Rattle.vx_value.specs.Views.{value_of};
ghost use Rattle.vx_prune_bounds.specs.Order as order;
ghost use Rattle.vx_prune_tree.specs.Reading.{next_end};
ghost use Rattle.vx_prune_tree.specs.Lent.{lent_value};

use vx_prune_bounds::Endpoint;
use vx_value::Value;

// Whether the two can be compared, and the first comes before the second or is equal to it.
pub(crate) fn at_most(v: &Value, w: &Value) -> bool
    ensures { result ≡ order.at_most (value_of v.now) (value_of w.now) }
{
    match Endpoint::of(v) {
        Some(end) => match Endpoint::of(w) {
            Some(other) => end.at_most(&other),
            None => false,
        },
        None => false,
    }
}

// The value, if it can be compared.
pub(crate) fn comparable(v: &Value) -> Option<&Value>
    ensures { lent_value result ≡ order.comparable (value_of v.now) }
{
    if at_most(v, v) { Some(v) } else { None }
}

// The one that comes first, if the two can be compared.
pub(crate) fn lower<'a>(least: Option<&'a Value>, v: &'a Value) -> Option<&'a Value>
    ensures { lent_value result ≡ next_end order.lower (lent_value least.entry) (value_of v.now) }
{
    let least = least?;
    if at_most(least, v) {
        Some(least)
    } else if at_most(v, least) {
        Some(v)
    } else {
        None
    }
}

// The one that comes last, if the two can be compared.
pub(crate) fn higher<'a>(greatest: Option<&'a Value>, v: &'a Value) -> Option<&'a Value>
    ensures { lent_value result ≡ next_end order.higher (lent_value greatest.entry) (value_of v.now) }
{
    let greatest = greatest?;
    if at_most(greatest, v) {
        Some(v)
    } else if at_most(v, greatest) {
        Some(greatest)
    } else {
        None
    }
}

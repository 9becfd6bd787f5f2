// What two bounds say together: what both say, and what the one says or the other.
ghost use Rattle.std.specs.Prelude.{◌≡◌, ◌&&◌, option_map};
ghost use Rattle.vx_prune_bounds.specs.Bounds.{of_both, known_or_both, is_interval, are_comparable, join, meet};
ghost use Rattle.vx_prune_bounds.specs.Order.{lower, higher};
ghost use Rattle.vx_prune_bounds.specs.Views.{endpoint_value, bounds_view};

use crate::bounds::Bounds;
use crate::endpoint::Endpoint;

impl<'a> Bounds<'a> {
    /// What is within these bounds or the others: the narrowest bounds that both are within. Takes
    /// no memory.
    pub fn join(&self, other: &Bounds<'a>) -> Bounds<'a>
        ensures { bounds_view result ≡ join (bounds_view self.now) (bounds_view other.now) }
    {
        Bounds {
            null: self.null || other.null,
            value: self.value || other.value,
            least: joined_least(self, other),
            greatest: joined_greatest(self, other),
        }
    }

    /// What is within these bounds and the others: the widest bounds that are within both. Takes
    /// no memory.
    pub fn meet(&self, other: &Bounds<'a>) -> Bounds<'a>
        ensures { bounds_view result ≡ meet (bounds_view self.now) (bounds_view other.now) }
    {
        let least = met_least(self.least, other.least);
        let greatest = met_greatest(self.greatest, other.greatest);
        Bounds {
            null: self.null && other.null,
            value: may_meet(self, other) && is_interval(least, greatest),
            least,
            greatest,
        }
    }
}

// The least end of the join.
fn joined_least<'a>(x: &Bounds<'a>, y: &Bounds<'a>) -> Option<Endpoint<'a>>
    ensures { option_map endpoint_value result ≡ (join (bounds_view x.now) (bounds_view y.now)).least }
{
    if !x.value {
        return y.least;
    }
    if !y.value {
        return x.least;
    }
    match x.least {
        None => None,
        Some(l) => match y.least {
            None => None,
            Some(m) => lower(l, m),
        },
    }
}

// The greatest end of the join.
fn joined_greatest<'a>(x: &Bounds<'a>, y: &Bounds<'a>) -> Option<Endpoint<'a>>
    ensures { option_map endpoint_value result ≡ (join (bounds_view x.now) (bounds_view y.now)).greatest }
{
    if !x.value {
        return y.greatest;
    }
    if !y.value {
        return x.greatest;
    }
    match x.greatest {
        None => None,
        Some(g) => match y.greatest {
            None => None,
            Some(h) => higher(g, h),
        },
    }
}

// The least end of the meet.
fn met_least<'a>(l: Option<Endpoint<'a>>, m: Option<Endpoint<'a>>) -> Option<Endpoint<'a>>
    ensures { option_map endpoint_value result ≡ known_or_both higher (option_map endpoint_value l.entry) (option_map endpoint_value m.entry) }
{
    match l {
        None => m,
        Some(x) => match m {
            None => l,
            Some(y) => higher(x, y),
        },
    }
}

// The greatest end of the meet.
fn met_greatest<'a>(g: Option<Endpoint<'a>>, h: Option<Endpoint<'a>>) -> Option<Endpoint<'a>>
    ensures { option_map endpoint_value result ≡ known_or_both lower (option_map endpoint_value g.entry) (option_map endpoint_value h.entry) }
{
    match g {
        None => h,
        Some(x) => match h {
            None => g,
            Some(y) => lower(x, y),
        },
    }
}

// Whether there may be a value within both, as far as the ends of one side tell.
fn may_meet(x: &Bounds, y: &Bounds) -> bool
    ensures { let a = bounds_view x.now in let b = bounds_view y.now in
        result ≡ (a.value && (b.value && (are_comparable a.least b.least && are_comparable a.greatest b.greatest))) }
{
    x.value && y.value && are_comparable(x.least, y.least) && are_comparable(x.greatest, y.greatest)
}

// Whether the two can be compared, where they are known.
fn are_comparable(l: Option<Endpoint>, m: Option<Endpoint>) -> bool
    ensures { result ≡ are_comparable (option_map endpoint_value l.entry) (option_map endpoint_value m.entry) }
{
    match l {
        None => true,
        Some(x) => match m {
            None => true,
            Some(y) => x.at_most(&y) || y.at_most(&x),
        },
    }
}

/// Whether both can be the ends of one interval, where they are known. An end alone is compared with
/// itself, which only tells that it can be compared.
pub fn is_interval(least: Option<Endpoint>, greatest: Option<Endpoint>) -> bool
    ensures { result ≡ is_interval (option_map endpoint_value least.entry) (option_map endpoint_value greatest.entry) }
{
    match least {
        Some(l) => match greatest {
            Some(g) => l.at_most(&g),
            None => l.at_most(&l),
        },
        None => match greatest {
            Some(g) => g.at_most(&g),
            None => true,
        },
    }
}

// The one that comes first, if the two can be compared.
fn lower<'a>(x: Endpoint<'a>, y: Endpoint<'a>) -> Option<Endpoint<'a>>
    ensures { option_map endpoint_value result ≡ lower (endpoint_value x.entry) (endpoint_value y.entry) }
{
    if x.at_most(&y) {
        Some(x)
    } else if y.at_most(&x) {
        Some(y)
    } else {
        None
    }
}

// The one that comes last, if the two can be compared.
fn higher<'a>(x: Endpoint<'a>, y: Endpoint<'a>) -> Option<Endpoint<'a>>
    ensures { option_map endpoint_value result ≡ higher (endpoint_value x.entry) (endpoint_value y.entry) }
{
    if x.at_most(&y) {
        Some(y)
    } else if y.at_most(&x) {
        Some(x)
    } else {
        None
    }
}

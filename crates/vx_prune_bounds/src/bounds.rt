// What is known of a value: whether it may be null, and between which values it lies.
ghost use Rattle.std.specs.Prelude.{◌≡◌, option_map};
ghost use Rattle.vx_value.specs.Views.{value_of, type_of};
ghost use Rattle.vx_prune_bounds.specs.Bounds.{is_from, is_up_to, starts_within, ends_within};
ghost use Rattle.vx_prune_bounds.specs.Views.{endpoint_value};

use crate::endpoint::Endpoint;
use vx_dtype::DType;
use vx_value::Value;

/// What is known of a value: whether it may be null, whether it may be another one, and between
/// which ends it lies then. An end that isn't there says nothing, and one of another kind leaves a
/// value out.
#[derive(Clone, Copy, Debug)]
pub struct Bounds<'a> {
    /// Whether it may be null.
    pub null: bool,
    /// Whether it may be another value than null.
    pub value: bool,
    /// What it is at least then, where that is known.
    pub least: Option<Endpoint<'a>>,
    /// What it is at most then, where that is known.
    pub greatest: Option<Endpoint<'a>>,
}

impl<'a> Bounds<'a> {
    ghost use Rattle.std.specs.Prelude.{◌&&◌, is_none};
    ghost use Rattle.vx_prune_bounds.specs.Bounds.{nothing, any_of, exactly, admits, contains, is_within};
    ghost use Rattle.vx_prune_bounds.specs.Views.{bounds_view};

    /// What no value is within. Takes no memory.
    pub fn nothing() -> Bounds<'a>
        ensures { bounds_view result ≡ nothing }
    {
        Bounds {
            null: false,
            value: false,
            least: None,
            greatest: None,
        }
    }

    /// What every value of the type is within. Takes no memory.
    pub fn any_of(t: &DType) -> Bounds<'a>
        ensures { bounds_view result ≡ any_of (type_of t.now) }
    {
        Bounds {
            null: t.is_nullable(),
            value: true,
            least: None,
            greatest: None,
        }
    }

    /// What this value alone is within, if it can be compared. Takes no memory.
    pub fn exactly(value: &'a Value) -> Bounds<'a>
        ensures { bounds_view result ≡ exactly (value_of value.now) }
    {
        let end = Endpoint::of(value);
        Bounds {
            null: value.is_null(),
            value: !value.is_null(),
            least: end,
            greatest: end,
        }
    }

    /// Whether the value is within these bounds. Takes no memory.
    pub fn contains(&self, value: &Value) -> bool
        ensures { result ≡ contains (bounds_view self.now) (value_of value.now) }
    {
        if value.is_null() {
            return self.null;
        }
        match Endpoint::of(value) {
            Some(end) => self.admits(&end),
            None => self.is_open(),
        }
    }

    // Whether it may be the value that the end is.
    pub(crate) fn admits(&self, end: &Endpoint) -> bool
        ensures { result ≡ admits (bounds_view self.now) (endpoint_value end.now) }
    {
        self.value && starts_at(self.least, end) && ends_at(self.greatest, end)
    }

    // Whether it may be a value that can't be compared.
    fn is_open(&self) -> bool
        ensures { result ≡ (self.now.value && (is_none self.now.least && is_none self.now.greatest)) }
    {
        self.value && self.least.is_none() && self.greatest.is_none()
    }

    /// Whether these bounds say all that the others say: each value within these is within those.
    /// Takes no memory.
    pub fn is_within(&self, other: &Bounds) -> bool
        ensures { result ≡ is_within (bounds_view self.now) (bounds_view other.now) }
    {
        (!self.null || other.null)
            && (!self.value
                || (other.value
                    && starts_within(self.least, other.least)
                    && ends_within(self.greatest, other.greatest)))
    }
}

// Whether the first end, where it is known, is at most the second.
fn starts_at(least: Option<Endpoint>, end: &Endpoint) -> bool
    ensures { result ≡ is_from (option_map endpoint_value least.entry) (endpoint_value end.now) }
{
    match least {
        None => true,
        Some(l) => l.at_most(end),
    }
}

// Whether the second end is at most the first, where that is known.
fn ends_at(greatest: Option<Endpoint>, end: &Endpoint) -> bool
    ensures { result ≡ is_up_to (option_map endpoint_value greatest.entry) (endpoint_value end.now) }
{
    match greatest {
        None => true,
        Some(g) => end.at_most(&g),
    }
}

// Whether the second least end, where it is known, is at most the first.
fn starts_within(least: Option<Endpoint>, outer: Option<Endpoint>) -> bool
    ensures { result ≡ starts_within (option_map endpoint_value least.entry) (option_map endpoint_value outer.entry) }
{
    match outer {
        None => true,
        Some(m) => match least {
            None => false,
            Some(l) => m.at_most(&l),
        },
    }
}

// Whether the first greatest end is at most the second, where that is known.
fn ends_within(greatest: Option<Endpoint>, outer: Option<Endpoint>) -> bool
    ensures { result ≡ ends_within (option_map endpoint_value greatest.entry) (option_map endpoint_value outer.entry) }
{
    match outer {
        None => true,
        Some(h) => match greatest {
            None => false,
            Some(g) => g.at_most(&h),
        },
    }
}

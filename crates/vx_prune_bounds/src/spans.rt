// Between which numbers what is computed of two whole numbers lies, each of which lies between two.
ghost use Rattle.std.specs.Prelude.{◌≡◌, ◌≢◌, ℤ, pos, ◌+ℤ◌, ◌-ℤ◌, ◌*ℤ◌, ◌≤ℤ◌, int_div, FitsSigned, IsTrue, Some, SomeIff};
ghost use Rattle.std.specs.Int.{w128, IsNonNegative};
ghost use Rattle.std.specs.Option.{option_and_then};
ghost use Rattle.vx_prune_bounds.specs.Bounds.{of_both};
ghost use Rattle.vx_prune_bounds.specs.Spans.{corner, is_nonzero, nearest, outer, reach, remainder_end, span_end};

use vx_floats::Arithmetic;

// An end of bounds, and the side of it that is further out.
#[derive(Clone, Copy)]
pub(crate) enum Side {
    Least,
    Greatest,
}

// The ends of whole numbers, where they are known.
#[derive(Clone, Copy)]
pub(crate) struct Span {
    pub(crate) least: Option<i128>,
    pub(crate) greatest: Option<i128>,
}

// The whole numbers from one to another, both included.
#[derive(Clone, Copy)]
pub(crate) struct Interval {
    pub(crate) from: i128,
    pub(crate) to: i128,
}

impl Side {
    ghost use Rattle.std.specs.Prelude.{int_lt};
    ghost use Rattle.vx_prune_bounds.specs.Spans.{across, towards};

    // The other side.
    fn across(self) -> Side
        ensures { result ≡ across self }
    {
        match self {
            Side::Least => Side::Greatest,
            Side::Greatest => Side::Least,
        }
    }

    // The one of both that lies further on this side.
    fn outer(self, i: i128, j: i128) -> i128
        ensures { result ≡ outer self i j }
    {
        match self {
            Side::Least => i.min(j),
            Side::Greatest => i.max(j),
        }
    }

    // A number if it has 128 bits, else the nearest that has and lies no less far on this side, if there
    // is one. A number that has more is negative where that is said.
    fn nearest(self, exact: Option<i128>, is_negative: bool) -> Option<i128>
        ensures { (z : ℤ) → SomeIff exact (FitsSigned w128 z) z → ((FitsSigned w128 z → ⊥) → is_negative ≡ int_lt z (pos 0)) → result ≡ nearest self z }
    {
        match exact {
            Some(number) => Some(number),
            None => match self {
                Side::Least if is_negative => None,
                Side::Least => Some(i128::MAX),
                Side::Greatest if is_negative => Some(i128::MIN),
                Side::Greatest => None,
            },
        }
    }

    // The number on this side that lies so far from zero. Asks for one that isn't negative.
    fn towards(self, reach: i128) -> i128
        requires { IsNonNegative reach }
        ensures { result ≡ towards self reach }
    {
        match self {
            Side::Least => -reach,
            Side::Greatest => reach,
        }
    }
}

impl Span {
    ghost use Rattle.vx_prune_bounds.specs.Spans.{end_of, interval, if_nonzero};

    // The end on that side, where it is known.
    fn end(self, side: Side) -> Option<i128>
        ensures { result ≡ end_of side self }
    {
        match side {
            Side::Least => self.least,
            Side::Greatest => self.greatest,
        }
    }

    // All numbers, where both ends are known, and there are any.
    fn interval(self) -> Option<Interval>
        ensures { result ≡ interval self }
    {
        let (from, to) = (self.least?, self.greatest?);
        if from <= to {
            Some(Interval { from, to })
        } else {
            None
        }
    }

    // The same, where zero isn't one of them.
    fn divisors(self) -> Option<Interval>
        ensures { result ≡ option_and_then if_nonzero (interval self) }
    {
        let numbers = self.interval()?;
        if 0 < numbers.from || numbers.to < 0 {
            Some(numbers)
        } else {
            None
        }
    }
}

// The nearest number of 128 bits to a sum, no less far on that side, if there is one.
fn sum(side: Side, i: i128, j: i128) -> Option<i128>
    ensures { result ≡ nearest side (i +ℤ j) }
{
    side.nearest(i.checked_add(j), i < 0)
}

// So to a difference.
fn difference(side: Side, i: i128, j: i128) -> Option<i128>
    ensures { result ≡ nearest side (i -ℤ j) }
{
    side.nearest(i.checked_sub(j), i < 0)
}

// So to a product.
fn product(side: Side, i: i128, j: i128) -> Option<i128>
    ensures { result ≡ nearest side (i *ℤ j) }
{
    side.nearest(i.checked_mul(j), (i < 0) != (j < 0))
}

// So to a quotient, which has more than 128 bits only where the least number is divided by -1.
fn quotient(side: Side, i: i128, j: i128) -> Option<i128>
    requires { j ≢ pos 0 }
    ensures { result ≡ nearest side (int_div i j) }
{
    side.nearest(i.checked_div(j), false)
}

// The one of four that lies furthest on that side, if all are known.
fn outermost(
    side: Side,
    i: Option<i128>,
    j: Option<i128>,
    k: Option<i128>,
    l: Option<i128>,
) -> Option<i128>
    ensures { let both = of_both (λ m n. Some (outer side m n)) in result ≡ both (both i j) (both k l) }
{
    Some(side.outer(side.outer(i?, j?), side.outer(k?, l?)))
}

// The end of a product on that side.
fn product_end(side: Side, x: Interval, y: Interval) -> Option<i128>
    ensures { result ≡ nearest side (corner side ◌*ℤ◌ x y) }
{
    outermost(
        side,
        product(side, x.from, y.from),
        product(side, x.from, y.to),
        product(side, x.to, y.from),
        product(side, x.to, y.to),
    )
}

// The end of a quotient on that side. Asks for divisors that aren't zero.
fn quotient_end(side: Side, x: Interval, y: Interval) -> Option<i128>
    requires nonzero { IsTrue (is_nonzero y) }
    requires ordered { y.from ≤ℤ y.to }
    ensures { result ≡ nearest side (corner side int_div x y) }
{
    outermost(
        side,
        quotient(side, x.from, y.from),
        quotient(side, x.from, y.to),
        quotient(side, x.to, y.from),
        quotient(side, x.to, y.to),
    )
}

// How far from zero a remainder may lie. Asks for divisors that aren't zero.
fn reach(y: Interval) -> i128
    requires nonzero { IsTrue (is_nonzero y) }
    requires ordered { y.from ≤ℤ y.to }
    ensures { result ≡ reach y }
{
    if 0 < y.from { y.to - 1 } else { -1 - y.from }
}

// The end of a remainder on that side, by that of the dividend.
fn remainder_end(side: Side, dividend: Option<i128>, y: Interval) -> i128
    requires nonzero { IsTrue (is_nonzero y) }
    requires ordered { y.from ≤ℤ y.to }
    ensures { result ≡ remainder_end side dividend (reach y) }
{
    let furthest = side.towards(reach(y));
    match dividend {
        Some(end) => side.across().outer(furthest, side.outer(end, 0)),
        None => furthest,
    }
}

// The end of what is computed of two numbers on that side, where it is known.
pub(crate) fn span_end(arithmetic: Arithmetic, side: Side, x: Span, y: Span) -> Option<i128>
    ensures { result ≡ span_end arithmetic side x y }
{
    match arithmetic {
        Arithmetic::Sum => sum(side, x.end(side)?, y.end(side)?),
        Arithmetic::Difference => difference(side, x.end(side)?, y.end(side.across())?),
        Arithmetic::Product => product_end(side, x.interval()?, y.interval()?),
        Arithmetic::Quotient => quotient_end(side, x.interval()?, y.divisors()?),
        Arithmetic::Remainder => Some(remainder_end(side, x.end(side), y.divisors()?)),
    }
}

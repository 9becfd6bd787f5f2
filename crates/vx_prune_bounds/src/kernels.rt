// Bounds of what functions give of values within bounds.
ghost use Rattle.std.specs.Prelude.{◌≡◌, ℤ, option_map};
ghost use Rattle.vx_value.specs.Types.{int, null};
ghost use Rattle.vx_fn.specs.Values.{computed};
ghost use Rattle.vx_prune_bounds.specs.Bounds.{exactly, Contains};
ghost use Rattle.vx_prune_bounds.specs.Kernels.{whole, span, arithmetic_bounds, only_if, not_null, fill_bounds, choice_bounds, mask_bounds, null_truths, shaped_as, length_bounds};
ghost use Rattle.vx_prune_bounds.specs.Truths.{truths_in, truth_bounds};
ghost use Rattle.vx_prune_bounds.specs.Views.{endpoint_value, bounds_view};

use crate::bounds::Bounds;
use crate::endpoint::Endpoint;
use crate::spans::{Side, Span, span_end};
use crate::truths::Truths;
use vx_floats::Arithmetic;

impl<'a> Bounds<'a> {
    /// What null alone is within. Takes no memory.
    pub fn only_null() -> Bounds<'a>
        ensures { bounds_view result ≡ exactly null }
    {
        Bounds {
            null: true,
            value: false,
            least: None,
            greatest: None,
        }
    }

    /// The bounds of a truth value that may be these. Takes no memory.
    pub fn of_truths(truths: Truths) -> Bounds<'a>
        ensures { bounds_view result ≡ truth_bounds truths }
    {
        Bounds {
            null: truths.null,
            value: truths.no || truths.yes,
            least: Some(Endpoint::Bool(!truths.no)),
            greatest: Some(Endpoint::Bool(truths.yes)),
        }
    }

    /// Which of null, false and true are within these bounds. Takes no memory.
    pub fn truths(&self) -> Truths
        ensures { result ≡ truths_in (bounds_view self.now) }
    {
        Truths {
            null: self.null,
            no: self.admits(&Endpoint::Bool(false)),
            yes: self.admits(&Endpoint::Bool(true)),
        }
    }

    /// Whether a value within these bounds is null. Takes no memory.
    pub fn null_truths(&self) -> Truths
        ensures { result ≡ null_truths (bounds_view self.now) }
    {
        Truths {
            null: false,
            no: self.value,
            yes: self.null,
        }
    }

    /// The same bounds, without null. Takes no memory.
    pub fn not_null(&self) -> Bounds<'a>
        ensures { bounds_view result ≡ not_null (bounds_view self.now) }
    {
        Bounds {
            null: false,
            value: self.value,
            least: self.least,
            greatest: self.greatest,
        }
    }

    /// The same bounds where that may be, else what no value is within. Takes no memory.
    pub fn only_if(&self, may_be: bool) -> Bounds<'a>
        ensures { bounds_view result ≡ only_if may_be (bounds_view self.now) }
    {
        if may_be {
            Bounds {
                null: self.null,
                value: self.value,
                least: self.least,
                greatest: self.greatest,
            }
        } else {
            Bounds::nothing()
        }
    }

    // Between which whole numbers a value within these bounds lies.
    fn span(&self) -> Span
        ensures { result ≡ span (bounds_view self.now) }
    {
        Span {
            least: whole(self.least),
            greatest: whole(self.greatest),
        }
    }

    /// The bounds of a value that is null where a value within these is, with no ends. Takes no
    /// memory.
    pub fn shaped_as(&self) -> Bounds<'a>
        ensures { bounds_view result ≡ shaped_as (bounds_view self.now) }
    {
        Bounds {
            null: self.null,
            value: self.value,
            least: None,
            greatest: None,
        }
    }

    /// The bounds of the length of a value within these: null where the value is, else no less than
    /// 0. Takes no memory.
    pub fn lengths(&self) -> Bounds<'a>
        ensures { bounds_view result ≡ length_bounds (bounds_view self.now) }
    {
        Bounds {
            null: self.null,
            value: self.value,
            least: Some(Endpoint::Int(0)),
            greatest: None,
        }
    }
}

/// Bounds of what is computed of two numbers. The ends of whole numbers and of decimals, by their
/// units, are known as far as the operands' are: of a sum or a difference each by one end of both, of
/// a product or a quotient by all four, and of a remainder by those of the divisor. Where the divisor
/// may be zero no end is known, and none is of floating-point numbers. An end beyond 128 bits is cut to
/// them, or isn't known. Of a row that faults, as one with a result outside of its type, nothing is
/// said. Takes no memory.
pub fn arithmetic_bounds<'a>(arithmetic: Arithmetic, x: &Bounds, y: &Bounds) -> Bounds<'a>
    ensures exact { bounds_view result ≡ arithmetic_bounds arithmetic (bounds_view x.now) (bounds_view y.now) }
    ensures hold { (i j : ℤ) → Contains (bounds_view x.now) (int i) → Contains (bounds_view y.now) (int j) → Contains (bounds_view result) (computed arithmetic (int i) (int j)) }
{
    let (a, b) = (x.span(), y.span());
    Bounds {
        null: x.null || y.null,
        value: x.value && y.value,
        least: whole_endpoint(span_end(arithmetic, Side::Least, a, b)),
        greatest: whole_endpoint(span_end(arithmetic, Side::Greatest, a, b)),
    }
}

// The number as an end, if there is one.
fn whole_endpoint<'a>(number: Option<i128>) -> Option<Endpoint<'a>>
    ensures { option_map endpoint_value result ≡ option_map int number }
{
    match number {
        Some(i) => Some(Endpoint::Int(i)),
        None => None,
    }
}

// The number that an end is, if it is a whole one.
fn whole(end: Option<Endpoint>) -> Option<i128>
    ensures { result ≡ whole (option_map endpoint_value end.entry) }
{
    match end {
        Some(Endpoint::Int(i)) => Some(i),
        _ => None,
    }
}

/// Bounds of a value, or of its fill where it is null. Takes no memory.
pub fn fill_bounds<'a>(x: &Bounds<'a>, fill: &Bounds<'a>) -> Bounds<'a>
    ensures { bounds_view result ≡ fill_bounds (bounds_view x.now) (bounds_view fill.now) }
{
    x.not_null().join(&fill.only_if(x.null))
}

/// Bounds of the first value where the mask is true, and else of the second. Takes no memory.
pub fn choice_bounds<'a>(mask: Truths, x: &Bounds<'a>, y: &Bounds<'a>) -> Bounds<'a>
    ensures { bounds_view result ≡ choice_bounds mask (bounds_view x.now) (bounds_view y.now) }
{
    x.only_if(mask.yes).join(&y.only_if(mask.may_fail()))
}

/// Bounds of the value where the mask is true, and else of null. Takes no memory.
pub fn mask_bounds<'a>(x: &Bounds<'a>, mask: Truths) -> Bounds<'a>
    ensures { bounds_view result ≡ mask_bounds (bounds_view x.now) mask }
{
    choice_bounds(mask, x, &Bounds::only_null())
}

// What comparisons of values within bounds may give.
ghost use Rattle.std.specs.Prelude.{◌≡◌, ◌&&◌, ◌||◌, not, option_map};
ghost use Rattle.vx_fn.specs.Functions.{compares};
ghost use Rattle.vx_fn.specs.Values.{bound_comparison};
ghost use Rattle.vx_fn.specs.Views.{operation_of, is_strict};
ghost use Rattle.vx_prune_bounds.specs.Comparing.{both_known, all_at_most, all_below, operation_truths, between_truths};
ghost use Rattle.vx_prune_bounds.specs.Order.{at_most, below};
ghost use Rattle.vx_prune_bounds.specs.Truths.{truths};
ghost use Rattle.vx_prune_bounds.specs.Views.{endpoint_value, bounds_view};

use crate::bounds::Bounds;
use crate::endpoint::Endpoint;
use crate::truths::Truths;
use vx_fn::{BetweenOptions, Operator, StrictComparison};

/// What the comparison may give of a value within the first bounds and one within the second.
/// Anything, if the operator is none of the six comparisons. Takes no memory.
pub fn comparison_truths(operator: Operator, x: &Bounds, y: &Bounds) -> Truths
    ensures { result ≡ operation_truths (operation_of operator) (bounds_view x.now) (bounds_view y.now) }
{
    match operator {
        Operator::Eq => answers(x, y, are_equal(x, y), are_apart(x, y)),
        Operator::NotEq => answers(x, y, are_apart(x, y), are_equal(x, y)),
        Operator::Gt => answers(x, y, all_below(y, x), all_at_most(x, y)),
        Operator::Gte => answers(x, y, all_at_most(y, x), all_below(x, y)),
        Operator::Lt => answers(x, y, all_below(x, y), all_at_most(y, x)),
        Operator::Lte => answers(x, y, all_at_most(x, y), all_below(y, x)),
        Operator::And
        | Operator::Or
        | Operator::Add
        | Operator::Sub
        | Operator::Mul
        | Operator::Div
        | Operator::Rem => Truths {
            null: true,
            no: true,
            yes: true,
        },
    }
}

/// What a `Between` may give of a value within the first bounds and of bounds within the others.
/// Takes no memory.
pub fn between_truths(
    options: &BetweenOptions,
    x: &Bounds,
    lower: &Bounds,
    upper: &Bounds,
) -> Truths
    ensures { result ≡ between_truths (is_strict options.now.lower_strict) (is_strict options.now.upper_strict)
        (bounds_view x.now) (bounds_view lower.now) (bounds_view upper.now) }
{
    let above = comparison_truths(below(options.lower_strict), lower, x);
    let below = comparison_truths(below(options.upper_strict), x, upper);
    above.and(below)
}

// The comparison of a bound.
fn below(strict: StrictComparison) -> Operator
    ensures { operation_of result ≡ compares (bound_comparison (is_strict strict)) }
{
    match strict {
        StrictComparison::Strict => Operator::Lt,
        StrictComparison::NonStrict => Operator::Lte,
    }
}

// Null where one may be null, and true and false where both may be values, unless the comparison
// holds of all of them or of none.
fn answers(x: &Bounds, y: &Bounds, of_all: bool, of_none: bool) -> Truths
    ensures { result ≡ truths (x.now.null || y.now.null) ((x.now.value && y.now.value) && not of_all) ((x.now.value && y.now.value) && not of_none) }
{
    let both = x.value && y.value;
    Truths {
        null: x.null || y.null,
        no: both && !of_all,
        yes: both && !of_none,
    }
}

// Whether each value within the one is equal to each within the other.
fn are_equal(x: &Bounds, y: &Bounds) -> bool
    ensures { result ≡ (all_at_most (bounds_view x.now) (bounds_view y.now) && all_at_most (bounds_view y.now) (bounds_view x.now)) }
{
    all_at_most(x, y) && all_at_most(y, x)
}

// Whether all values within the one come before all within the other.
fn are_apart(x: &Bounds, y: &Bounds) -> bool
    ensures { result ≡ (all_below (bounds_view x.now) (bounds_view y.now) || all_below (bounds_view y.now) (bounds_view x.now)) }
{
    all_below(x, y) || all_below(y, x)
}

// Whether each value within the first is at most each within the second.
fn all_at_most(x: &Bounds, y: &Bounds) -> bool
    ensures { result ≡ all_at_most (bounds_view x.now) (bounds_view y.now) }
{
    match x.greatest {
        None => false,
        Some(g) => match y.least {
            None => false,
            Some(l) => g.at_most(&l),
        },
    }
}

// Whether each value within the first comes before each within the second.
fn all_below(x: &Bounds, y: &Bounds) -> bool
    ensures { result ≡ all_below (bounds_view x.now) (bounds_view y.now) }
{
    match x.greatest {
        None => false,
        Some(g) => match y.least {
            None => false,
            Some(l) => g.below(&l),
        },
    }
}

// What LIKE may give of texts between a least and a greatest one.
ghost use Rattle.std.specs.Prelude.{◌≡◌, false, option_map};
ghost use Rattle.vx_prune_bounds.specs.Views.{endpoint_value, bounds_view};
ghost use Rattle.vx_prune_bounds.specs.Beginnings.{beginning, is_before, is_past, none_like, only_text, surely_unlike, like_truths};

use crate::beginning::{is_before_beginning, is_past_beginning};
use crate::bounds::Bounds;
use crate::endpoint::Endpoint;
use crate::truths::Truths;

/// What `LIKE` may give of a text and a pattern within these bounds: never true where there is but
/// one pattern, and no text within the bounds begins as it does. Nothing is known of how texts
/// begin where the ASCII case is ignored. Where it is negated, true and false are turned round.
/// Takes no memory, and time by the pattern's length.
pub fn like_truths(negated: bool, ignore_case: bool, text: &Bounds, pattern: &Bounds) -> Truths
    ensures { result ≡ like_truths negated ignore_case (bounds_view text.now) (bounds_view pattern.now) }
{
    let both = text.value && pattern.value;
    let truths = Truths {
        null: text.null || pattern.null,
        no: both,
        yes: both && !is_surely_unlike(ignore_case, text, pattern),
    };
    if negated { truths.not() } else { truths }
}

// Whether there is but one pattern, and no text within the bounds is like it.
fn is_surely_unlike(ignore_case: bool, text: &Bounds, pattern: &Bounds) -> bool
    ensures { result ≡ surely_unlike ignore_case (bounds_view text.now) (only_text (bounds_view pattern.now)) }
{
    match only_text(pattern) {
        Some(known) => is_none_like(ignore_case, text, known),
        None => false,
    }
}

// The only text that may be within the bounds.
pub(crate) fn only_text<'a>(bounds: &Bounds<'a>) -> Option<&'a str>
    ensures { option_map (λ s. s.now) result ≡ only_text (bounds_view bounds.now) }
{
    match (bounds.least, bounds.greatest) {
        (Some(Endpoint::Text(least)), Some(greatest)) => {
            if greatest.at_most(&Endpoint::Text(least)) {
                Some(least)
            } else {
                None
            }
        }
        _ => None,
    }
}

// Whether each text within the bounds begins otherwise than the pattern.
fn is_none_like(ignore_case: bool, text: &Bounds, pattern: &str) -> bool
    ensures { result ≡ none_like ignore_case (bounds_view text.now) pattern.now }
{
    !ignore_case && (is_before(pattern, text.greatest) || is_past(pattern, text.least))
}

// Whether the greatest text, and so each, comes before all those that begin as the pattern does.
fn is_before(pattern: &str, greatest: Option<Endpoint>) -> bool
    ensures { result ≡ is_before (beginning false pattern.now) (option_map endpoint_value greatest.entry) }
{
    match greatest {
        Some(Endpoint::Text(text)) => is_before_beginning(text, pattern),
        _ => false,
    }
}

// Whether the least text, and so each, comes behind all those that begin as the pattern does.
fn is_past(pattern: &str, least: Option<Endpoint>) -> bool
    ensures { result ≡ is_past (beginning false pattern.now) (option_map endpoint_value least.entry) }
{
    match least {
        Some(Endpoint::Text(text)) => is_past_beginning(text, pattern),
        _ => false,
    }
}

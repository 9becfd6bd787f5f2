// What a test of a beginning may give of texts between a least and a greatest one.
ghost use Rattle.std.specs.Prelude.{◌≡◌, option_map, Some};
ghost use Rattle.vx_value.specs.Types.{utf8};
ghost use Rattle.vx_prune_bounds.specs.Views.{endpoint_value, bounds_view};
ghost use Rattle.vx_prune_bounds.specs.Beginnings.{beginning_cmp, is_before, is_past, only_text};
ghost use Rattle.vx_prune_bounds.specs.Begun.{bytes_of, none_begins, surely_otherwise, begun_truths};

use crate::bounds::Bounds;
use crate::endpoint::Endpoint;
use crate::like::only_text;
use crate::truths::Truths;
use std::cmp::Ordering;

/// What a test of a beginning may give of a text and a prefix within these bounds: never true where there is
/// but one prefix, and no text within the bounds begins with it. Takes no memory, and time by the
/// prefix's length.
pub fn begun_truths(text: &Bounds, prefix: &Bounds) -> Truths
    ensures { result ≡ begun_truths (bounds_view text.now) (bounds_view prefix.now) }
{
    let both = text.value && prefix.value;
    Truths {
        null: text.null || prefix.null,
        no: both,
        yes: both && !is_surely_otherwise(text, prefix),
    }
}

// Whether there is but one prefix, and no text within the bounds begins with it.
fn is_surely_otherwise(text: &Bounds, prefix: &Bounds) -> bool
    ensures { result ≡ surely_otherwise (bounds_view text.now) (only_text (bounds_view prefix.now)) }
{
    match only_text(prefix) {
        Some(known) => none_begins(text, known),
        None => false,
    }
}

// Whether each text within the bounds begins otherwise.
fn none_begins(text: &Bounds, prefix: &str) -> bool
    ensures { result ≡ none_begins (bounds_view text.now) prefix.now }
{
    is_before(prefix, text.greatest) || is_past(prefix, text.least)
}

// Whether the greatest text, and so each, comes before all those that begin so.
fn is_before(prefix: &str, greatest: Option<Endpoint>) -> bool
    ensures { result ≡ is_before (bytes_of prefix.now) (option_map endpoint_value greatest.entry) }
{
    match greatest {
        Some(Endpoint::Text(text)) => comes_before(text, prefix),
        _ => false,
    }
}

// Whether the least text, and so each, comes behind all those that begin so.
fn is_past(prefix: &str, least: Option<Endpoint>) -> bool
    ensures { result ≡ is_past (bytes_of prefix.now) (option_map endpoint_value least.entry) }
{
    match least {
        Some(Endpoint::Text(text)) => comes_behind(text, prefix),
        _ => false,
    }
}

// Whether the text comes before all those that begin so.
fn comes_before(text: &str, prefix: &str) -> bool
    ensures { result ≡ is_before (bytes_of prefix.now) (Some (utf8 text.now)) }
{
    compare_beginning(prefix, text).is_gt()
}

// Whether the text comes behind all those that begin so.
fn comes_behind(text: &str, prefix: &str) -> bool
    ensures { result ≡ is_past (bytes_of prefix.now) (Some (utf8 text.now)) }
{
    compare_beginning(prefix, text).is_lt()
}

// How the prefix compares with as many bytes of the text.
fn compare_beginning(prefix: &str, text: &str) -> Ordering
    ensures { result ≡ beginning_cmp (bytes_of prefix.now) text.now }
{
    let (wanted, found) = (prefix.as_bytes(), text.as_bytes());
    if wanted.len() < found.len() {
        wanted.cmp(&found[..wanted.len()])
    } else {
        wanted.cmp(found)
    }
}

// The bytes that a node was read from.
ghost use Rattle.std.specs.Prelude.{◌≡◌};
ghost use Rattle.vx_command_pages.specs.Spans as spans;

use crate::report::Span;
use vx_source::Places;

/// The bytes that the node at the path was read from, or, where it was read from none of its own, its
/// nearest node above that was.
pub fn span_at(places: &Places, path: &[usize]) -> Span
    ensures { result ≡ spans.span_at path.now places.now }
{
    let [index, rest @ ..] = path else {
        return own_span(places);
    };
    match places.children.get(*index) {
        Some(child) => span_at(child, rest),
        None => own_span(places),
    }
}

fn own_span(places: &Places) -> Span
    ensures { result ≡ spans.own_span places.now }
{
    Span {
        start: places.start,
        end: places.end,
    }
}

/// The bytes that the node at the path and those below it were read from, None where it was read from none of its own.
pub(crate) fn places_at<'a>(places: &'a Places, path: &[usize]) -> Option<&'a Places> {
    let mut place = places;
    for index in path {
        place = place.children.get(*index)?;
    }
    Some(place)
}

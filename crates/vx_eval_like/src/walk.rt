// The walk over a text along the parts of a pattern.
ghost use Rattle.std.specs.Prelude.{◌≡◌, ◌≤◌, ◌∷◌, List, length};
ghost use Rattle.vx_fn.specs.Values as values;
ghost use Rattle.vx_fn.specs.Values.{matches, some_rest};
ghost use Rattle.vx_eval_like.specs.Patterns.{characters, part_view, parts_view};
ghost use Rattle.vx_eval_like.specs.Walks.{Stops};

use crate::characters::split_first;
use crate::parts::Part;

// Where a run along parts stops.
enum Stop<'a> {
    // The parts and the text end together.
    AtEnd,
    // A part stands for any text: the parts after it, and what is left of the text.
    AtAnyText(&'a [Part], &'a str),
    Mismatch,
}

// Whether the parts spell the text.
pub(crate) fn spells(parts: &[Part], text: &str, ignore_case: bool) -> bool
    ensures { result ≡ matches (parts_view parts.now) (characters ignore_case text.now) }
{
    match run(parts, text, ignore_case) {
        Stop::AtEnd => true,
        Stop::AtAnyText(after, rest) => spells_some_rest(after, rest, ignore_case),
        Stop::Mismatch => false,
    }
}

// Whether the parts spell what follows some front of the text. The earliest end of each run
// leaves the most to the runs after it, so there is but one place to go back to.
fn spells_some_rest(parts: &[Part], text: &str, ignore_case: bool) -> bool
    ensures { result ≡ some_rest (matches (parts_view parts.now)) (characters ignore_case text.now) }
{
    let mut ahead = parts;
    let mut begin = text;
    while let Some((first, _)) = ahead.split_first() {
        begin = from_first_taken(*first, begin, ignore_case);
        match run(ahead, begin, ignore_case) {
            Stop::AtEnd => return true,
            Stop::AtAnyText(after, rest) => {
                ahead = after;
                begin = rest;
            }
            Stop::Mismatch => match split_first(begin, ignore_case) {
                Some((_, later)) => begin = later,
                None => return false,
            },
        }
    }
    // Any text at the end of the pattern takes all that is left.
    true
}

// The text from the first character on that the part takes, or all of it where the part stands for
// any text: no match of the part and others begins at those before it.
fn from_first_taken(part: Part, text: &str, ignore_case: bool) -> &str
    ensures rests { (ps : List values.Part) → some_rest (matches (part_view part ∷ ps)) (characters ignore_case result.now) ≡ some_rest (matches (part_view part ∷ ps)) (characters ignore_case text.now) }
    ensures shorter { length (characters ignore_case result.now) ≤ length (characters ignore_case text.now) }
{
    let mut left = text;
    if part.is_any_text() {
        return left;
    }
    while let Some((c, rest)) = split_first(left, ignore_case) {
        if part.takes(c) {
            break;
        }
        left = rest;
    }
    left
}

// Goes along the parts that stand for one character each, as far as they take the text's.
fn run<'a>(parts: &'a [Part], text: &'a str, ignore_case: bool) -> Stop<'a>
    ensures { Stops ignore_case (parts_view parts.now) (characters ignore_case text.now) result }
{
    let mut ahead = parts;
    let mut left = text;
    while let Some((part, after)) = ahead.split_first() {
        if part.is_any_text() {
            return Stop::AtAnyText(after, left);
        }
        match split_first(left, ignore_case) {
            Some((c, rest)) if part.takes(c) => {
                ahead = after;
                left = rest;
            }
            _ => return Stop::Mismatch,
        }
    }
    if left.is_empty() {
        Stop::AtEnd
    } else {
        Stop::Mismatch
    }
}

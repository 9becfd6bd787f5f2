// Places in a text of SQL.
ghost use Rattle.std.specs.Str.{IsCharBoundary};
ghost use Rattle.vx_sql_parser.specs.Reading.{IsMoved, IsPlacedIn, IsRefusal};

use crate::error::SqlError;
use crate::source::{Refusal, SqlSource};
use crate::step::Stop;
use vx_source_over::OverError;

// The byte, or the last one before it at which a character of the text begins.
#[tactic(auto, using(crate::proofs::Boundaries::begins))]
pub(crate) fn boundary(text: &str, at: usize) -> usize
    ensures { IsCharBoundary text.now result }
{
    let mut at = at.min(text.len());
    while at > 0 {
        if text.is_char_boundary(at) {
            return at;
        }
        at -= 1;
    }
    0
}

// Where the token of the text stands that was written as the piece of source text at that byte, and where there is none
// the text's end.
fn place_of(source: &SqlSource, at: usize, len: usize) -> usize {
    if at >= source.text.len() {
        return len;
    }
    let mut found = 0;
    for place in &source.places {
        if place.start > at {
            break;
        }
        found = place.at;
    }
    found
}

// The error by bytes of the text.
pub(crate) fn placed(error: OverError, source: &SqlSource, text: &str) -> SqlError
    ensures same { IsMoved error result }
    ensures placed { IsPlacedIn text.now result }
{
    match error {
        OverError::OutOfMemory => SqlError::OutOfMemory,
        OverError::Unexpected { at, expected } => {
            let at = boundary(text, place_of(source, at, text.len()));
            SqlError::Source(OverError::Unexpected { at, expected })
        }
        OverError::Misfit {
            scalar,
            dtype,
            start,
            end,
        } => {
            let start = boundary(text, place_of(source, start, text.len()));
            let end = boundary(text, place_of(source, end, text.len()));
            SqlError::Source(OverError::Misfit {
                start,
                end,
                scalar,
                dtype,
            })
        }
    }
}

// The refusal of a text that isn't written as source text.
pub(crate) fn unread(refusal: Refusal, text: &str) -> SqlError
    ensures reason { IsRefusal refusal.stop result }
    ensures placed { IsPlacedIn text.now result }
{
    match refusal.stop {
        Stop::OutOfMemory => SqlError::OutOfMemory,
        Stop::Unread(reason) => SqlError::Unread {
            at: boundary(text, refusal.at),
            reason,
        },
    }
}

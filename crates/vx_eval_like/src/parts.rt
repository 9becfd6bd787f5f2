// The parts of a pattern, and how its text spells them.
ghost use Rattle.std.specs.Prelude.{◌≡◌, ◌∷◌, ◌<◌, [], length, IfOk, IfSome, MatchOption};
ghost use Rattle.vx_fn.specs.Values.{part_of};
ghost use Rattle.vx_eval_like.specs.Patterns.{characters, part_view, parts_view, is_any_text, takes, spelled_by};

use crate::characters::split_first;
use std::alloc::{AllocError, Global};

/// What a place of a pattern stands for.
#[derive(Clone, Copy)]
pub enum Part {
    /// Any text, the empty one too.
    AnyText,
    /// Any one character.
    AnyOne,
    /// This character alone.
    Just(char),
}

impl Part {
    // What the character stands for with no backslash before it.
    fn of(c: char) -> Part
        ensures { part_view result ≡ part_of c }
    {
        match c {
            '%' => Part::AnyText,
            '_' => Part::AnyOne,
            _ => Part::Just(c),
        }
    }

    pub(crate) fn is_any_text(self) -> bool
        ensures { result ≡ is_any_text (part_view self) }
    {
        matches!(self, Part::AnyText)
    }

    // Whether the part stands for one character, and for this one.
    pub(crate) fn takes(self, c: char) -> bool
        ensures { result ≡ takes (part_view self) c }
    {
        match self {
            Part::AnyText => false,
            Part::AnyOne => true,
            Part::Just(wanted) => c == wanted,
        }
    }
}

// The parts that the pattern spells.
pub(crate) fn parts_of(
    alloc: Global,
    pattern: &str,
    ignore_case: bool,
) -> Result<Vec<Part>, AllocError>
    ensures { IfOk result (λ read. parts_view read.items ≡ spelled_by ignore_case pattern.now) }
{
    let mut read = Vec::new(alloc);
    let mut rest = pattern;
    while let Some((part, after)) = first_part(rest, ignore_case) {
        read.push(part)?;
        rest = after;
    }
    Ok(read)
}

/// The first part that the pattern spells, and the pattern after it. A backslash at the end stands
/// for itself.
pub fn first_part(pattern: &str, ignore_case: bool) -> Option<(Part, &str)>
    ensures part { MatchOption result (spelled_by ignore_case pattern.now ≡ [])
        (λ p. spelled_by ignore_case pattern.now ≡ part_view p.0 ∷ spelled_by ignore_case p.1.now) }
    ensures shorter { IfSome result
        (λ p. length (characters ignore_case p.1.now) < length (characters ignore_case pattern.now)) }
{
    let (first, rest) = split_first(pattern, ignore_case)?;
    if first != '\\' {
        return Some((Part::of(first), rest));
    }
    match split_first(rest, ignore_case) {
        Some((quoted, after)) => Some((Part::Just(quoted), after)),
        None => Some((Part::Just(first), rest)),
    }
}

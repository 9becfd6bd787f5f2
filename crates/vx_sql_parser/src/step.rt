// What a token is written as.
ghost use Rattle.std.specs.Prelude.{◌≡◌, Ok, string_bytes};
ghost use Rattle.vx_sql_parser.specs.Steps as steps;
ghost use Rattle.vx_sql_parser.specs.RuleViews.{Answers};
ghost use Rattle.vx_sql_parser.specs.declared.step.Stop.TheVariants as stops;

use crate::reason::Unread;
use std::alloc::{AllocError, AllocFailed, Global};
use vx_dtype::FieldName;

/// What is open.
#[derive(Drop)]
pub(crate) enum Bracket {
    /// A parenthesis.
    Paren,
    /// The bracket of a `coalesce`.
    Fill,
    /// The bracket of a `lower`, behind which a match ignores the case of letters.
    Lower,
    /// The same of a `translate`.
    Translate,
    /// The bracket of a function that divides whole numbers.
    Divided,
    /// The bracket of the inner of two functions that count the bytes of a text.
    Length,
    /// A CASE.
    Case,
    /// A CASE over the column of that name.
    CaseOf(FieldName),
}

/// What a token makes of what is open.
#[derive(Drop)]
pub(crate) enum Change {
    /// Nothing.
    Stays,
    /// A `<` or `<=` stands in it.
    Chains,
    /// A word or a comma divides it.
    Divides,
    /// A bracket opens in it.
    Opens(Bracket),
    /// It closes.
    Closes,
}

/// What a token is written as.
#[derive(Drop)]
pub(crate) struct Step {
    /// The source text.
    pub text: String,
    /// What it makes of what is open.
    pub change: Change,
    /// How many tokens behind it are written with it.
    pub more: usize,
}

/// Why a token isn't written.
#[derive(Clone, Copy)]
pub(crate) enum Stop {
    /// Memory ran out.
    OutOfMemory,
    /// It isn't read.
    Unread(Unread),
}

impl From<AllocError> for Stop {
    ghost from_gives = { λ _ e. e ≡ stops.OutOfMemory };

    fn from(_e: AllocError) -> Stop {
        Stop::OutOfMemory
    }
}

impl<T: Drop> From<AllocFailed<T>> for Stop {
    ghost from_gives = { λ _ e. e ≡ stops.OutOfMemory };

    fn from(_e: AllocFailed<T>) -> Stop {
        Stop::OutOfMemory
    }
}

// The text, the change, and how many tokens behind are written with it.
pub(crate) fn says(alloc: Global, text: &str, change: Change, more: usize) -> Result<Step, Stop>
    ensures { Answers result (steps.says text.now change more) }
{
    let text = String::from_str(alloc, text)?;
    Ok(Step { text, change, more })
}

// The same of a text that is there.
pub(crate) fn stepped(text: String, change: Change, more: usize) -> Step
    ensures { Answers (Ok result) (steps.says (string_bytes text) change more) }
{
    Step { text, change, more }
}

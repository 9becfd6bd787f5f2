// Whole texts of scalars.
ghost use Rattle.std.specs.Prelude.{◌≡◌, ◌≤◌, ◌⊎◌, ℕ, List, length, MatchOption, MatchResult, option_map, Some, None, Ok, Err, IfOk};
ghost use Rattle.vx_value.specs.Columns.{Constant};
ghost use Rattle.vx_value.specs.Fits.{Fits};
ghost use Rattle.vx_source_types.specs.declared.error.ParseError.TheVariants.{Unexpected};
ghost use Rattle.vx_source_types.specs.declared.expectation.Expected.TheVariants.{Number as ANumber};
ghost use Rattle.vx_source_types.specs.Views.{lexeme_of};
ghost use Rattle.vx_source_types.specs.Reading.{ReadsAt, whole_text, IsRead, Gives};
ghost use Rattle.vx_source_types.specs.TypePrintable.{IsPrintable, type_nesting};
ghost use Rattle.vx_source_types.specs.ScalarReading as reading;
ghost use Rattle.vx_source_types.specs.ScalarReading.{ReadsFrom, ParsesWithin};
ghost use Rattle.vx_source_types.specs.ScalarTexts.{scalar_source};
ghost use Rattle.vx_source_types.specs.Literals.{plain_literal};
ghost use Rattle.vx_source_types.specs.ScalarViews.{mode_of, begun_of, step_of};
ghost use Rattle.vx_source_types.specs.ScalarPrintable.{IsSpelledValue, value_nesting};
ghost use Rattle.vx_source_types.specs.ValueViews.{draft_of};

use crate::error::ParseError;
use crate::expectation::Expected;
use crate::first::{Found, first_token};
use crate::literal::{number_literal, plain_literal, typed_literal};
use crate::state::{expected, refusal};
use crate::token::{Sign, Token};
use crate::type_parser::DEFAULT_NESTING;
use crate::type_state::{TypeReader, TypeStep};
use crate::value_state::{Draft, ValueReader, ValueStep};
use std::alloc::Global;
use vx_value::Scalar;

/// The scalar that the text says: a value, and its type where it isn't plain, with at most 200 brackets inside one another.
/// Refuses with the byte where reading stopped, or where the value begins, and what would have stood right there, and with
/// `OutOfMemory`. Time is linear in the text.
pub fn parse_scalar(alloc: Global, text: &str) -> Result<Scalar, ParseError>
    ensures parses { ParsesWithin (reading.scalar_step 200) reading.scalar_due text.now (λ c. c) result }
    ensures complete { (c : Constant) → IsRead (reading.scalar_step 200) reading.scalar_due text.now c → Gives (λ d. d) result c }
    ensures again { (c : Constant) → Fits c.value c.type → IsSpelledValue c.value → IsPrintable c.type → value_nesting c.value ≤ 200 → type_nesting c.type ≤ 200
        → text.now ≡ scalar_source c.value c.type → Gives (λ d. d) result c }
{
    parse_scalar_with(alloc, text, DEFAULT_NESTING)
}

/// The same, with that many brackets allowed inside one another. Time is linear in the text.
pub fn parse_scalar_with(alloc: Global, text: &str, nesting: usize) -> Result<Scalar, ParseError>
    ensures parses { ParsesWithin (reading.scalar_step nesting) reading.scalar_due text.now (λ c. c) result }
    ensures complete { (c : Constant) → IsRead (reading.scalar_step nesting) reading.scalar_due text.now c → Gives (λ d. d) result c }
    ensures again { (c : Constant) → Fits c.value c.type → IsSpelledValue c.value → IsPrintable c.type → value_nesting c.value ≤ nesting → type_nesting c.type ≤ nesting
        → text.now ≡ scalar_source c.value c.type → Gives (λ d. d) result c }
{
    read_scalar(alloc, text, nesting)
}

// The same, as a loop.
fn read_scalar(alloc: Global, text: &str, nesting: usize) -> Result<Scalar, ParseError>
    ensures { ParsesWithin (reading.scalar_step nesting) reading.scalar_due text.now (λ c. c) result }
{
    let first = first_token(alloc, text, 0)?;
    // Where the value stands, for what is refused behind it.
    let begun = first.at;
    let mut mode = begin(alloc, nesting, &first)?;
    let mut from = first.end;
    loop {
        let found = first_token(alloc, text, from)?;
        match mode.step(alloc, nesting, begun, &found) {
            Ok(ScalarStep::More(next)) => mode = next,
            Ok(ScalarStep::Done(scalar)) => return whole(scalar, &found),
            Err(error) => return Err(error),
        }
        from = found.end;
        drop(found);
    }
}

// The scalar that was read, where the text ends behind it.
fn whole(scalar: Scalar, found: &Found) -> Result<Scalar, ParseError>
    ensures { ReadsAt found.now.at (λ c. c) result (whole_text scalar (lexeme_of found.now.token)) }
{
    match &found.token {
        Token::End => Ok(scalar),
        _ => Err(refusal(found, Expected::End)),
    }
}

/// A scalar that is being read.
#[derive(Drop)]
pub enum ScalarMode {
    /// Nothing is read yet.
    Due,
    /// A value.
    Value(ValueReader),
    /// The type behind a value.
    Typed(Draft, TypeReader),
    /// A number with its type is there.
    Whole(Scalar),
}

/// What a token makes of a scalar that is being read.
#[derive(Drop)]
pub enum ScalarStep {
    /// The token is a part of it.
    More(ScalarMode),
    /// The scalar has ended before the token.
    Done(Scalar),
}

impl ScalarMode {
    /// Reads a token of a scalar whose value begins at that byte.
    pub fn step(
        self,
        alloc: Global,
        nesting: usize,
        begun: usize,
        found: &Found,
    ) -> Result<ScalarStep, ParseError>
        ensures { ReadsFrom begun found.now.at step_of result (reading.scalar_step nesting (mode_of self) (lexeme_of found.now.token)) }
    {
        match self {
            ScalarMode::Due => Ok(ScalarStep::More(begin(alloc, nesting, found)?)),
            ScalarMode::Value(reader) => match reader.step(alloc, found)? {
                ValueStep::More(next) => Ok(ScalarStep::More(ScalarMode::Value(next))),
                ValueStep::Done(draft) => end_value(alloc, draft, nesting, begun, found),
            },
            ScalarMode::Typed(draft, reader) => match reader.step(alloc, found)? {
                TypeStep::More(next) => Ok(ScalarStep::More(ScalarMode::Typed(draft, next))),
                TypeStep::Done(dtype) => match typed_literal(draft, dtype) {
                    Some(scalar) => Ok(ScalarStep::Done(scalar)),
                    None => Err(unexpected(begun, Expected::FittingType)),
                },
            },
            ScalarMode::Whole(scalar) => Ok(ScalarStep::Done(scalar)),
        }
    }
}

// The beginning of a scalar: a number with its type, or a value.
fn begin(alloc: Global, nesting: usize, found: &Found) -> Result<ScalarMode, ParseError>
    ensures { ReadsAt found.now.at begun_of result (reading.scalar_step nesting reading.scalar_due (lexeme_of found.now.token)) }
{
    match suffixed(found) {
        Some(literal) => Ok(ScalarMode::Whole(literal?)),
        None => begin_value(alloc, nesting, found),
    }
}

// The beginning of a value.
fn begin_value(alloc: Global, nesting: usize, found: &Found) -> Result<ScalarMode, ParseError>
    ensures { ReadsAt found.now.at begun_of result (reading.scalar_begins nesting (lexeme_of found.now.token) None) }
{
    match ValueReader::new(alloc, nesting).step(alloc, found)? {
        ValueStep::More(reader) => Ok(ScalarMode::Value(reader)),
        ValueStep::Done(_) => Err(refusal(found, Expected::Value)),
    }
}

/// The number with a type behind it, or why there is no such number; None where the token is something else.
pub fn suffixed(found: &Found) -> Option<Result<Scalar, ParseError>>
    ensures { MatchOption result (reading.suffixed (lexeme_of found.now.token) ≡ None) (λ r. MatchResult r
        (λ c. reading.suffixed (lexeme_of found.now.token) ≡ Some (Some c))
        (λ e. (reading.suffixed (lexeme_of found.now.token) ≡ Some None) × (e ≡ Unexpected found.now.at ANumber))) }
{
    let Token::Number {
        negative,
        magnitude,
        suffix,
    } = &found.token
    else {
        return None;
    };
    if suffix.as_str().is_empty() {
        return None;
    }
    match number_literal(*negative, *magnitude, suffix) {
        Some(scalar) => Some(Ok(scalar)),
        None => Some(Err(expected(found, Expected::Number))),
    }
}

// A value has ended: its type follows, or the value is a scalar without one.
fn end_value(
    alloc: Global,
    draft: Draft,
    nesting: usize,
    begun: usize,
    found: &Found,
) -> Result<ScalarStep, ParseError>
    ensures { ReadsFrom begun found.now.at step_of result (reading.value_ended nesting (draft_of draft) (lexeme_of found.now.token)) }
{
    match &found.token {
        Token::Sign(Sign::DoubleColon) => {
            let reader = TypeReader::new(alloc, nesting);
            Ok(ScalarStep::More(ScalarMode::Typed(draft, reader)))
        }
        _ => end_plain(draft, begun),
    }
}

// A value that begins at that byte has ended, and no type follows.
fn end_plain(draft: Draft, begun: usize) -> Result<ScalarStep, ParseError>
    ensures { (at : ℕ) → ReadsFrom begun at step_of result (reading.ended (plain_literal (draft_of draft))) }
{
    match plain_literal(draft) {
        Ok(scalar) => Ok(ScalarStep::Done(scalar)),
        Err(expected) => Err(unexpected(begun, expected)),
    }
}

fn unexpected(at: usize, expected: Expected) -> ParseError
    ensures { result ≡ Unexpected at expected }
{
    ParseError::Unexpected { at, expected }
}

// Whole texts of types.
ghost use Rattle.std.specs.Prelude.{◌≡◌, ◌≤◌};
ghost use Rattle.vx_dtype.specs.Types.{LogicalType};
ghost use Rattle.vx_dtype.specs.Views.{type_of};
ghost use Rattle.vx_source_types.specs.Views.{lexeme_of};
ghost use Rattle.vx_source_types.specs.Reading.{ReadsAt, whole_text, IsRead, Parses, Gives};
ghost use Rattle.vx_source_types.specs.TypePrintable.{IsPrintable, type_nesting};
ghost use Rattle.vx_source_types.specs.TypeReading.{type_step, type_start};
ghost use Rattle.vx_source_types.specs.TypeTexts.{type_source};

use crate::error::ParseError;
use crate::expectation::Expected;
use crate::first::{Found, first_token};
use crate::state::refusal;
use crate::token::Token;
use crate::type_state::{TypeReader, TypeStep};
use std::alloc::Global;
use vx_dtype::DType;

/// How much nesting is allowed where no other number is given.
pub const DEFAULT_NESTING: usize = 200;

/// The type that the text says, with at most 200 brackets inside one another. Refuses with the byte where reading stopped
/// and what would have stood right there, and with `OutOfMemory`. Time is linear in the text.
pub fn parse_type(alloc: Global, text: &str) -> Result<DType, ParseError>
    ensures parses { Parses type_step (type_start 200) text.now type_of result }
    ensures complete { (t : LogicalType) → IsRead type_step (type_start 200) text.now t → Gives type_of result t }
    ensures again { (t : LogicalType) → IsPrintable t → type_nesting t ≤ 200 → text.now ≡ type_source t → Gives type_of result t }
{
    parse_type_with(alloc, text, DEFAULT_NESTING)
}

/// The same, with that many brackets allowed inside one another. Time is linear in the text.
pub fn parse_type_with(alloc: Global, text: &str, nesting: usize) -> Result<DType, ParseError>
    ensures parses { Parses type_step (type_start nesting) text.now type_of result }
    ensures complete { (t : LogicalType) → IsRead type_step (type_start nesting) text.now t → Gives type_of result t }
    ensures again { (t : LogicalType) → IsPrintable t → type_nesting t ≤ nesting → text.now ≡ type_source t → Gives type_of result t }
{
    read_type(alloc, text, nesting)
}

// The same, as a loop.
fn read_type(alloc: Global, text: &str, nesting: usize) -> Result<DType, ParseError>
    ensures { Parses type_step (type_start nesting) text.now type_of result }
{
    let mut reader = TypeReader::new(alloc, nesting);
    let mut from = 0;
    loop {
        let found = first_token(alloc, text, from)?;
        match reader.step(alloc, &found) {
            Ok(TypeStep::More(next)) => reader = next,
            Ok(TypeStep::Done(dtype)) => return whole(dtype, &found),
            Err(error) => return Err(error),
        }
        from = found.end;
    }
}

// The type that was read, where the text ends behind it.
fn whole(dtype: DType, found: &Found) -> Result<DType, ParseError>
    ensures { ReadsAt found.now.at type_of result (whole_text (type_of dtype) (lexeme_of found.now.token)) }
{
    match &found.token {
        Token::End => Ok(dtype),
        _ => Err(refusal(found, Expected::End)),
    }
}

// What the readers share.
ghost use Rattle.std.specs.Prelude.{◌≡◌, Ok};
ghost use Rattle.vx_source_types.specs.Views.{lexeme_of};
ghost use Rattle.vx_source_types.specs.declared.error.ParseError.TheVariants.{Unexpected};
ghost use Rattle.vx_source_types.specs.Reading.{ReadsAt, wanted_at};
ghost use Rattle.vx_source_types.specs.TypeReading.{within};

use crate::error::ParseError;
use crate::expectation::Expected;
use crate::first::Found;
use crate::token::Token;

/// The refusal of what was found, where something else should stand.
pub fn expected(found: &Found, expected: Expected) -> ParseError
    ensures { result ≡ Unexpected found.now.at expected }
{
    ParseError::Unexpected {
        at: found.at,
        expected,
    }
}

/// The refusal of the token: what would have stood right in its place, or inside it.
pub fn refusal(found: &Found, wanted: Expected) -> ParseError
    ensures { result ≡ Unexpected found.now.at (wanted_at (lexeme_of found.now.token) wanted) }
{
    match &found.token {
        Token::Invalid(inner) => expected(found, *inner),
        _ => expected(found, wanted),
    }
}

/// How much nesting is still allowed inside one more bracket.
pub fn inside(room: usize, found: &Found) -> Result<usize, ParseError>
    ensures { ReadsAt found.now.at (λ less. less) result (within room (λ less. Ok less)) }
{
    match room.checked_sub(1) {
        Some(less) => Ok(less),
        None => Err(expected(found, Expected::LessNesting)),
    }
}

// Refusals of what stands in options.
ghost use Rattle.std.specs.Prelude.{◌≡◌, ◌≤◌, ℕ};
ghost use Rattle.vx_source_types.specs.Reading.{wanted_at};
ghost use Rattle.vx_source_operands.specs.OperandViews.{lexeme_in};
ghost use Rattle.vx_source_types.specs.declared.error.ParseError.TheVariants.{Unexpected};
ghost use Rattle.vx_source_types.specs.declared.token.Sign.TheVariants.{CloseBracket as Closing};
ghost use Rattle.vx_source_types.specs.Tokens.{sign};
ghost use Rattle.vx_source_operands.specs.Parts.{IsNoLater};

use crate::state::begun_at;
use vx_source_types::{Expected, Found, ParseError, Sign, Token};

// The refusal of a token of the options, none of which lies behind the bracket that ends them.
pub(crate) fn refusal_in(found: &Found, end: &Found, wanted: Expected) -> ParseError
    ensures { (place : ℕ) × (place ≤ end.now.at) × (result ≡ Unexpected place (wanted_at (lexeme_in found.now) wanted)) }
{
    match &found.token {
        Token::Invalid(inner) => begun_at(found.at, end, *inner),
        _ => begun_at(found.at, end, wanted),
    }
}

// The same refusal, no later than the bracket.
pub(crate) fn no_later(error: ParseError, end: &Found) -> ParseError
    ensures { IsNoLater end.now.at error result }
{
    match error {
        ParseError::OutOfMemory => ParseError::OutOfMemory,
        ParseError::Unexpected { at, expected } => begun_at(at, end, expected),
    }
}

// The closing bracket where the options end.
pub(crate) fn bracket(end: &Found) -> Found
    ensures token { lexeme_in result ≡ sign Closing }
    ensures place { result.at ≡ end.now.at }
{
    Found {
        token: Token::Sign(Sign::CloseBracket),
        at: end.at,
        end: end.end,
    }
}

// The scalar that options say.
ghost use Rattle.vx_source_grammar.specs.OptionReading.{read_all};
ghost use Rattle.vx_source_operands.specs.Places.{ReadsUpTo};
ghost use Rattle.vx_source_operands.specs.OperandViews.{lexeme_in, lexemes_of};
ghost use Rattle.vx_source_operands.specs.Parts.{all_read, goes_on};
ghost use Rattle.vx_source_types.specs.ScalarReading.{scalar_due, scalar_step};
ghost use Rattle.vx_source_types.specs.ScalarViews.{mode_of};

use crate::context::Context;
use crate::refusals::{bracket, no_later, refusal_in};
use vx_source_types::{Expected, Found, ParseError, ScalarMode, ScalarStep, expected};
use vx_value::Scalar;

// The scalar that the tokens say, where the bracket behind the last was found.
pub(crate) fn scalar(context: Context, tokens: &[Found]) -> Result<Scalar, ParseError>
    ensures reads { ReadsUpTo context.entry.found.now.at (λ c. c) result (read_all (scalar_step context.entry.room) scalar_due (lexemes_of tokens.now)) }
{
    let begun = begin_of(tokens, context.found);
    let mut mode = ScalarMode::Due;
    for found in tokens {
        mode = more_of_scalar(context, mode, begun, found)?;
    }
    end_scalar(context, mode, begun)
}

// Where the scalar begins, for what is refused behind it.
fn begin_of(tokens: &[Found], end: &Found) -> usize {
    match tokens.first() {
        Some(first) => first.at,
        None => end.at,
    }
}

// What a token makes of the scalar.
fn more_of_scalar(
    context: Context,
    mode: ScalarMode,
    begun: usize,
    found: &Found,
) -> Result<ScalarMode, ParseError>
    ensures reads { ReadsUpTo context.entry.found.now.at mode_of result (goes_on (lexeme_in found.now) (scalar_step context.entry.room (mode_of mode) (lexeme_in found.now))) }
{
    let end = context.found;
    match mode.step(context.alloc, context.room, begun, found) {
        Ok(ScalarStep::More(next)) => Ok(next),
        Ok(ScalarStep::Done(_)) => Err(refusal_in(found, end, Expected::CloseBracket)),
        Err(error) => Err(no_later(error, end)),
    }
}

// What the bracket makes of the scalar.
fn end_scalar(context: Context, mode: ScalarMode, begun: usize) -> Result<Scalar, ParseError>
    ensures reads { ReadsUpTo context.entry.found.now.at (λ c. c) result (all_read (scalar_step context.entry.room) (mode_of mode)) }
{
    let end = context.found;
    match mode.step(context.alloc, context.room, begun, &bracket(end)) {
        Ok(ScalarStep::Done(scalar)) => Ok(scalar),
        Ok(ScalarStep::More(_)) => Err(expected(end, Expected::CloseBracket)),
        Err(error) => Err(no_later(error, end)),
    }
}

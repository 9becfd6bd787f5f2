// All operators have their last operand: the bracket that is open outside goes on, or closes.
ghost use Rattle.vx_source_types.specs.Views.{lexeme_of};
ghost use Rattle.vx_source_grammar.specs.Closing.{bracket_goes, closes, whole_ends};
ghost use Rattle.vx_source_operands.specs.Places.{ReadsUpTo};
ghost use Rattle.vx_source_operands.specs.OperandViews.{frames_of, operand_of, step_of};

use crate::brackets::{after_cast, after_child, after_enclosed, after_packed, after_part};
use crate::members::after_member;
use crate::steps::with_operand;
use vx_source_operands::{Context, ExpressionStep, Frame, Level, Operand, reduce};
use vx_source_types::{Expected, Found, ParseError, Token, refusal};

/// What a token that is no operator makes of the operand, and of all that waits for it.
pub(crate) fn close(
    context: Context,
    frames: Vec<Frame>,
    operand: Operand,
) -> Result<ExpressionStep, ParseError>
    ensures { ReadsUpTo context.entry.found.now.at step_of result (closes (frames_of frames.items) context.entry.room (operand_of operand) (lexeme_of context.entry.found.now.token)) }
{
    let (frames, operand) = reduce(context, frames, operand, Level::Or)?;
    after_bracketed(context, frames, operand)
}

// What a token makes of the bracket that is open outside.
fn after_bracketed(
    context: Context,
    mut frames: Vec<Frame>,
    operand: Operand,
) -> Result<ExpressionStep, ParseError>
    ensures { ReadsUpTo context.entry.found.now.at step_of result (bracket_goes context.entry.room (lexeme_of context.entry.found.now.token) (frames_of frames.items) (operand_of operand)) }
{
    let Some(frame) = frames.pop() else {
        return after_whole(operand, context.found);
    };
    match frame {
        Frame::Paren(bracket) => after_enclosed(frames, operand, bracket, context.found),
        Frame::Members(plain, lhs, items, bracket) => {
            let items = with_operand(items, operand)?;
            after_member(context, plain, frames, lhs, items, bracket)
        }
        Frame::Call(callee, children, bracket) => {
            let children = with_operand(children, operand)?;
            after_child(context, frames, callee, children, bracket)
        }
        Frame::Pack(names, children, bracket) => {
            let children = with_operand(children, operand)?;
            after_packed(context, frames, names, children, bracket)
        }
        Frame::Cast(bracket) => after_cast(context, frames, operand, bracket),
        Frame::Case(part, children, bracket) => {
            let children = with_operand(children, operand)?;
            after_part(context, frames, part, children, bracket)
        }
        Frame::Lower(_) => Err(refusal(context.found, Expected::And)),
        // No operator waits for its last operand here.
        _ => Err(refusal(context.found, Expected::Operator)),
    }
}

// What follows the whole expression.
fn after_whole(operand: Operand, found: &Found) -> Result<ExpressionStep, ParseError>
    ensures { ReadsUpTo found.now.at step_of result (whole_ends (operand_of operand) (lexeme_of found.now.token)) }
{
    match &found.token {
        Token::End => Ok(ExpressionStep::Done(operand)),
        _ => Err(refusal(found, Expected::Operator)),
    }
}

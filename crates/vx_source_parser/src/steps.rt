// Steps that several tokens make.
ghost use Rattle.std.specs.Prelude.{◌≡◌, ◌∷◌, ◌++◌, [], Ok, IfOk};
ghost use Rattle.vx_fn.specs.Views.{function_of};
ghost use Rattle.vx_source_types.specs.Views.{lexeme_of};
ghost use Rattle.vx_source_grammar.specs.Closing as grammar;
ghost use Rattle.vx_source_grammar.specs.States.{goes, in_not, operand_due};
ghost use Rattle.vx_source_operands.specs.Places.{ReadsUpTo};
ghost use Rattle.vx_source_operands.specs.OperandViews.{frame_of, frames_of, operand_of, operands_of, step_of};

use std::alloc::AllocError;
use vx_fn::ScalarFnRef;
use vx_source_grammar::{Keyword, as_keyword};
use vx_source_operands::{Context, ExpressionStep, Frame, Mode, Operand, more, node, tight};
use vx_source_types::{ParseError, Token};

/// The keyword that the token is.
pub fn keyword(token: &Token) -> Option<Keyword>
    ensures { result ≡ grammar.keyword_at (lexeme_of token.now) }
{
    match token {
        Token::Word(name) => as_keyword(name),
        _ => None,
    }
}

/// The frame waits for an operand.
pub(crate) fn pending(
    mut frames: Vec<Frame>,
    frame: Frame,
    room: usize,
) -> Result<ExpressionStep, AllocError>
    ensures { IfOk result (λ step. goes (frame_of frame ∷ frames_of frames.items) operand_due room ≡ Ok (step_of step)) }
{
    frames.push(frame)?;
    Ok(more(frames, Mode::Operand, room))
}

/// `not` is open before the operand.
pub(crate) fn negated(mut frames: Vec<Frame>, operand: &Operand) -> Result<Vec<Frame>, AllocError>
    ensures { IfOk result (λ all. frames_of all.items ≡ in_not ∷ frames_of frames.items) }
{
    frames.push(Frame::Not(operand.places.start))?;
    Ok(frames)
}

/// The operands with another.
pub(crate) fn with_operand(
    mut operands: Vec<Operand>,
    operand: Operand,
) -> Result<Vec<Operand>, AllocError>
    ensures { IfOk result (λ all. operands_of all.items ≡ operands_of operands.items ++ operand_of operand ∷ []) }
{
    operands.push(operand)?;
    Ok(operands)
}

/// The node of the function over the operands stands there, read from these bytes, where so much nesting is allowed.
pub(crate) fn node_stands(
    context: Context,
    frames: Vec<Frame>,
    scalar_fn: ScalarFnRef,
    operands: Vec<Operand>,
    bytes: (usize, usize),
) -> Result<ExpressionStep, ParseError>
    ensures reads { ReadsUpTo context.entry.found.now.at step_of result (grammar.node_stands (frames_of frames.items) context.entry.room (function_of scalar_fn) (operands_of operands.items)) }
{
    let made = node(context, scalar_fn, operands, bytes)?;
    Ok(tight(frames, context.room, made))
}

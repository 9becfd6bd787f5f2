// Operators that have their last operand.
ghost use Rattle.std.specs.Prelude.{◌≡◌, ℕ};
ghost use Rattle.vx_fn.specs.Views.{operation_of};
ghost use Rattle.vx_source_grammar.specs.Joining.{chained, joined, paired, reduced};
ghost use Rattle.vx_source_operands.specs.Levels.{rank_of};
ghost use Rattle.vx_source_operands.specs.Places.{ReadsUpTo};
ghost use Rattle.vx_source_operands.specs.OperandViews.{frame_of, frames_of, operand_of, operands_in, operands_of, range_of, reduced_of};

use crate::context::Context;
use crate::frame::{Frame, Level, OpenRange};
use crate::nodes::{node, node_between, node_over};
use crate::operand::Operand;
use vx_fn::{BetweenOptions, EmptyOptions, Operator, ScalarFnRef};
use vx_source_types::{Expected, ParseError, expected};

/// The operand, joined to all that waits for it and binds at least as tightly as the level, and what is left open. Refuses
/// with `LessNesting`, at what was found, a node that is higher than the room.
pub fn reduce(
    context: Context,
    frames: Vec<Frame>,
    operand: Operand,
    level: Level,
) -> Result<(Vec<Frame>, Operand), ParseError>
    ensures reads { ReadsUpTo context.entry.found.now.at reduced_of result (reduced (rank_of level) context.entry.room (frames_of frames.items) (operand_of operand)) }
{
    let mut frames = frames;
    let mut operand = operand;
    while let Some(frame) = frames.pop() {
        if !frame.binds_at(level) {
            frames.push(frame)?;
            break;
        }
        operand = join(context, frame, operand)?;
    }
    Ok((frames, operand))
}

// What waits for the operand, with it.
fn join(context: Context, frame: Frame, operand: Operand) -> Result<Operand, ParseError>
    ensures reads { ReadsUpTo context.entry.found.now.at operand_of result (joined context.entry.room (frame_of frame) (operand_of operand)) }
{
    match frame {
        Frame::Chain(operator, mut items) => {
            items.push(operand)?;
            chain(context, operator, items)
        }
        Frame::Not(start) => {
            let bytes = (start, operand.places.end);
            let function = ScalarFnRef::Not(EmptyOptions);
            node_over(context, function, operand, bytes)
        }
        Frame::Minus(zero) => {
            node_between(context, ScalarFnRef::Binary(Operator::Sub), zero, operand)
        }
        Frame::Binary(operator, lhs) => {
            let function = ScalarFnRef::Binary(operator);
            node_between(context, function, lhs, operand)
        }
        Frame::Like(options, lhs) => {
            node_between(context, ScalarFnRef::Like(options), lhs, operand)
        }
        Frame::Upper(range) => between(context, Box::into_inner(range), operand),
        // Nothing else waits for an operand alone.
        _ => Ok(operand),
    }
}

// The range with its upper bound.
fn between(context: Context, range: OpenRange, upper: Operand) -> Result<Operand, ParseError>
    ensures reads { ReadsUpTo context.entry.found.now.at operand_of result (joined context.entry.room (range_of range) (operand_of upper)) }
{
    let OpenRange {
        array,
        lower,
        lower_strict,
        upper_strict,
        start,
    } = range;
    let options = BetweenOptions {
        lower_strict,
        upper_strict,
    };
    let bytes = (start, upper.places.end);
    let operands = Vec::from_array(context.alloc, [array, lower, upper])?;
    let function = ScalarFnRef::Between(options);
    node(context, function, operands, bytes)
}

// The items joined in pairs, round after round.
pub(crate) fn chain(
    context: Context,
    operator: Operator,
    items: Vec<Operand>,
) -> Result<Operand, ParseError>
    ensures reads { ReadsUpTo context.entry.found.now.at operand_of result (chained (operation_of operator) context.entry.room (operands_of items.items)) }
{
    let mut left = items;
    while left.len() > 1 {
        left = pair(context, operator, left)?;
    }
    match left.pop() {
        Some(operand) => Ok(operand),
        None => Err(expected(context.found, Expected::Operand)),
    }
}

// One round: neighbours joined from left to right, and an odd last one carried on.
fn pair(
    context: Context,
    operator: Operator,
    items: Vec<Operand>,
) -> Result<Vec<Operand>, ParseError>
    ensures reads { ReadsUpTo context.entry.found.now.at operands_in result (paired (operation_of operator) context.entry.room (operands_of items.items)) }
{
    let mut left = Vec::with_capacity(context.alloc, items.len() / 2 + 1)?;
    let mut items = items.into_iter();
    while let Some(lhs) = items.next() {
        left.push(match items.next() {
            Some(rhs) => { node_between(context, ScalarFnRef::Binary(operator), lhs, rhs)? }
            None => lhs,
        })?;
    }
    Ok(left)
}

// `and` and `or` between the items of a chain, and `and` between the bounds of a `between`.
ghost use Rattle.std.specs.Prelude.{◌≡◌, Ok, IfOk};
ghost use Rattle.vx_fn.specs.Views.{operation_of};
ghost use Rattle.vx_source_grammar.specs.Following as grammar;
ghost use Rattle.vx_source_operands.specs.Places.{ReadsUpTo};
ghost use Rattle.vx_source_operands.specs.OperandViews.{frames_of, operand_of, step_of};

use crate::steps::{pending, with_operand};
use std::alloc::AllocError;
use vx_fn::{Operator, StrictComparison};
use vx_source_operands::{Context, ExpressionStep, Frame, Level, OpenRange, Operand, reduce};
use vx_source_types::ParseError;

/// `and` behind an operand: between the bounds of a `between`, or between two items.
pub(crate) fn after_and(
    context: Context,
    frames: Vec<Frame>,
    operand: Operand,
) -> Result<ExpressionStep, ParseError>
    ensures { ReadsUpTo context.entry.found.now.at step_of result (grammar.summed (frames_of frames.items) context.entry.room (operand_of operand) (grammar.bounds_or_items context.entry.room)) }
{
    let (frames, operand) = reduce(context, frames, operand, Level::Sum)?;
    bound_or_item(context, frames, operand)
}

// The upper bound of a `between` is due, or another item.
fn bound_or_item(
    context: Context,
    mut frames: Vec<Frame>,
    operand: Operand,
) -> Result<ExpressionStep, ParseError>
    ensures { ReadsUpTo context.entry.found.now.at step_of result (grammar.bounds_or_items context.entry.room (frames_of frames.items) (operand_of operand)) }
{
    match frames.pop() {
        Some(Frame::Lower(array)) => {
            let start = array.places.start;
            let range = OpenRange {
                array,
                lower: operand,
                lower_strict: StrictComparison::NonStrict,
                upper_strict: StrictComparison::NonStrict,
                start,
            };
            let frame = Frame::Upper(Box::new(context.alloc, range)?);
            Ok(pending(frames, frame, context.room)?)
        }
        Some(frame) => {
            frames.push(frame)?;
            and_item(context, frames, operand)
        }
        None => and_item(context, frames, operand),
    }
}

/// `and` between two items.
pub(crate) fn and_item(
    context: Context,
    frames: Vec<Frame>,
    operand: Operand,
) -> Result<ExpressionStep, ParseError>
    ensures { ReadsUpTo context.entry.found.now.at step_of result (grammar.and_goes (frames_of frames.items) context.entry.room (operand_of operand)) }
{
    let (frames, operand) = reduce(context, frames, operand, Level::Not)?;
    Ok(next_item(context, frames, operand, Operator::And)?)
}

/// `or` between two items.
pub(crate) fn or_item(
    context: Context,
    frames: Vec<Frame>,
    operand: Operand,
) -> Result<ExpressionStep, ParseError>
    ensures { ReadsUpTo context.entry.found.now.at step_of result (grammar.or_goes (frames_of frames.items) context.entry.room (operand_of operand)) }
{
    let (frames, operand) = reduce(context, frames, operand, Level::And)?;
    Ok(next_item(context, frames, operand, Operator::Or)?)
}

// Another item of the chain that is open, or the first of one.
fn next_item(
    context: Context,
    mut frames: Vec<Frame>,
    operand: Operand,
    operator: Operator,
) -> Result<ExpressionStep, AllocError>
    ensures { IfOk result (λ step. grammar.item_goes context.entry.room (operation_of operator) (frames_of frames.items) (operand_of operand) ≡ Ok (step_of step)) }
{
    match frames.pop() {
        Some(Frame::Chain(other, items)) => {
            if is_same_chain(operator, other) {
                let items = with_operand(items, operand)?;
                return pending(frames, Frame::Chain(operator, items), context.room);
            }
            frames.push(Frame::Chain(other, items))?;
        }
        Some(frame) => frames.push(frame)?,
        None => {}
    }
    let items = Vec::from_array(context.alloc, [operand])?;
    pending(frames, Frame::Chain(operator, items), context.room)
}

// Whether items between such operators are of one chain.
fn is_same_chain(operator: Operator, other: Operator) -> bool
    ensures { result ≡ grammar.same_chain (operation_of operator) (operation_of other) }
{
    match operator {
        Operator::And => matches!(other, Operator::And),
        Operator::Or => matches!(other, Operator::Or),
        Operator::Add
        | Operator::Sub
        | Operator::Mul
        | Operator::Div
        | Operator::Rem
        | Operator::Eq
        | Operator::NotEq
        | Operator::Gt
        | Operator::Gte
        | Operator::Lt
        | Operator::Lte => false,
    }
}

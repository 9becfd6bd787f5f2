// Arithmetic and comparisons behind an operand, of which two don't chain but as a range.
ghost use Rattle.std.specs.Prelude.{◌≡◌, ◌∷◌, if◌then◌else◌, List, Ok, Err, IfOk, false, option_map};
ghost use Rattle.vx_fn.specs.Functions.{Comparison, compares, computes};
ghost use Rattle.vx_tree.specs.Trees.{Tree};
ghost use Rattle.vx_fn.specs.Views.{is_strict, operation_of};
ghost use Rattle.vx_source_types.specs.declared.expectation.Expected.TheVariants.{Parens};
ghost use Rattle.vx_source_grammar.specs.Following as grammar;
ghost use Rattle.vx_source_grammar.specs.Joining.{arithmetic_level};
ghost use Rattle.vx_source_grammar.specs.States.{Frame as OpenFrame};
ghost use Rattle.vx_source_operands.specs.Levels.{rank_of};
ghost use Rattle.vx_source_operands.specs.Places.{ReadsUpTo};
ghost use Rattle.vx_source_operands.specs.OperandViews.{frame_of, frames_of, operand_of, reduced_of, step_of};

use crate::steps::pending;
use std::alloc::AllocError;
use vx_floats::Arithmetic;
use vx_fn::{LikeOptions, Operator, StrictComparison};
use vx_source_operands::{Context, ExpressionStep, Frame, Level, OpenRange, Operand, reduce};
use vx_source_types::{Expected, ParseError, expected};

// The bound of that operator, of `<` and `<=`.
fn bound(operator: Operator) -> Option<StrictComparison>
    ensures { option_map is_strict result ≡ grammar.bound_of (operation_of operator) }
{
    match operator {
        Operator::Lt => Some(StrictComparison::Strict),
        Operator::Lte => Some(StrictComparison::NonStrict),
        Operator::Eq
        | Operator::NotEq
        | Operator::Gt
        | Operator::Gte
        | Operator::And
        | Operator::Or
        | Operator::Add
        | Operator::Sub
        | Operator::Mul
        | Operator::Div
        | Operator::Rem => None,
    }
}

/// Arithmetic behind an operand.
pub(crate) fn after_arithmetic(
    context: Context,
    frames: Vec<Frame>,
    operand: Operand,
    arithmetic: Arithmetic,
) -> Result<ExpressionStep, ParseError>
    ensures { ReadsUpTo context.entry.found.now.at step_of result (grammar.arithmetic_goes (frames_of frames.items) context.entry.room (operand_of operand) arithmetic) }
{
    let (frames, lhs) = reduce(context, frames, operand, level_of(arithmetic))?;
    let frame = Frame::Binary(operator_of(arithmetic), lhs);
    Ok(pending(frames, frame, context.room)?)
}

// How tightly the arithmetic binds.
fn level_of(arithmetic: Arithmetic) -> Level
    ensures { rank_of result ≡ arithmetic_level arithmetic }
{
    match arithmetic {
        Arithmetic::Sum | Arithmetic::Difference => Level::Sum,
        Arithmetic::Product | Arithmetic::Quotient | Arithmetic::Remainder => Level::Product,
    }
}

// Its operator.
fn operator_of(arithmetic: Arithmetic) -> Operator
    ensures { operation_of result ≡ computes arithmetic }
{
    match arithmetic {
        Arithmetic::Sum => Operator::Add,
        Arithmetic::Difference => Operator::Sub,
        Arithmetic::Product => Operator::Mul,
        Arithmetic::Quotient => Operator::Div,
        Arithmetic::Remainder => Operator::Rem,
    }
}

/// A comparison behind an operand.
pub(crate) fn after_comparison(
    context: Context,
    frames: Vec<Frame>,
    operand: Operand,
    operator: Operator,
) -> Result<ExpressionStep, ParseError>
    ensures { (c : Comparison) → operation_of operator ≡ compares c
        → ReadsUpTo context.entry.found.now.at step_of result (grammar.summed (frames_of frames.items) context.entry.room (operand_of operand) (grammar.comparison_goes context.entry.room c)) }
{
    let (frames, operand) = reduce(context, frames, operand, Level::Sum)?;
    compare(context, frames, operand, operator)
}

// The comparison behind what binds more tightly: comparisons don't chain, but `lo < x <= hi`.
fn compare(
    context: Context,
    mut frames: Vec<Frame>,
    operand: Operand,
    operator: Operator,
) -> Result<ExpressionStep, ParseError>
    ensures { (c : Comparison) → operation_of operator ≡ compares c
        → ReadsUpTo context.entry.found.now.at step_of result (grammar.comparison_goes context.entry.room c (frames_of frames.items) (operand_of operand)) }
{
    match frames.pop() {
        Some(Frame::Binary(first, lower)) => {
            {
                let bounds = (bound(first), bound(operator));
                range(context, frames, lower, operand, bounds)
            }
        }
        Some(Frame::Like(_, _)) | Some(Frame::Upper(_)) | Some(Frame::Lower(_)) => {
            Err(expected(context.found, Expected::Parens))
        }
        Some(frame) => {
            frames.push(frame)?;
            Ok(pending(frames, Frame::Binary(operator, operand), context.room)?)
        }
        None => Ok(pending(frames, Frame::Binary(operator, operand), context.room)?),
    }
}

// Two comparisons one after another: a range, of `<` and `<=`.
fn range(
    context: Context,
    frames: Vec<Frame>,
    lower: Operand,
    array: Operand,
    bounds: (Option<StrictComparison>, Option<StrictComparison>),
) -> Result<ExpressionStep, ParseError>
    ensures { ReadsUpTo context.entry.found.now.at step_of result (grammar.range_goes (frames_of frames.items) context.entry.room (operand_of lower) (operand_of array) (option_map is_strict bounds.0) (option_map is_strict bounds.1)) }
{
    let (Some(lower_strict), Some(upper_strict)) = bounds else {
        return Err(expected(context.found, Expected::Parens));
    };
    let start = lower.places.start;
    let range = OpenRange {
        array,
        lower,
        lower_strict,
        upper_strict,
        start,
    };
    let frame = Frame::Upper(Box::new(context.alloc, range)?);
    Ok(pending(frames, frame, context.room)?)
}

/// The operand that a word compares, and what is open around it. Refuses a word behind another comparison, with which it
/// doesn't chain, and as `reduce` does.
pub(crate) fn comparable(
    context: Context,
    frames: Vec<Frame>,
    operand: Operand,
) -> Result<(Vec<Frame>, Operand), ParseError>
    ensures reads { ReadsUpTo context.entry.found.now.at reduced_of result (grammar.comparable (frames_of frames.items) context.entry.room (operand_of operand)) }
{
    let (frames, operand) = reduce(context, frames, operand, Level::Sum)?;
    if in_comparison(frames.as_slice()) {
        return Err(expected(context.found, Expected::Parens));
    }
    Ok((frames, operand))
}

// Whether a comparison is open, so that none may follow.
fn in_comparison(frames: &[Frame]) -> bool
    ensures { (e : Tree) → grammar.uncompared (frames_of frames.now) e ≡ (if result then Err Parens else Ok (frames_of frames.now, e)) }
{
    match frames.last() {
        Some(frame) => is_comparison(frame),
        None => false,
    }
}

// Whether the frame is a comparison that waits for more.
fn is_comparison(frame: &Frame) -> bool
    ensures { (outer : List OpenFrame) (e : Tree) → grammar.uncompared (frame_of frame.now ∷ outer) e ≡ (if result then Err Parens else Ok (frame_of frame.now ∷ outer, e)) }
{
    match frame {
        Frame::Binary(_, _) | Frame::Like(_, _) | Frame::Upper(_) | Frame::Lower(_) => true,
        _ => false,
    }
}

/// `like` or `ilike` behind an operand.
pub(crate) fn like(
    context: Context,
    frames: Vec<Frame>,
    operand: Operand,
    case_insensitive: bool,
) -> Result<ExpressionStep, ParseError>
    ensures { ReadsUpTo context.entry.found.now.at step_of result (grammar.worded (frames_of frames.items) context.entry.room (operand_of operand) (grammar.like_goes context.entry.room false case_insensitive)) }
{
    let (frames, operand) = comparable(context, frames, operand)?;
    Ok(open_like(context.room, frames, operand, false, case_insensitive)?)
}

/// The same, negated or not, behind the operand that it compares.
pub(crate) fn open_like(
    room: usize,
    frames: Vec<Frame>,
    operand: Operand,
    negated: bool,
    case_insensitive: bool,
) -> Result<ExpressionStep, AllocError>
    ensures { IfOk result (λ step. grammar.like_goes room negated case_insensitive (frames_of frames.items) (operand_of operand) ≡ Ok (step_of step)) }
{
    let options = LikeOptions {
        negated,
        case_insensitive,
    };
    pending(frames, Frame::Like(options, operand), room)
}

/// `between` behind an operand.
pub(crate) fn between(
    context: Context,
    frames: Vec<Frame>,
    operand: Operand,
) -> Result<ExpressionStep, ParseError>
    ensures { ReadsUpTo context.entry.found.now.at step_of result (grammar.worded (frames_of frames.items) context.entry.room (operand_of operand) (grammar.between_goes context.entry.room)) }
{
    let (frames, operand) = comparable(context, frames, operand)?;
    Ok(pending(frames, Frame::Lower(operand), context.room)?)
}

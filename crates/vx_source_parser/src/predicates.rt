// Tests behind an operand: whether it is null, and whether it is true or false.
ghost use Rattle.std.specs.Prelude.{[], false};
ghost use Rattle.vx_value.specs.Types.{atomic, bool as truth_value, truth, ty};
ghost use Rattle.vx_fn.specs.Functions.{literal};
ghost use Rattle.vx_fn.specs.Views.{function_of};
ghost use Rattle.vx_source_grammar.specs.Following as grammar;
ghost use Rattle.vx_source_grammar.specs.Joining.{over};
ghost use Rattle.vx_source_operands.specs.Places.{ReadsUpTo};
ghost use Rattle.vx_source_operands.specs.OperandViews.{frames_of, operand_of, step_of};

use crate::values::literal;
use vx_fn::{EmptyOptions, ScalarFnRef};
use vx_source_operands::{
    Context, ExpressionStep, Frame, Mode, Operand, more, node_between, node_over,
};
use vx_source_types::ParseError;
use vx_value::Scalar;

/// The test of the operand that the function is.
pub(crate) fn null_test(
    context: Context,
    frames: Vec<Frame>,
    operand: Operand,
    function: ScalarFnRef,
) -> Result<ExpressionStep, ParseError>
    ensures { ReadsUpTo context.entry.found.now.at step_of result (grammar.null_goes (frames_of frames.items) context.entry.room (operand_of operand) (function_of function)) }
{
    let bytes = (operand.places.start, context.found.end);
    let made = node_over(context, function, operand, bytes)?;
    Ok(more(frames, Mode::Loose(made), context.room))
}

/// The operand with that truth value in the place of null.
pub(crate) fn truth_test(
    context: Context,
    frames: Vec<Frame>,
    operand: Operand,
    filler: bool,
) -> Result<ExpressionStep, ParseError>
    ensures { ReadsUpTo context.entry.found.now.at step_of result (grammar.truth_goes (frames_of frames.items) context.entry.room (operand_of operand) filler) }
{
    let filler = truth(context, filler)?;
    let function = ScalarFnRef::FillNull(EmptyOptions);
    let made = node_between(context, function, operand, filler)?;
    Ok(more(frames, Mode::Loose(made), context.room))
}

// The truth value, which stands where the token does.
fn truth(context: Context, value: bool) -> Result<Operand, ParseError>
    ensures reads { ReadsUpTo context.entry.found.now.at operand_of result (over (literal (ty (atomic truth) false) (truth_value value)) [] context.entry.room) }
{
    let bytes = (context.found.at, context.found.end);
    literal(context, Scalar::from_bool(value), bytes)
}

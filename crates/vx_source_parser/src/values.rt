// Values and types.
ghost use Rattle.std.specs.Prelude.{[], ◌≡◌};
ghost use Rattle.vx_fn.specs.Functions.{literal};
ghost use Rattle.vx_value.specs.Views.{type_of};
ghost use Rattle.vx_source_types.specs.Views.{lexeme_of};
ghost use Rattle.vx_source_types.specs.TypeReading.{type_step};
ghost use Rattle.vx_source_types.specs.TypeViews as types;
ghost use Rattle.vx_source_types.specs.Literals.{typed_literal};
ghost use Rattle.vx_source_types.specs.ValueReading.{value_step};
ghost use Rattle.vx_source_types.specs.ValueViews as values;
ghost use Rattle.vx_source_grammar.specs.Beginning.{cast_ends, fitting, literal_before, type_ends, type_goes, value_ends, value_goes};
ghost use Rattle.vx_source_grammar.specs.Joining.{over};
ghost use Rattle.vx_source_operands.specs.Places.{ReadsUpTo};
ghost use Rattle.vx_source_operands.specs.PlainViews.{plain_by};
ghost use Rattle.vx_source_operands.specs.OperandViews.{frames_of, operand_of, step_of, type_for};

use crate::after::after_tight;
use vx_dtype::DType;
use vx_fn::ScalarFnRef;
use vx_source_operands::{
    Bracket, Context, ExpressionStep, Frame, Mode, Operand, PlainValues, TypeFor, begun_at, more,
    node, node_over, tight, type_due,
};
use vx_source_types::{
    Draft, Expected, ParseError, Sign, Token, TypeReader, TypeStep, ValueReader, ValueStep,
    refusal, typed_literal,
};
use vx_value::Scalar;

// A value goes on, or has ended before the token.
pub(crate) fn value(
    context: Context,
    plain: PlainValues,
    frames: Vec<Frame>,
    reader: Box<ValueReader>,
    bytes: (usize, usize),
) -> Result<ExpressionStep, ParseError>
    ensures reads { ReadsUpTo context.entry.found.now.at step_of result (value_goes (plain_by plain) (frames_of frames.items) context.entry.room (lexeme_of context.entry.found.now.token) (value_step (values.reader_of reader.value) (lexeme_of context.entry.found.now.token))) }
{
    match Box::into_inner(reader).step(context.alloc, context.found)? {
        ValueStep::More(next) => {
            let next = Box::new(context.alloc, next)?;
            let mode = Mode::Value(next, bytes.0, context.found.end);
            Ok(more(frames, mode, context.room))
        }
        ValueStep::Done(draft) => end_value(context, plain, frames, draft, bytes),
    }
}

// A value has ended: its type follows, or it is a literal without one.
fn end_value(
    context: Context,
    plain: PlainValues,
    frames: Vec<Frame>,
    draft: Draft,
    bytes: (usize, usize),
) -> Result<ExpressionStep, ParseError>
    ensures reads { ReadsUpTo context.entry.found.now.at step_of result (value_ends (plain_by plain) (frames_of frames.items) context.entry.room (values.draft_of draft) (lexeme_of context.entry.found.now.token)) }
{
    match &context.found.token {
        Token::Sign(Sign::DoubleColon) => {
            let wanted = TypeFor::Literal(draft, bytes.0);
            Ok(type_due(context, frames, wanted)?)
        }
        _ => end_literal(context, frames, plain.scalar(draft), bytes),
    }
}

// A literal has ended, or there is none.
fn end_literal(
    context: Context,
    frames: Vec<Frame>,
    scalar: Result<Scalar, Expected>,
    bytes: (usize, usize),
) -> Result<ExpressionStep, ParseError>
    ensures reads { ReadsUpTo context.entry.found.now.at step_of result (literal_before (frames_of frames.items) context.entry.room (lexeme_of context.entry.found.now.token) scalar) }
{
    match scalar {
        Ok(scalar) => {
            let operand = literal(context, scalar, bytes)?;
            after_tight(context, frames, operand)
        }
        Err(wanted) => Err(begun_at(bytes.0, context.found, wanted)),
    }
}

// The literal of the scalar, which stands in these bytes.
pub(crate) fn literal(
    context: Context,
    scalar: Scalar,
    bytes: (usize, usize),
) -> Result<Operand, ParseError>
    ensures reads { ReadsUpTo context.entry.found.now.at operand_of result (over (literal scalar.type scalar.value) [] context.entry.room) }
{
    let function = ScalarFnRef::Literal(scalar);
    node(context, function, Vec::new(context.alloc), bytes)
}

// A type goes on, or has ended before the token.
pub(crate) fn read_type(
    context: Context,
    frames: Vec<Frame>,
    wanted: Box<TypeFor>,
    reader: Box<TypeReader>,
    end: usize,
) -> Result<ExpressionStep, ParseError>
    ensures reads { ReadsUpTo context.entry.found.now.at step_of result (type_goes (frames_of frames.items) context.entry.room (type_for wanted.value) (lexeme_of context.entry.found.now.token) (type_step (types.reader_of reader.value) (lexeme_of context.entry.found.now.token))) }
{
    match Box::into_inner(reader).step(context.alloc, context.found)? {
        TypeStep::More(next) => {
            let next = Box::new(context.alloc, next)?;
            let mode = Mode::Type(wanted, next, context.found.end);
            Ok(more(frames, mode, context.room))
        }
        TypeStep::Done(dtype) => end_type(context, frames, Box::into_inner(wanted), dtype, end),
    }
}

// A type has ended: what it was read for has it.
fn end_type(
    context: Context,
    frames: Vec<Frame>,
    wanted: TypeFor,
    dtype: DType,
    end: usize,
) -> Result<ExpressionStep, ParseError>
    ensures reads { ReadsUpTo context.entry.found.now.at step_of result (type_ends (frames_of frames.items) context.entry.room (type_for wanted) (type_of dtype) (lexeme_of context.entry.found.now.token)) }
{
    match wanted {
        TypeFor::Literal(draft, start) => {
            let scalar = fitting(draft, dtype);
            end_literal(context, frames, scalar, (start, end))
        }
        TypeFor::Cast(operand) => {
            let bytes = (operand.places.start, end);
            let cast = node_over(context, ScalarFnRef::Cast(dtype), operand, bytes)?;
            after_tight(context, frames, cast)
        }
        TypeFor::CastCall(operand, bracket) => {
            end_cast(context, frames, operand, bracket, dtype)
        }
    }
}

// The scalar of the value and the type behind it, if the value is one of it.
fn fitting(draft: Draft, dtype: DType) -> Result<Scalar, Expected>
    ensures { result ≡ fitting (typed_literal (values.draft_of draft) (type_of dtype)) }
{
    match typed_literal(draft, dtype) {
        Some(scalar) => Ok(scalar),
        None => Err(Expected::FittingType),
    }
}

// What follows the type of a cast between parentheses.
fn end_cast(
    context: Context,
    frames: Vec<Frame>,
    operand: Operand,
    bracket: Bracket,
    dtype: DType,
) -> Result<ExpressionStep, ParseError>
    ensures reads { ReadsUpTo context.entry.found.now.at step_of result (cast_ends (frames_of frames.items) (operand_of operand) bracket.room (type_of dtype) (lexeme_of context.entry.found.now.token)) }
{
    match &context.found.token {
        Token::Sign(Sign::CloseParen) => {
            let Bracket { start, room } = bracket;
            let outside = Context { room, ..context };
            let bytes = (start, context.found.end);
            let cast = node_over(outside, ScalarFnRef::Cast(dtype), operand, bytes)?;
            Ok(tight(frames, room, cast))
        }
        _ => Err(refusal(context.found, Expected::CloseParen)),
    }
}

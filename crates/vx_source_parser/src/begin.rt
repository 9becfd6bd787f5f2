// The beginning of an operand.
ghost use Rattle.std.specs.Prelude.{[], ◌≡◌, ◌==◌, ◌∷◌};
ghost use Rattle.vx_source_types.specs.Tokens.{next};
ghost use Rattle.vx_source_types.specs.Views.{lexeme_of};
ghost use Rattle.vx_source_types.specs.TypeReading.{within};
ghost use Rattle.vx_source_types.specs.ScalarReading as scalars;
ghost use Rattle.vx_source_grammar.specs.Beginning.{begins, field_read, minus_at, not_begins, plus_at, zero_read};
ghost use Rattle.vx_source_grammar.specs.Numbers.{number_begins, value_begins};
ghost use Rattle.vx_source_grammar.specs.States.{condition_part, in_case, in_paren, operand_due, case_due, goes};
ghost use Rattle.vx_source_operands.specs.Places.{ReadsUpTo};
ghost use Rattle.vx_source_operands.specs.PlainViews.{plain_by};
ghost use Rattle.vx_source_operands.specs.OperandViews.{frame_of, frames_of, operand_of, step_of};

use crate::postfix::field;
use crate::values::literal;
use vx_dtype::FieldName;
use vx_source_grammar::{Keyword, as_keyword};
use vx_source_operands::{
    Bracket, CasePart, Context, ExpressionStep, Frame, Mode, Operand, PlainValues, begun_at, more,
    root, tight,
};
use vx_source_types::{
    Draft, Expected, ParseError, Sign, Token, ValueReader, ValueStep, expected, inside, refusal,
    suffixed,
};
use vx_value::Value;

// What begins with the token, where an operand is due.
pub(crate) fn begin(context: Context, frames: Vec<Frame>) -> Result<ExpressionStep, ParseError>
    ensures reads { ReadsUpTo context.entry.found.now.at step_of result (begins (frames_of frames.items) context.entry.room (lexeme_of context.entry.found.now.token)) }
{
    let found = context.found;
    match &found.token {
        Token::Word(name) => match as_keyword(name) {
            None => {
                let mode = Mode::Word(name.clone()?, found.at, found.end);
                Ok(more(frames, mode, context.room))
            }
            Some(Keyword::Null) | Some(Keyword::True) | Some(Keyword::False) => {
                begin_value(context, frames, found.at)
            }
            Some(Keyword::Not) => begin_not(context, frames),
            Some(Keyword::Case) => begin_case(context, frames),
            Some(_) => Err(expected(found, Expected::Operand)),
        },
        Token::Quoted(name) => {
            let bytes = (found.at, found.end);
            let operand = field_of_root(context, name.clone()?, bytes)?;
            Ok(tight(frames, context.room, operand))
        }
        Token::Sign(Sign::Dollar) => {
            let operand = root(context.alloc, found.at, found.end)?;
            Ok(tight(frames, context.room, operand))
        }
        Token::Sign(Sign::OpenParen) => begin_paren(context, frames),
        Token::Sign(Sign::Plus) => Ok(more(frames, Mode::Plus(found.at), context.room)),
        Token::Sign(Sign::Minus) => Ok(more(frames, Mode::Minus(found.at), context.room)),
        Token::Number { .. } => begin_number(context, frames, found.at),
        Token::Point(_)
        | Token::Text(_)
        | Token::Octets(_)
        | Token::Sign(Sign::OpenBracket)
        | Token::Sign(Sign::OpenBrace) => begin_value(context, frames, found.at),
        _ => Err(refusal(found, Expected::Operand)),
    }
}

// A bracket around an operand.
fn begin_paren(context: Context, mut frames: Vec<Frame>) -> Result<ExpressionStep, ParseError>
    ensures reads { ReadsUpTo context.entry.found.now.at step_of result (within context.entry.room (λ less. goes (in_paren context.entry.room ∷ frames_of frames.items) operand_due less)) }
{
    let Context { room, found, .. } = context;
    let less = inside(room, found)?;
    let start = found.at;
    frames.push(Frame::Paren(Bracket { start, room }))?;
    Ok(more(frames, Mode::Operand, less))
}

// A CASE.
fn begin_case(context: Context, mut frames: Vec<Frame>) -> Result<ExpressionStep, ParseError>
    ensures reads { ReadsUpTo context.entry.found.now.at step_of result (within context.entry.room (λ less. goes (in_case condition_part [] context.entry.room ∷ frames_of frames.items) case_due less)) }
{
    let Context { alloc, room, found } = context;
    let less = inside(room, found)?;
    let start = found.at;
    let bracket = Bracket { start, room };
    frames.push(Frame::Case(CasePart::Condition, Vec::new(alloc), bracket))?;
    Ok(more(frames, Mode::Case, less))
}

// `not` binds more loosely than a comparison and arithmetic, so it is no operand of theirs.
fn begin_not(context: Context, mut frames: Vec<Frame>) -> Result<ExpressionStep, ParseError>
    ensures reads { ReadsUpTo context.entry.found.now.at step_of result (not_begins (frames_of frames.items) context.entry.room) }
{
    match frames.pop() {
        Some(frame) => begin_not_in(context, frames, frame),
        None => {
            frames.push(Frame::Not(context.found.at))?;
            Ok(more(frames, Mode::Operand, context.room))
        }
    }
}

// The same, where that frame is the innermost.
fn begin_not_in(
    context: Context,
    mut frames: Vec<Frame>,
    frame: Frame,
) -> Result<ExpressionStep, ParseError>
    ensures reads { ReadsUpTo context.entry.found.now.at step_of result (not_begins (frame_of frame ∷ frames_of frames.items) context.entry.room) }
{
    match &frame {
        Frame::Minus(_)
        | Frame::Binary(_, _)
        | Frame::Like(_, _)
        | Frame::Lower(_)
        | Frame::Upper(_) => Err(expected(context.found, Expected::OperandOrParens)),
        _ => {
            frames.push(frame)?;
            frames.push(Frame::Not(context.found.at))?;
            Ok(more(frames, Mode::Operand, context.room))
        }
    }
}

// A value that begins at that byte, whose type may follow.
fn begin_value(
    context: Context,
    frames: Vec<Frame>,
    start: usize,
) -> Result<ExpressionStep, ParseError>
    ensures reads { ReadsUpTo context.entry.found.now.at step_of result (value_begins (frames_of frames.items) context.entry.room (lexeme_of context.entry.found.now.token)) }
{
    let Context { alloc, room, found } = context;
    match ValueReader::new(alloc, room).step(alloc, found)? {
        ValueStep::More(reader) => {
            let reader = Box::new(alloc, reader)?;
            Ok(more(frames, Mode::Value(reader, start, found.end), room))
        }
        ValueStep::Done(_) => Err(refusal(found, Expected::Value)),
    }
}

// A number with the type behind it, or without, that begins at that byte.
pub(crate) fn begin_number(
    context: Context,
    frames: Vec<Frame>,
    start: usize,
) -> Result<ExpressionStep, ParseError>
    ensures reads { ReadsUpTo context.entry.found.now.at step_of result (number_begins (frames_of frames.items) context.entry.room (lexeme_of context.entry.found.now.token) (scalars.suffixed (lexeme_of context.entry.found.now.token))) }
{
    match suffixed(context.found) {
        Some(scalar) => {
            let bytes = (start, context.found.end);
            let operand = literal(context, scalar?, bytes)?;
            Ok(tight(frames, context.room, operand))
        }
        None => begin_value(context, frames, start),
    }
}

/// The number behind a `+` with which an operand begins, at that byte.
pub(crate) fn begin_plus(
    context: Context,
    frames: Vec<Frame>,
    start: usize,
) -> Result<ExpressionStep, ParseError>
    ensures reads { ReadsUpTo context.entry.found.now.at step_of result (plus_at (frames_of frames.items) context.entry.room (lexeme_of context.entry.found.now.token)) }
{
    match &context.found.token {
        Token::Number {
            negative: false,
            ..
        } => begin_number(context, frames, start),
        Token::Point(digits) if !is_below_zero(digits.as_str()) => {
            begin_value(context, frames, start)
        }
        _ => Err(refusal(context.found, Expected::Number)),
    }
}

/// The operand behind a `-` at that byte, which is taken from zero.
pub(crate) fn begin_minus(
    context: Context,
    plain: PlainValues,
    mut frames: Vec<Frame>,
    start: usize,
) -> Result<ExpressionStep, ParseError>
    ensures reads { ReadsUpTo context.entry.found.now.at step_of result (minus_at (plain_by plain) (frames_of frames.items) context.entry.room (lexeme_of context.entry.found.now.token)) }
{
    frames.push(Frame::Minus(zero(context, plain, start)?))?;
    begin(context, frames)
}

// The zero that stands for the `-` at that byte, of the type of a number without one.
fn zero(context: Context, plain: PlainValues, start: usize) -> Result<Operand, ParseError>
    ensures reads { ReadsUpTo context.entry.found.now.at operand_of result (zero_read (plain_by plain) context.entry.room) }
{
    let draft = Draft::Value(Value::Int(0), Vec::new(context.alloc));
    match plain.scalar(draft) {
        Ok(scalar) => literal(context, scalar, (start, start.saturating_add(1))),
        Err(wanted) => Err(begun_at(start, context.found, wanted)),
    }
}

// Whether the digits stand behind a minus.
pub(crate) fn is_below_zero(digits: &str) -> bool
    ensures { result ≡ (next digits.now == 45) }
{
    matches!(digits.as_bytes(), [b'-', ..])
}

// The field of the scope root, whose name stands in these bytes.
pub(crate) fn field_of_root(
    context: Context,
    name: FieldName,
    bytes: (usize, usize),
) -> Result<Operand, ParseError>
    ensures reads { ReadsUpTo context.entry.found.now.at operand_of result (field_read name context.entry.room) }
{
    let (start, end) = bytes;
    let scope = root(context.alloc, start, start)?;
    field(context, name, scope, end)
}

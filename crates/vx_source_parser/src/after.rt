// What follows an operand: a postfix, an operator, or what closes a bracket.
ghost use Rattle.vx_source_types.specs.Views.{lexeme_of};
ghost use Rattle.vx_source_grammar.specs.Closing.{keyword_at};
ghost use Rattle.vx_source_grammar.specs.Following.{follows, follows_loosely, is_goes, is_not_goes, loose_word_goes, not_goes, word_goes};
ghost use Rattle.vx_source_operands.specs.Places.{ReadsUpTo};
ghost use Rattle.vx_source_operands.specs.OperandViews.{frames_of, operand_of, step_of};

use crate::chains::{after_and, and_item, or_item};
use crate::close::close;
use crate::comparisons::{
    after_arithmetic, after_comparison, between, comparable, like, open_like,
};
use crate::numbers::after_number;
use crate::predicates::{null_test, truth_test};
use crate::steps::{keyword, negated, pending};
use vx_floats::Arithmetic;
use vx_fn::{EmptyOptions, ScalarFnRef};
use vx_source_grammar::Keyword;
use vx_source_operands::{
    Context, ExpressionStep, Frame, Mode, Operand, TypeFor, comparison, more, type_due,
};
use vx_source_types::{Expected, ParseError, Sign, Token, expected, refusal};

/// The token behind an operand that a postfix may follow.
pub fn after_tight(
    context: Context,
    frames: Vec<Frame>,
    operand: Operand,
) -> Result<ExpressionStep, ParseError>
    ensures reads { ReadsUpTo context.entry.found.now.at step_of result (follows (frames_of frames.items) context.entry.room (operand_of operand) (lexeme_of context.entry.found.now.token)) }
{
    match &context.found.token {
        Token::Sign(Sign::Dot) => Ok(more(frames, Mode::Dot(operand), context.room)),
        Token::Sign(Sign::OpenBrace) => Ok(more(frames, Mode::Selection(operand), context.room)),
        Token::Sign(Sign::DoubleColon) => Ok(type_due(context, frames, TypeFor::Cast(operand))?),
        Token::Sign(Sign::Plus) => after_arithmetic(context, frames, operand, Arithmetic::Sum),
        Token::Sign(Sign::Minus) => {
            after_arithmetic(context, frames, operand, Arithmetic::Difference)
        }
        Token::Sign(Sign::Star) => after_arithmetic(context, frames, operand, Arithmetic::Product),
        Token::Sign(Sign::Slash) => {
            after_arithmetic(context, frames, operand, Arithmetic::Quotient)
        }
        Token::Sign(Sign::Percent) => {
            after_arithmetic(context, frames, operand, Arithmetic::Remainder)
        }
        Token::Sign(sign) => match comparison(*sign) {
            Some(operator) => after_comparison(context, frames, operand, operator),
            None => close(context, frames, operand),
        },
        Token::Number { .. } => after_number(context, frames, operand),
        Token::Point(_) => after_number(context, frames, operand),
        _ => after_word(context, frames, operand),
    }
}

// The keyword behind an operand, or what is none.
fn after_word(
    context: Context,
    frames: Vec<Frame>,
    operand: Operand,
) -> Result<ExpressionStep, ParseError>
    ensures { ReadsUpTo context.entry.found.now.at step_of result (word_goes (frames_of frames.items) context.entry.room (operand_of operand) (lexeme_of context.entry.found.now.token) (keyword_at (lexeme_of context.entry.found.now.token))) }
{
    match keyword(&context.found.token) {
        Some(Keyword::And) => after_and(context, frames, operand),
        Some(Keyword::Or) => or_item(context, frames, operand),
        Some(Keyword::Like) => like(context, frames, operand, false),
        Some(Keyword::Ilike) => like(context, frames, operand, true),
        Some(Keyword::Between) => between(context, frames, operand),
        Some(Keyword::Not) => {
            let (frames, operand) = comparable(context, frames, operand)?;
            Ok(more(frames, Mode::NotLike(operand), context.room))
        }
        Some(Keyword::In) => {
            let (frames, operand) = comparable(context, frames, operand)?;
            Ok(more(frames, Mode::In(operand), context.room))
        }
        Some(Keyword::Is) => {
            let (frames, operand) = comparable(context, frames, operand)?;
            Ok(more(frames, Mode::Is(operand), context.room))
        }
        _ => close(context, frames, operand),
    }
}

/// The token behind a whole comparison.
pub fn after_loose(
    context: Context,
    frames: Vec<Frame>,
    operand: Operand,
) -> Result<ExpressionStep, ParseError>
    ensures reads { ReadsUpTo context.entry.found.now.at step_of result (follows_loosely (frames_of frames.items) context.entry.room (operand_of operand) (lexeme_of context.entry.found.now.token)) }
{
    match &context.found.token {
        Token::Sign(Sign::Dot)
        | Token::Sign(Sign::OpenBrace)
        | Token::Sign(Sign::DoubleColon)
        | Token::Sign(Sign::Plus)
        | Token::Sign(Sign::Minus)
        | Token::Sign(Sign::Star)
        | Token::Sign(Sign::Slash)
        | Token::Sign(Sign::Percent) => Err(expected(context.found, Expected::Parens)),
        Token::Sign(sign) => match comparison(*sign) {
            Some(_) => Err(expected(context.found, Expected::Parens)),
            None => close(context, frames, operand),
        },
        _ => after_loose_word(context, frames, operand),
    }
}

// The keyword behind a whole comparison, or what is none.
fn after_loose_word(
    context: Context,
    frames: Vec<Frame>,
    operand: Operand,
) -> Result<ExpressionStep, ParseError>
    ensures { ReadsUpTo context.entry.found.now.at step_of result (loose_word_goes (frames_of frames.items) context.entry.room (operand_of operand) (lexeme_of context.entry.found.now.token) (keyword_at (lexeme_of context.entry.found.now.token))) }
{
    match keyword(&context.found.token) {
        Some(Keyword::And) => and_item(context, frames, operand),
        Some(Keyword::Or) => or_item(context, frames, operand),
        Some(Keyword::Like)
        | Some(Keyword::Ilike)
        | Some(Keyword::Not)
        | Some(Keyword::Between)
        | Some(Keyword::In)
        | Some(Keyword::Is) => Err(expected(context.found, Expected::Parens)),
        _ => close(context, frames, operand),
    }
}

/// What follows `not` behind an operand: `between` and `in` are what they are without it, negated.
pub fn after_not(
    context: Context,
    frames: Vec<Frame>,
    operand: Operand,
) -> Result<ExpressionStep, ParseError>
    ensures reads { ReadsUpTo context.entry.found.now.at step_of result (not_goes (frames_of frames.items) context.entry.room (operand_of operand) (lexeme_of context.entry.found.now.token) (keyword_at (lexeme_of context.entry.found.now.token))) }
{
    match keyword(&context.found.token) {
        Some(Keyword::Like) => Ok(open_like(context.room, frames, operand, true, false)?),
        Some(Keyword::Ilike) => Ok(open_like(context.room, frames, operand, true, true)?),
        Some(Keyword::Between) => {
            let frames = negated(frames, &operand)?;
            Ok(pending(frames, Frame::Lower(operand), context.room)?)
        }
        Some(Keyword::In) => {
            let frames = negated(frames, &operand)?;
            Ok(more(frames, Mode::In(operand), context.room))
        }
        _ => Err(refusal(context.found, Expected::Like)),
    }
}

/// What follows `is` behind an operand.
pub fn after_is(
    context: Context,
    frames: Vec<Frame>,
    operand: Operand,
) -> Result<ExpressionStep, ParseError>
    ensures reads { ReadsUpTo context.entry.found.now.at step_of result (is_goes (frames_of frames.items) context.entry.room (operand_of operand) (lexeme_of context.entry.found.now.token) (keyword_at (lexeme_of context.entry.found.now.token))) }
{
    match keyword(&context.found.token) {
        Some(Keyword::Not) => Ok(more(frames, Mode::IsNot(operand), context.room)),
        Some(Keyword::Null) => {
            let function = ScalarFnRef::IsNull(EmptyOptions);
            null_test(context, frames, operand, function)
        }
        Some(Keyword::True) => truth_test(context, frames, operand, false),
        Some(Keyword::False) => {
            let frames = negated(frames, &operand)?;
            truth_test(context, frames, operand, true)
        }
        _ => Err(refusal(context.found, Expected::Null)),
    }
}

/// What follows `is not` behind an operand.
pub fn after_is_not(
    context: Context,
    frames: Vec<Frame>,
    operand: Operand,
) -> Result<ExpressionStep, ParseError>
    ensures reads { ReadsUpTo context.entry.found.now.at step_of result (is_not_goes (frames_of frames.items) context.entry.room (operand_of operand) (lexeme_of context.entry.found.now.token) (keyword_at (lexeme_of context.entry.found.now.token))) }
{
    match keyword(&context.found.token) {
        Some(Keyword::Null) => {
            let function = ScalarFnRef::IsNotNull(EmptyOptions);
            null_test(context, frames, operand, function)
        }
        Some(Keyword::True) => {
            let frames = negated(frames, &operand)?;
            truth_test(context, frames, operand, false)
        }
        Some(Keyword::False) => truth_test(context, frames, operand, true),
        _ => Err(refusal(context.found, Expected::Null)),
    }
}

// A number behind an operand.
ghost use Rattle.std.specs.Prelude.{◌≡◌, ◌==◌, if◌then◌else◌, drop, option_map, string_bytes, ◌∷◌, IfOk, IfSome, None, Some};
ghost use Rattle.vx_source_types.specs.Tokens.{next};
ghost use Rattle.vx_source_types.specs.Views.{lexeme_of};
ghost use Rattle.vx_source_grammar.specs.Following.{less_goes};
ghost use Rattle.vx_source_operands.specs.Places.{ReadsUpTo};
ghost use Rattle.vx_source_operands.specs.OperandViews.{frame_of, frames_of, operand_of, step_of};
ghost use Rattle.vx_source_parser.specs.Numbers.{lexeme_in, number_goes, unsigned};

use crate::begin::{begin_number, is_below_zero};
use crate::close::close;
use std::alloc::{AllocError, Global};
use vx_fn::Operator;
use vx_source_operands::{Context, ExpressionStep, Frame, Level, Operand, reduce};
use vx_source_types::{Found, ParseError, Token};

/// The number behind an operand: one below zero is taken from it.
pub(crate) fn after_number(
    context: Context,
    frames: Vec<Frame>,
    operand: Operand,
) -> Result<ExpressionStep, ParseError>
    ensures reads { ReadsUpTo context.entry.found.now.at step_of result (number_goes (frames_of frames.items) context.entry.room (operand_of operand) (lexeme_of context.entry.found.now.token) (unsigned (lexeme_of context.entry.found.now.token))) }
{
    match unsigned(context.alloc, context.found)? {
        Some(number) => {
            let behind = Context {
                found: &number,
                ..context
            };
            less(behind, frames, operand)
        }
        None => close(context, frames, operand),
    }
}

// The number, which stood behind a sign, is taken from the operand.
fn less(
    context: Context,
    frames: Vec<Frame>,
    operand: Operand,
) -> Result<ExpressionStep, ParseError>
    ensures reads { ReadsUpTo context.entry.found.now.at step_of result (less_goes (frames_of frames.items) context.entry.room (operand_of operand) (lexeme_of context.entry.found.now.token)) }
{
    let (frames, lhs) = reduce(context, frames, operand, Level::Sum)?;
    let frames = opened(frames, Frame::Binary(Operator::Sub, lhs))?;
    begin_number(context, frames, context.found.at.saturating_add(1))
}

// The frames with that one as the innermost.
fn opened(mut frames: Vec<Frame>, frame: Frame) -> Result<Vec<Frame>, AllocError>
    ensures { IfOk result (λ all. frames_of all.items ≡ frame_of frame ∷ frames_of frames.items) }
{
    frames.push(frame)?;
    Ok(frames)
}

// The number without its sign, at the same place, if it is below zero.
fn unsigned(alloc: Global, found: &Found) -> Result<Option<Found>, AllocError>
    ensures token { IfOk result (λ number. unsigned (lexeme_of found.now.token) ≡ option_map lexeme_in number) }
    ensures place { IfOk result (λ number. IfSome number (λ n. n.at ≡ found.now.at)) }
{
    match unsigned_token(alloc, &found.token)? {
        Some(token) => Ok(Some(Found {
            token,
            at: found.at,
            end: found.end,
        })),
        None => Ok(None),
    }
}

fn unsigned_token(alloc: Global, token: &Token) -> Result<Option<Token>, AllocError>
    ensures { IfOk result (λ number. unsigned (lexeme_of token.now) ≡ option_map lexeme_of number) }
{
    match token {
        Token::Number {
            negative: true,
            magnitude,
            suffix,
        } => Ok(Some(Token::Number {
            negative: false,
            magnitude: *magnitude,
            suffix: suffix.clone()?,
        })),
        Token::Point(digits) => match behind_minus(alloc, digits.as_str())? {
            Some(digits) => Ok(Some(Token::Point(digits))),
            None => Ok(None),
        },
        _ => Ok(None),
    }
}

// The digits behind a minus, if they stand behind one.
fn behind_minus(alloc: Global, digits: &str) -> Result<Option<String>, AllocError>
    ensures { IfOk result (λ behind. option_map (λ s. string_bytes s) behind ≡ (if next digits.now == 45 then Some (drop 1 digits.now) else None)) }
{
    if is_below_zero(digits) {
        Ok(Some(digits[1..].to_string(alloc)?))
    } else {
        Ok(None)
    }
}

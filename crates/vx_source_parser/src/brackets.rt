// What goes on in a bracket, or closes it, by what the bracket is of.
ghost use Rattle.std.specs.Prelude.{◌≡◌, ◌∷◌, Ok, MatchResult};
ghost use Rattle.vx_source_types.specs.Views.{lexeme_of};
ghost use Rattle.vx_source_types.specs.declared.error.ParseError.TheVariants.{OutOfMemory};
ghost use Rattle.vx_source_grammar.specs.Closing as grammar;
ghost use Rattle.vx_source_grammar.specs.States.{goes, in_case, operand_due};
ghost use Rattle.vx_source_operands.specs.Places.{ReadsUpTo};
ghost use Rattle.vx_source_operands.specs.OperandViews.{callee_of, frames_of, operand_of, operands_of, part_of, step_of};

use crate::steps::{keyword, node_stands, pending};
use vx_dtype::FieldName;
use vx_fn::{CaseWhenOptions, ScalarFnRef};
use vx_source_grammar::Keyword;
use vx_source_operands::{
    Bracket, Callee, CasePart, Context, ExpressionStep, Frame, Mode, Operand, TypeFor, enclosed,
    more, tight, type_due,
};
use vx_source_types::{Expected, Found, ParseError, Sign, Token, expected, refusal};

/// The call of the children, which begins at that byte, where so much nesting is allowed.
pub fn called(
    context: Context,
    frames: Vec<Frame>,
    callee: Callee,
    children: Vec<Operand>,
    start: usize,
) -> Result<ExpressionStep, ParseError>
    ensures reads { ReadsUpTo context.entry.found.now.at step_of result (grammar.called (frames_of frames.items) context.entry.room (callee_of callee) (operands_of children.items)) }
{
    let bytes = (start, context.found.end);
    match callee {
        Callee::Any(function) => node_stands(context, frames, function, children, bytes),
        Callee::Own(function) => {
            if function.arity() == children.len() {
                node_stands(context, frames, function, children, bytes)
            } else {
                Err(expected(context.found, Expected::Arity))
            }
        }
        Callee::If => {
            if children.len() == 3 {
                let options = CaseWhenOptions {
                    num_when_then_pairs: 1,
                    has_else: true,
                };
                let function = ScalarFnRef::CaseWhen(options);
                node_stands(context, frames, function, children, bytes)
            } else {
                Err(expected(context.found, Expected::Arity))
            }
        }
    }
}

// Whether the call takes another child behind so many.
fn takes_more(callee: &Callee, children: usize) -> bool
    ensures { result ≡ grammar.takes_more (callee_of callee.now) children }
{
    match callee {
        Callee::Any(_) => true,
        Callee::Own(function) => children < function.arity(),
        Callee::If => children < 3,
    }
}

/// What follows a child of a call: a comma, where the call takes another one, or the bracket.
pub(crate) fn after_child(
    context: Context,
    frames: Vec<Frame>,
    callee: Box<Callee>,
    children: Vec<Operand>,
    bracket: Bracket,
) -> Result<ExpressionStep, ParseError>
    ensures { ReadsUpTo context.entry.found.now.at step_of result (grammar.child_ends (frames_of frames.items) context.entry.room (callee_of callee.value) (operands_of children.items) bracket.room (lexeme_of context.entry.found.now.token)) }
{
    match &context.found.token {
        Token::Sign(Sign::Comma) => {
            if takes_more(&callee, children.len()) {
                Ok(pending(frames, Frame::Call(callee, children, bracket), context.room)?)
            } else {
                Err(expected(context.found, Expected::Arity))
            }
        }
        Token::Sign(Sign::CloseParen) => {
            let Bracket { start, room } = bracket;
            let outside = Context { room, ..context };
            called(outside, frames, Box::into_inner(callee), children, start)
        }
        _ => Err(refusal(context.found, Expected::CommaOrCloseParen)),
    }
}

/// What follows a child of a struct.
pub(crate) fn after_packed(
    context: Context,
    mut frames: Vec<Frame>,
    names: Vec<FieldName>,
    children: Vec<Operand>,
    bracket: Bracket,
) -> Result<ExpressionStep, ParseError>
    ensures { ReadsUpTo context.entry.found.now.at step_of result (grammar.packed_ends (frames_of frames.items) context.entry.room names.items (operands_of children.items) bracket.room (lexeme_of context.entry.found.now.token)) }
{
    match &context.found.token {
        Token::Sign(Sign::Comma) => {
            frames.push(Frame::Pack(names, children, bracket))?;
            Ok(more(frames, Mode::Packed, context.room))
        }
        Token::Sign(Sign::CloseParen) => {
            let mode = Mode::PackEnd(names, children, bracket.start, context.found.end);
            Ok(more(frames, mode, bracket.room))
        }
        _ => Err(refusal(context.found, Expected::CommaOrCloseParen)),
    }
}

/// What follows what stands between parentheses.
pub(crate) fn after_enclosed(
    frames: Vec<Frame>,
    operand: Operand,
    bracket: Bracket,
    found: &Found,
) -> Result<ExpressionStep, ParseError>
    ensures { ReadsUpTo found.now.at step_of result (grammar.paren_ends (frames_of frames.items) (operand_of operand) bracket.room (lexeme_of found.now.token)) }
{
    match &found.token {
        Token::Sign(Sign::CloseParen) => {
            let operand = enclosed(operand, bracket.start, found.end);
            Ok(tight(frames, bracket.room, operand))
        }
        _ => Err(refusal(found, Expected::OperatorOrCloseParen)),
    }
}

/// What follows what is cast: its type.
pub(crate) fn after_cast(
    context: Context,
    frames: Vec<Frame>,
    operand: Operand,
    bracket: Bracket,
) -> Result<ExpressionStep, ParseError>
    ensures { ReadsUpTo context.entry.found.now.at step_of result (grammar.cast_goes (frames_of frames.items) context.entry.room (operand_of operand) bracket.room (lexeme_of context.entry.found.now.token) (grammar.keyword_at (lexeme_of context.entry.found.now.token))) }
{
    match keyword(&context.found.token) {
        Some(Keyword::As) => {
            let wanted = TypeFor::CastCall(operand, bracket);
            Ok(type_due(context, frames, wanted)?)
        }
        _ => Err(refusal(context.found, Expected::As)),
    }
}

/// What follows a condition, a value or the ELSE value of a CASE.
pub(crate) fn after_part(
    context: Context,
    frames: Vec<Frame>,
    part: CasePart,
    children: Vec<Operand>,
    bracket: Bracket,
) -> Result<ExpressionStep, ParseError>
    ensures { ReadsUpTo context.entry.found.now.at step_of result (grammar.case_goes (frames_of frames.items) context.entry.room (part_of part) (operands_of children.items) bracket.room (lexeme_of context.entry.found.now.token) (grammar.keyword_at (lexeme_of context.entry.found.now.token))) }
{
    match part {
        CasePart::Condition => match keyword(&context.found.token) {
            Some(Keyword::Then) => next_part(
                frames,
                context.room,
                CasePart::Value,
                children,
                bracket,
            ),
            _ => Err(refusal(context.found, Expected::Then)),
        },
        CasePart::Value => match keyword(&context.found.token) {
            Some(Keyword::When) => next_part(
                frames,
                context.room,
                CasePart::Condition,
                children,
                bracket,
            ),
            Some(Keyword::Else) => next_part(
                frames,
                context.room,
                CasePart::Else,
                children,
                bracket,
            ),
            Some(Keyword::End) => end_case(context, frames, children, bracket),
            _ => Err(refusal(context.found, Expected::WhenElseEnd)),
        },
        CasePart::Else => match keyword(&context.found.token) {
            Some(Keyword::End) => end_case(context, frames, children, bracket),
            _ => Err(refusal(context.found, Expected::EndWord)),
        },
    }
}

// A part of a CASE begins.
fn next_part(
    frames: Vec<Frame>,
    room: usize,
    part: CasePart,
    children: Vec<Operand>,
    bracket: Bracket,
) -> Result<ExpressionStep, ParseError>
    ensures { MatchResult result (λ step. goes (in_case (part_of part) (operands_of children.items) bracket.room ∷ frames_of frames.items) operand_due room ≡ Ok (step_of step)) (λ e. e ≡ OutOfMemory) }
{
    Ok(pending(frames, Frame::Case(part, children, bracket), room)?)
}

// The CASE of conditions and values in turn, and what is left over as the ELSE value.
fn end_case(
    context: Context,
    frames: Vec<Frame>,
    children: Vec<Operand>,
    bracket: Bracket,
) -> Result<ExpressionStep, ParseError>
    ensures { ReadsUpTo context.entry.found.now.at step_of result (grammar.case_ends (frames_of frames.items) (operands_of children.items) bracket.room) }
{
    let Ok(pairs) = u32::try_from(children.len() / 2) else {
        return Err(expected(context.found, Expected::FewerPairs));
    };
    let options = CaseWhenOptions {
        num_when_then_pairs: pairs,
        has_else: children.len() % 2 == 1,
    };
    let function = ScalarFnRef::CaseWhen(options);
    let Bracket { start, room } = bracket;
    let bytes = (start, context.found.end);
    let outside = Context { room, ..context };
    node_stands(outside, frames, function, children, bytes)
}

// The items of `in`.
ghost use Rattle.std.specs.Prelude.{◌≡◌};
ghost use Rattle.vx_source_types.specs.Views.{lexeme_of};
ghost use Rattle.vx_source_grammar.specs.Closing.{member_ends};
ghost use Rattle.vx_source_grammar.specs.Following.{members_at};
ghost use Rattle.vx_source_operands.specs.Places.{ReadsUpTo};
ghost use Rattle.vx_source_operands.specs.OperandViews.{frames_of, operand_of, operands_of, step_of};
ghost use Rattle.vx_source_operands.specs.PlainViews.{reading_of};

use vx_source_operands::{
    Bracket, Context, ExpressionStep, Frame, Mode, Operand, PlainValues, among, enclosed, more,
};
use vx_source_types::{Expected, ParseError, Sign, Token, inside, refusal};

/// The bracket around the items.
pub(crate) fn members(
    context: Context,
    plain: PlainValues,
    mut frames: Vec<Frame>,
    operand: Operand,
) -> Result<ExpressionStep, ParseError>
    ensures { ReadsUpTo context.entry.found.now.at step_of result (members_at (reading_of plain) (frames_of frames.items) context.entry.room (operand_of operand) (lexeme_of context.entry.found.now.token)) }
{
    let Context { alloc, room, found } = context;
    match &found.token {
        Token::Sign(Sign::OpenParen) => {
            let less = inside(room, found)?;
            let start = operand.places.start;
            let bracket = Bracket { start, room };
            let operand = Box::new(alloc, operand)?;
            frames.push(Frame::Members(plain, operand, Vec::new(alloc), bracket))?;
            Ok(more(frames, Mode::Operand, less))
        }
        _ => Err(refusal(found, Expected::OpenParen)),
    }
}

/// What follows an item.
pub(crate) fn after_member(
    context: Context,
    plain: PlainValues,
    mut frames: Vec<Frame>,
    operand: Box<Operand>,
    items: Vec<Operand>,
    bracket: Bracket,
) -> Result<ExpressionStep, ParseError>
    ensures { ReadsUpTo context.entry.found.now.at step_of result (member_ends (frames_of frames.items) context.entry.room (reading_of plain) (operand_of operand.value) (operands_of items.items) bracket.room (lexeme_of context.entry.found.now.token)) }
{
    match &context.found.token {
        Token::Sign(Sign::Comma) => {
            frames.push(Frame::Members(plain, operand, items, bracket))?;
            Ok(more(frames, Mode::Operand, context.room))
        }
        Token::Sign(Sign::CloseParen) => {
            let Bracket { start, room } = bracket;
            let outside = Context { room, ..context };
            let made = among(outside, plain, Box::into_inner(operand), items)?;
            let made = enclosed(made, start, context.found.end);
            Ok(more(frames, Mode::Loose(made), room))
        }
        _ => Err(refusal(context.found, Expected::CommaOrCloseParen)),
    }
}

// Fields and selections behind an operand.
ghost use Rattle.std.specs.Prelude.{◌≡◌, ◌∷◌, [], true, MatchResult};
ghost use Rattle.vx_fn.specs.Functions.{get_item};
ghost use Rattle.vx_source_types.specs.Views.{lexeme_of};
ghost use Rattle.vx_source_types.specs.declared.error.ParseError.TheVariants.{OutOfMemory};
ghost use Rattle.vx_source_types.specs.Names.{name_at};
ghost use Rattle.vx_source_grammar.specs.Following.{excluded_at, field_goes, named_goes, selected, selection_at, selection_goes, selection_of};
ghost use Rattle.vx_source_grammar.specs.Joining.{over};
ghost use Rattle.vx_source_operands.specs.Places.{ReadsUpTo};
ghost use Rattle.vx_source_operands.specs.OperandViews.{frames_of, operand_of, step_of};

use std::alloc::Global;
use vx_dtype::{FieldName, FieldNames};
use vx_fn::{FieldSelection, ScalarFnRef};
use vx_source_operands::{
    Context, ExpressionStep, Frame, Mode, Operand, SelectionSoFar, more, node_over, tight,
};
use vx_source_types::{Expected, ParseError, Sign, Token, field_name, refusal};

/// The field of the operand, whose name ends at that byte.
pub fn field(
    context: Context,
    name: FieldName,
    operand: Operand,
    end: usize,
) -> Result<Operand, ParseError>
    ensures reads { ReadsUpTo context.entry.found.now.at operand_of result (over (get_item name) (operand_of operand ∷ []) context.entry.room) }
{
    let bytes = (operand.places.start, end);
    node_over(context, ScalarFnRef::GetItem(name), operand, bytes)
}

/// The name behind a dot.
pub fn dot(
    context: Context,
    frames: Vec<Frame>,
    operand: Operand,
) -> Result<ExpressionStep, ParseError>
    ensures reads { ReadsUpTo context.entry.found.now.at step_of result (field_goes (frames_of frames.items) context.entry.room (operand_of operand) (lexeme_of context.entry.found.now.token) (name_at (lexeme_of context.entry.found.now.token))) }
{
    match field_name(&context.found.token) {
        Some(name) => {
            let made = field(context, name.clone()?, operand, context.found.end)?;
            Ok(tight(frames, context.room, made))
        }
        None => Err(refusal(context.found, Expected::Name)),
    }
}

/// What stands behind the brace that begins a selection.
pub fn selection(
    context: Context,
    frames: Vec<Frame>,
    operand: Operand,
) -> Result<ExpressionStep, ParseError>
    ensures reads { ReadsUpTo context.entry.found.now.at step_of result (selection_at (frames_of frames.items) context.entry.room (operand_of operand) (lexeme_of context.entry.found.now.token)) }
{
    match &context.found.token {
        Token::Sign(Sign::Tilde) => Ok(more(frames, Mode::Exclusion(operand), context.room)),
        _ => first_name(context, frames, operand, false),
    }
}

/// What stands behind the tilde that begins an exclusion.
pub fn exclusion(
    context: Context,
    frames: Vec<Frame>,
    operand: Operand,
) -> Result<ExpressionStep, ParseError>
    ensures reads { ReadsUpTo context.entry.found.now.at step_of result (excluded_at (frames_of frames.items) context.entry.room (operand_of operand) true (lexeme_of context.entry.found.now.token)) }
{
    first_name(context, frames, operand, true)
}

// The first name of a selection, or its end.
fn first_name(
    context: Context,
    frames: Vec<Frame>,
    operand: Operand,
    excludes: bool,
) -> Result<ExpressionStep, ParseError>
    ensures { ReadsUpTo context.entry.found.now.at step_of result (excluded_at (frames_of frames.items) context.entry.room (operand_of operand) excludes (lexeme_of context.entry.found.now.token)) }
{
    let names = Vec::new(context.alloc);
    let selection = SelectionSoFar {
        operand,
        excludes,
        names,
    };
    match &context.found.token {
        Token::Sign(Sign::CloseBrace) => select(context, frames, selection),
        _ => selection_name(context, frames, selection),
    }
}

/// The next name of a selection.
pub fn selection_name(
    context: Context,
    frames: Vec<Frame>,
    mut selection: SelectionSoFar,
) -> Result<ExpressionStep, ParseError>
    ensures reads { ReadsUpTo context.entry.found.now.at step_of result (named_goes (frames_of frames.items) context.entry.room (operand_of selection.operand) selection.excludes selection.names.items (lexeme_of context.entry.found.now.token) (name_at (lexeme_of context.entry.found.now.token))) }
{
    match field_name(&context.found.token) {
        Some(name) => {
            selection.names.push(name.clone()?)?;
            Ok(more(frames, Mode::SelectionNext(selection), context.room))
        }
        None => Err(refusal(context.found, Expected::Name)),
    }
}

/// What stands behind a name of a selection.
pub fn selection_next(
    context: Context,
    frames: Vec<Frame>,
    selection: SelectionSoFar,
) -> Result<ExpressionStep, ParseError>
    ensures reads { ReadsUpTo context.entry.found.now.at step_of result (selection_goes (frames_of frames.items) context.entry.room (operand_of selection.operand) selection.excludes selection.names.items (lexeme_of context.entry.found.now.token)) }
{
    match &context.found.token {
        Token::Sign(Sign::Comma) => Ok(more(frames, Mode::SelectionName(selection), context.room)),
        Token::Sign(Sign::CloseBrace) => select(context, frames, selection),
        _ => Err(refusal(context.found, Expected::CommaOrCloseBrace)),
    }
}

// The selection of the names.
fn select(
    context: Context,
    frames: Vec<Frame>,
    selection: SelectionSoFar,
) -> Result<ExpressionStep, ParseError>
    ensures { ReadsUpTo context.entry.found.now.at step_of result (selected (frames_of frames.items) context.entry.room (operand_of selection.operand) selection.excludes selection.names.items) }
{
    let SelectionSoFar {
        operand,
        excludes,
        names,
    } = selection;
    let selection = names_selected(context.alloc, excludes, names)?;
    let bytes = (operand.places.start, context.found.end);
    let function = ScalarFnRef::Select(selection);
    let made = node_over(context, function, operand, bytes)?;
    Ok(tight(frames, context.room, made))
}

// All but these names, or these.
fn names_selected(
    alloc: Global,
    excludes: bool,
    names: Vec<FieldName>,
) -> Result<FieldSelection, ParseError>
    ensures { MatchResult result (λ made. made ≡ selection_of excludes names.items) (λ e. e ≡ OutOfMemory) }
{
    // Names are refused for want of memory alone.
    let Ok(names) = FieldNames::new(alloc, names) else {
        return Err(ParseError::OutOfMemory);
    };
    Ok(if excludes {
        FieldSelection::Exclude(names)
    } else {
        FieldSelection::Include(names)
    })
}

// Functions that are called by their names.
ghost use Rattle.std.specs.Prelude.{◌≡◌, option_map};
ghost use Rattle.vx_fn.specs.Functions as functions;
ghost use Rattle.vx_value.specs.Views.{admits_null};
ghost use Rattle.vx_source_types.specs.Views.{lexeme_of};
ghost use Rattle.vx_source_types.specs.Names.{name_at};
ghost use Rattle.vx_source_types.specs.TypeReading.{within};
ghost use Rattle.vx_source_grammar.specs.Keywords.{beside};
ghost use Rattle.vx_source_grammar.specs.Beginning.{call_begins, callees, children_begin, first_child_at, first_packed_at, pack_end_at, packed_at, packed_value_at, word_called};
ghost use Rattle.vx_source_grammar.specs.Joining.{over};
ghost use Rattle.vx_source_operands.specs.Places.{ReadsUpTo};
ghost use Rattle.vx_source_operands.specs.OperandViews.{callee_of, frames_of, operand_of, operands_of, step_of};

use crate::after::after_tight;
use crate::begin::begin;
use crate::brackets::called;
use vx_dtype::{FieldName, FieldNames, Nullability};
use vx_fn::{EmptyOptions, PackOptions, ScalarFnRef};
use vx_source_operands::{
    Bracket, Callee, Context, ExpressionStep, Frame, Mode, Operand, more, node, tight,
};
use vx_source_types::{
    Expected, ParseError, Sign, Token, expected, field_name, inside, is_word, refusal,
};

// The bracket behind a word: the word is a function's name.
pub(crate) fn call(
    context: Context,
    frames: Vec<Frame>,
    name: FieldName,
    start: usize,
) -> Result<ExpressionStep, ParseError>
    ensures reads { ReadsUpTo context.entry.found.now.at step_of result (within context.entry.room (word_called (frames_of frames.items) context.entry.room name)) }
{
    let Context { room, found, .. } = context;
    let less = inside(room, found)?;
    let bracket = Bracket { start, room };
    begin_call(context, frames, less, name, bracket)
}

// Inside the bracket.
fn begin_call(
    context: Context,
    mut frames: Vec<Frame>,
    less: usize,
    name: FieldName,
    bracket: Bracket,
) -> Result<ExpressionStep, ParseError>
    ensures reads { ReadsUpTo context.entry.found.now.at step_of result (word_called (frames_of frames.items) bracket.room name less) }
{
    if is_word(&name, "pack") {
        frames.push(Frame::Pack(Vec::new(context.alloc), Vec::new(context.alloc), bracket))?;
        Ok(more(frames, Mode::FirstPacked(bracket.start), less))
    } else if is_word(&name, "cast") {
        frames.push(Frame::Cast(bracket))?;
        Ok(more(frames, Mode::Operand, less))
    } else {
        begin_children(context, frames, less, callee(&name), bracket)
    }
}

// The children of what is called by a name of its own, if there is such.
fn begin_children(
    context: Context,
    mut frames: Vec<Frame>,
    less: usize,
    callee: Option<Callee>,
    bracket: Bracket,
) -> Result<ExpressionStep, ParseError>
    ensures reads { ReadsUpTo context.entry.found.now.at step_of result (call_begins (frames_of frames.items) bracket.room (option_map callee_of callee) less) }
{
    match callee {
        Some(callee) => {
            let callee = Box::new(context.alloc, callee)?;
            frames.push(Frame::Call(callee, Vec::new(context.alloc), bracket))?;
            Ok(more(frames, Mode::FirstChild, less))
        }
        None => Err(expected(context.found, Expected::Function)),
    }
}

// What is called by that name.
fn callee(name: &FieldName) -> Option<Callee>
    ensures { option_map callee_of result ≡ beside callees name.now }
{
    if is_word(name, "zip") {
        Some(Callee::Own(ScalarFnRef::Zip(EmptyOptions)))
    } else if is_word(name, "coalesce") {
        Some(Callee::Own(ScalarFnRef::FillNull(EmptyOptions)))
    } else if is_word(name, "fill_null") {
        Some(Callee::Own(ScalarFnRef::FillNull(EmptyOptions)))
    } else if is_word(name, "mask") {
        Some(Callee::Own(ScalarFnRef::Mask(EmptyOptions)))
    } else if is_word(name, "is_null") {
        Some(Callee::Own(ScalarFnRef::IsNull(EmptyOptions)))
    } else if is_word(name, "is_not_null") {
        Some(Callee::Own(ScalarFnRef::IsNotNull(EmptyOptions)))
    } else if is_word(name, "starts_with") {
        Some(Callee::Own(ScalarFnRef::StartsWith(EmptyOptions)))
    } else if is_word(name, "byte_length") {
        Some(Callee::Own(ScalarFnRef::ByteLength(EmptyOptions)))
    } else if is_word(name, "list_contains") {
        Some(Callee::Own(ScalarFnRef::ListContains(EmptyOptions)))
    } else if is_word(name, "if") {
        Some(Callee::If)
    } else {
        None
    }
}

// The bracket before the children of a function.
pub(crate) fn open_children(
    context: Context,
    mut frames: Vec<Frame>,
    callee: Callee,
    start: usize,
) -> Result<ExpressionStep, ParseError>
    ensures reads { ReadsUpTo context.entry.found.now.at step_of result (children_begin (frames_of frames.items) context.entry.room (callee_of callee)) }
{
    let Context { alloc, room, found } = context;
    let callee = Box::new(alloc, callee)?;
    let less = inside(room, found)?;
    let bracket = Bracket { start, room };
    frames.push(Frame::Call(callee, Vec::new(alloc), bracket))?;
    Ok(more(frames, Mode::FirstChild, less))
}

// The first child of a call, or its end.
pub(crate) fn first_child(
    context: Context,
    mut frames: Vec<Frame>,
) -> Result<ExpressionStep, ParseError>
    ensures reads { ReadsUpTo context.entry.found.now.at step_of result (first_child_at (frames_of frames.items) context.entry.room (lexeme_of context.entry.found.now.token)) }
{
    match &context.found.token {
        Token::Sign(Sign::CloseParen) => match frames.pop() {
            Some(Frame::Call(callee, children, bracket)) => {
                let Bracket { start, room } = bracket;
                let outside = Context { room, ..context };
                called(outside, frames, Box::into_inner(callee), children, start)
            }
            _ => Err(expected(context.found, Expected::Operand)),
        },
        _ => begin(context, frames),
    }
}

// The first name of a struct that is packed, or its end.
pub(crate) fn first_packed(
    context: Context,
    mut frames: Vec<Frame>,
    start: usize,
) -> Result<ExpressionStep, ParseError>
    ensures reads { ReadsUpTo context.entry.found.now.at step_of result (first_packed_at (frames_of frames.items) context.entry.room (lexeme_of context.entry.found.now.token)) }
{
    match &context.found.token {
        Token::Sign(Sign::CloseParen) => match frames.pop() {
            Some(Frame::Pack(names, children, bracket)) => {
                let mode = Mode::PackEnd(names, children, start, context.found.end);
                Ok(more(frames, mode, bracket.room))
            }
            _ => Err(expected(context.found, Expected::Operand)),
        },
        _ => packed(context, frames),
    }
}

// The name of a child of a struct that is packed.
pub(crate) fn packed(context: Context, mut frames: Vec<Frame>) -> Result<ExpressionStep, ParseError>
    ensures reads { ReadsUpTo context.entry.found.now.at step_of result (packed_at (frames_of frames.items) context.entry.room (lexeme_of context.entry.found.now.token) (name_at (lexeme_of context.entry.found.now.token))) }
{
    match field_name(&context.found.token) {
        Some(name) => match frames.pop() {
            Some(Frame::Pack(mut names, children, bracket)) => {
                names.push(name.clone()?)?;
                frames.push(Frame::Pack(names, children, bracket))?;
                Ok(more(frames, Mode::PackedValue, context.room))
            }
            _ => Err(expected(context.found, Expected::Operand)),
        },
        None => Err(refusal(context.found, Expected::Name)),
    }
}

// The colon behind the name.
pub(crate) fn packed_value(
    context: Context,
    frames: Vec<Frame>,
) -> Result<ExpressionStep, ParseError>
    ensures reads { ReadsUpTo context.entry.found.now.at step_of result (packed_value_at (frames_of frames.items) context.entry.room (lexeme_of context.entry.found.now.token)) }
{
    match &context.found.token {
        Token::Sign(Sign::Colon) => Ok(more(frames, Mode::Operand, context.room)),
        _ => Err(refusal(context.found, Expected::FieldValue)),
    }
}

// A question mark behind a struct makes it nullable.
pub(crate) fn pack_end(
    context: Context,
    frames: Vec<Frame>,
    names: Vec<FieldName>,
    children: Vec<Operand>,
    bytes: (usize, usize),
) -> Result<ExpressionStep, ParseError>
    ensures reads { ReadsUpTo context.entry.found.now.at step_of result (pack_end_at (frames_of frames.items) context.entry.room names.items (operands_of children.items) (lexeme_of context.entry.found.now.token)) }
{
    match &context.found.token {
        Token::Sign(Sign::Question) => {
            let bytes = (bytes.0, context.found.end);
            let nullability = Nullability::Nullable;
            let operand = pack(context, names, nullability, children, bytes)?;
            Ok(tight(frames, context.room, operand))
        }
        _ => {
            let nullability = Nullability::NonNullable;
            let operand = pack(context, names, nullability, children, bytes)?;
            after_tight(context, frames, operand)
        }
    }
}

// The struct of the children, which stands in these bytes.
fn pack(
    context: Context,
    names: Vec<FieldName>,
    nullability: Nullability,
    children: Vec<Operand>,
    bytes: (usize, usize),
) -> Result<Operand, ParseError>
    ensures reads { ReadsUpTo context.entry.found.now.at operand_of result (over (functions.pack names.items (admits_null nullability)) (operands_of children.items) context.entry.room) }
{
    let Ok(names) = FieldNames::new(context.alloc, names) else {
        return Err(ParseError::OutOfMemory);
    };
    let function = ScalarFnRef::Pack(PackOptions { names, nullability });
    node(context, function, children, bytes)
}

// What follows a word, and a function's name with its options.
ghost use Rattle.std.specs.Prelude.{[], ◌≡◌, ◌∷◌, ◌++◌};
ghost use Rattle.vx_fn.specs.Functions.{get_item};
ghost use Rattle.vx_fn.specs.Views as functions;
ghost use Rattle.vx_tree.specs.Trees.{root};
ghost use Rattle.vx_source_types.specs.Views.{lexeme_of};
ghost use Rattle.vx_source_grammar.specs.Keywords.{beside};
ghost use Rattle.vx_source_grammar.specs.OptionReading.{plain_functions, names_function, function_read};
ghost use Rattle.vx_source_grammar.specs.Beginning.{case_at, children_at, id_at, id_called, missing, node_before, options_at, options_begin, vortex_at, word_at};
ghost use Rattle.vx_source_grammar.specs.Closing.{keyword_at};
ghost use Rattle.vx_source_grammar.specs.States.{children_due, goes, in_options, when_read};
ghost use Rattle.vx_source_operands.specs.Places.{ReadsUpTo};
ghost use Rattle.vx_source_operands.specs.OperandViews.{frames_of, lexemes_of, step_of};

use crate::after::after_tight;
use crate::begin::field_of_root;
use crate::calls::{call, open_children};
use crate::postfix::{dot, field};
use crate::steps::keyword;
use std::alloc::Global;
use vx_dtype::FieldName;
use vx_fn::ScalarFnRef;
use vx_source_grammar::Keyword;
use vx_source_operands::{
    Callee, Context, ExpressionStep, Frame, Mode, OptionsSoFar, function_of, more, names_function,
    plain_function, takes_options,
};
use vx_source_types::{Expected, Found, ParseError, Sign, Token, expected, inside, refusal};

// What follows a word: a bracket makes it the name of a function, and a dot behind `vortex` may begin such a name; else it
// is a field.
pub(crate) fn after_word(
    context: Context,
    frames: Vec<Frame>,
    word: FieldName,
    bytes: (usize, usize),
) -> Result<ExpressionStep, ParseError>
    ensures reads { ReadsUpTo context.entry.found.now.at step_of result (word_at (frames_of frames.items) context.entry.room word (lexeme_of context.entry.found.now.token)) }
{
    match &context.found.token {
        Token::Sign(Sign::OpenParen) => call(context, frames, word, bytes.0),
        Token::Sign(Sign::Dot) => {
            if word.as_str() == "vortex" {
                Ok(more(frames, Mode::Vortex(word, bytes.0, bytes.1), context.room))
            } else {
                end_field(context, frames, word, bytes)
            }
        }
        _ => end_field(context, frames, word, bytes),
    }
}

// A field of the scope root, whose name has ended.
fn end_field(
    context: Context,
    frames: Vec<Frame>,
    name: FieldName,
    bytes: (usize, usize),
) -> Result<ExpressionStep, ParseError>
    ensures reads { ReadsUpTo context.entry.found.now.at step_of result (node_before (frames_of frames.items) context.entry.room (get_item name) (root ∷ []) (lexeme_of context.entry.found.now.token)) }
{
    let operand = field_of_root(context, name, bytes)?;
    after_tight(context, frames, operand)
}

// A name behind `vortex.`, or a field of the field of that name.
pub(crate) fn after_vortex(
    context: Context,
    frames: Vec<Frame>,
    word: FieldName,
    bytes: (usize, usize),
) -> Result<ExpressionStep, ParseError>
    ensures reads { ReadsUpTo context.entry.found.now.at step_of result (vortex_at (frames_of frames.items) context.entry.room word (lexeme_of context.entry.found.now.token)) }
{
    match &context.found.token {
        Token::Word(name) => {
            let mode = Mode::Id(word, name.clone()?, bytes.0, context.found.end);
            Ok(more(frames, mode, context.room))
        }
        _ => {
            let operand = field_of_root(context, word, bytes)?;
            dot(context, frames, operand)
        }
    }
}

// What follows `vortex.` and a name: a bracket makes that the name of a function; else it is a field of a field.
pub(crate) fn after_id(
    context: Context,
    frames: Vec<Frame>,
    names: (FieldName, FieldName),
    bytes: (usize, usize),
) -> Result<ExpressionStep, ParseError>
    ensures reads { ReadsUpTo context.entry.found.now.at step_of result (id_at (frames_of frames.items) context.entry.room names.0 names.1 (lexeme_of context.entry.found.now.token)) }
{
    let (word, name) = names;
    match &context.found.token {
        Token::Sign(Sign::OpenParen) => call_by_id(context, frames, name, bytes.0),
        Token::Sign(Sign::OpenBracket) => begin_options(context, frames, name, bytes.0),
        _ => {
            let inner = field_of_root(context, word, bytes)?;
            let operand = field(context, name, inner, bytes.1)?;
            after_tight(context, frames, operand)
        }
    }
}

// The bracket behind `vortex.` and a name.
fn call_by_id(
    context: Context,
    frames: Vec<Frame>,
    name: FieldName,
    start: usize,
) -> Result<ExpressionStep, ParseError>
    ensures reads { ReadsUpTo context.entry.found.now.at step_of result (id_called (frames_of frames.items) context.entry.room name (beside plain_functions name)) }
{
    match plain_function(&name) {
        Some(function) => open_children(context, frames, Callee::Own(function), start),
        None => Err(expected(context.found, missing(&name))),
    }
}

// What is missing behind the name, which no function without options has.
fn missing(name: &FieldName) -> Expected
    ensures { result ≡ missing name.now }
{
    if takes_options(name) {
        Expected::Options
    } else {
        Expected::Function
    }
}

// The square bracket behind `vortex.` and a name.
fn begin_options(
    context: Context,
    frames: Vec<Frame>,
    name: FieldName,
    start: usize,
) -> Result<ExpressionStep, ParseError>
    ensures reads { ReadsUpTo context.entry.found.now.at step_of result (options_begin (frames_of frames.items) context.entry.room name (names_function name)) }
{
    let Context { alloc, room, found } = context;
    if !names_function(&name) {
        return Err(expected(found, Expected::Function));
    }
    let options = OptionsSoFar {
        name,
        tokens: Vec::new(alloc),
        opened: 0,
        room: inside(room, found)?,
        start,
    };
    Ok(more(frames, Mode::Options(options), room))
}

// Another token of the options, or the bracket behind them; brackets in them count.
pub(crate) fn options_next(
    alloc: Global,
    frames: Vec<Frame>,
    room: usize,
    options: OptionsSoFar,
    found: Found,
) -> Result<ExpressionStep, ParseError>
    ensures reads { ReadsUpTo found.at step_of result (options_at (frames_of frames.items) room options.name (lexemes_of options.tokens.items) options.opened options.room (lexeme_of found.token)) }
{
    match &found.token {
        Token::Sign(Sign::OpenBracket) => match options.opened.checked_add(1) {
            Some(opened) => collect(frames, room, options, opened, found),
            None => Err(ParseError::OutOfMemory),
        },
        Token::Sign(Sign::CloseBracket) => match options.opened.checked_sub(1) {
            Some(opened) => collect(frames, room, options, opened, found),
            None => {
                let found = &found;
                end_options(Context { alloc, room, found }, frames, options)
            }
        },
        Token::End => Err(expected(&found, Expected::CloseBracket)),
        Token::Invalid(wanted) => Err(expected(&found, *wanted)),
        _ => {
            let opened = options.opened;
            collect(frames, room, options, opened, found)
        }
    }
}

// The options go on behind the token, with so many brackets open.
fn collect(
    frames: Vec<Frame>,
    room: usize,
    mut options: OptionsSoFar,
    opened: usize,
    found: Found,
) -> Result<ExpressionStep, ParseError>
    ensures reads { ReadsUpTo found.at step_of result (goes (frames_of frames.items) (in_options options.name (lexemes_of options.tokens.items ++ lexeme_of found.token ∷ []) opened options.room) room) }
{
    options.tokens.push(found)?;
    options.opened = opened;
    Ok(more(frames, Mode::Options(options), room))
}

// The options have ended.
fn end_options(
    context: Context,
    frames: Vec<Frame>,
    options: OptionsSoFar,
) -> Result<ExpressionStep, ParseError>
    ensures reads { ReadsUpTo context.entry.found.now.at step_of result (when_read (λ f. goes (frames_of frames.items) (children_due f) context.entry.room) (function_read options.name (lexemes_of options.tokens.items) options.room)) }
{
    let tokens = options.tokens.as_slice();
    let inner = Context {
        room: options.room,
        ..context
    };
    let function = Box::new(context.alloc, function_of(inner, &options.name, tokens)?)?;
    let mode = Mode::Children(function, options.start);
    Ok(more(frames, mode, context.room))
}

// The children of a function with its options.
pub(crate) fn children(
    context: Context,
    frames: Vec<Frame>,
    function: Box<ScalarFnRef>,
    start: usize,
) -> Result<ExpressionStep, ParseError>
    ensures reads { ReadsUpTo context.entry.found.now.at step_of result (children_at (frames_of frames.items) context.entry.room (functions.function_of function.value) (lexeme_of context.entry.found.now.token)) }
{
    match &context.found.token {
        Token::Sign(Sign::OpenParen) => {
            open_children(
                context,
                frames,
                Callee::Any(Box::into_inner(function)),
                start,
            )
        }
        _ => Err(refusal(context.found, Expected::OpenParen)),
    }
}

// The first condition of a CASE.
pub(crate) fn case(context: Context, frames: Vec<Frame>) -> Result<ExpressionStep, ParseError>
    ensures reads { ReadsUpTo context.entry.found.now.at step_of result (case_at (frames_of frames.items) context.entry.room (lexeme_of context.entry.found.now.token) (keyword_at (lexeme_of context.entry.found.now.token))) }
{
    match keyword(&context.found.token) {
        Some(Keyword::When) => Ok(more(frames, Mode::Operand, context.room)),
        _ => Err(refusal(context.found, Expected::When)),
    }
}

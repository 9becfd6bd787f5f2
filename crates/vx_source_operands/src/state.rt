// How far an expression is read.
ghost use Rattle.std.specs.Prelude.{◌≡◌, ◌≤◌, ℕ, IfOk};
ghost use Rattle.vx_source_types.specs.declared.error.ParseError.TheVariants.{Unexpected};
ghost use Rattle.vx_source_types.specs.Reading.{more};
ghost use Rattle.vx_source_types.specs.TypeReading.{type_start};
ghost use Rattle.vx_source_grammar.specs.States.{expression_start, in_type, tight};
ghost use Rattle.vx_source_operands.specs.OperandViews.{frames_of, mode_of, operand_of, reader_of, step_of, type_for};

use crate::context::Context;
use crate::frame::{Bracket, Frame};
use crate::operand::Operand;
use std::alloc::{AllocError, Global};
use vx_dtype::FieldName;
use vx_fn::ScalarFnRef;
use vx_source_types::{Draft, Expected, Found, ParseError, TypeReader, ValueReader};

/// What a type is read for.
#[derive(Drop)]
pub enum TypeFor {
    /// A value that begins at that byte.
    Literal(Draft, usize),
    /// A cast of what stands before `::`.
    Cast(Operand),
    /// A cast between parentheses.
    CastCall(Operand, Bracket),
}

/// The options of a function, read so far.
#[derive(Drop)]
pub struct OptionsSoFar {
    /// The function's name, without `vortex.`.
    pub name: FieldName,
    /// The tokens of the options.
    pub tokens: Vec<Found>,
    /// How many square brackets are open in them.
    pub opened: usize,
    /// The nesting that is allowed in them.
    pub room: usize,
    /// The byte where the function begins.
    pub start: usize,
}

/// The names of a selection, read so far.
#[derive(Drop)]
pub struct SelectionSoFar {
    /// What fields are selected of.
    pub operand: Operand,
    /// Whether the names are left out, and not kept.
    pub excludes: bool,
    /// The names.
    pub names: Vec<FieldName>,
}

/// What is due next. What is large and rare lies behind a pointer, since this moves at each token.
#[derive(Drop)]
pub enum Mode {
    /// An operand.
    Operand,
    /// The first child of a call, or its end.
    FirstChild,
    /// An operand is there; a postfix may follow.
    Tight(Operand),
    /// An operand is there that no postfix and no comparison may follow.
    Loose(Operand),
    /// A word is there that begins and ends at these bytes: a field, or the name of a function.
    Word(FieldName, usize, usize),
    /// `vortex.` is there, from the first byte to the other.
    Vortex(FieldName, usize, usize),
    /// `vortex.` and a name, from the first byte to the other.
    Id(FieldName, FieldName, usize, usize),
    /// More options of a function, or the bracket behind them.
    Options(OptionsSoFar),
    /// The bracket before the children of the function, which begins at that byte.
    Children(Box<ScalarFnRef>, usize),
    /// A dot is there.
    Dot(Operand),
    /// A brace is there, behind an operand.
    Selection(Operand),
    /// The names of an exclusion, or the closing brace.
    Exclusion(Operand),
    /// Another name of a selection.
    SelectionName(SelectionSoFar),
    /// A comma behind a name of a selection, or the closing brace.
    SelectionNext(SelectionSoFar),
    /// The first name of a struct that is packed, or its end. The struct begins at that byte.
    FirstPacked(usize),
    /// The name of a child of a struct that is packed.
    Packed,
    /// The colon behind the name.
    PackedValue,
    /// A struct that is packed, but for a question mark, from the first byte to the other.
    PackEnd(Vec<FieldName>, Vec<Operand>, usize, usize),
    /// `not` behind an operand.
    NotLike(Operand),
    /// `in` behind an operand: the bracket around its items is due.
    In(Operand),
    /// `is` behind an operand.
    Is(Operand),
    /// `is not` behind an operand.
    IsNot(Operand),
    /// `case`: the first `when` is due.
    Case,
    /// A `+` with which an operand begins, at that byte: a number is due.
    Plus(usize),
    /// A `-` with which an operand begins, at that byte: what is taken from zero is due.
    Minus(usize),
    /// A value that begins at that byte and has ended at the other so far.
    Value(Box<ValueReader>, usize, usize),
    /// A type, the last token of which ended at that byte.
    Type(Box<TypeFor>, Box<TypeReader>, usize),
}

/// An expression that is being read.
#[derive(Drop)]
pub struct ExpressionReader {
    /// What is open, the innermost last.
    pub frames: Vec<Frame>,
    /// What is due.
    pub mode: Mode,
    /// How much more nesting is allowed inside.
    pub room: usize,
}

/// What a token makes of an expression that is being read.
#[derive(Drop)]
pub enum ExpressionStep {
    /// The token is a part of it.
    More(ExpressionReader),
    /// The expression has ended before the token.
    Done(Operand),
}

impl ExpressionReader {
    /// An expression of which nothing is read yet, with that much nesting allowed.
    pub fn new(alloc: Global, room: usize) -> ExpressionReader
        ensures { reader_of result ≡ expression_start room }
    {
        ExpressionReader {
            frames: Vec::new(alloc),
            mode: Mode::Operand,
            room,
        }
    }
}

/// The expression goes on.
pub fn more(frames: Vec<Frame>, mode: Mode, room: usize) -> ExpressionStep
    ensures { step_of result ≡ more (record { frames = frames_of frames.items; mode = mode_of mode; room = room }) }
{
    ExpressionStep::More(ExpressionReader { frames, mode, room })
}

/// An operand is there, and a postfix may follow.
pub fn tight(frames: Vec<Frame>, room: usize, operand: Operand) -> ExpressionStep
    ensures { step_of result ≡ more (record { frames = frames_of frames.items; mode = tight (operand_of operand); room = room }) }
{
    more(frames, Mode::Tight(operand), room)
}

/// A type is due behind the token, of which nothing is read yet.
pub fn type_due(
    context: Context,
    frames: Vec<Frame>,
    wanted: TypeFor,
) -> Result<ExpressionStep, AllocError>
    ensures { IfOk result (λ step. step_of step ≡ more (record { frames = frames_of frames.items; mode = in_type (type_for wanted) (type_start context.entry.room); room = context.entry.room })) }
{
    let Context { alloc, room, found } = context;
    let wanted = Box::new(alloc, wanted)?;
    let reader = Box::new(alloc, TypeReader::new(alloc, room))?;
    Ok(more(frames, Mode::Type(wanted, reader, found.end), room))
}

/// What began at that byte, which lies before the token, isn't what would have stood right.
pub fn begun_at(start: usize, found: &Found, expected: Expected) -> ParseError
    ensures { (place : ℕ) × (place ≤ found.now.at) × (result ≡ Unexpected place expected) }
{
    ParseError::Unexpected {
        at: start.min(found.at),
        expected,
    }
}

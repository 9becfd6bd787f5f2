// Types, read token by token. What is open lies on a list in the heap, so that no text makes the stack grow.
ghost use Rattle.std.specs.Prelude.{◌≡◌, IfOk, MatchResult, Ok};
ghost use Rattle.vx_dtype.specs.Views.{type_of};
ghost use Rattle.vx_source_types.specs.Views.{lexeme_of};
ghost use Rattle.vx_source_types.specs.declared.error.ParseError.TheVariants.{OutOfMemory};
ghost use Rattle.vx_source_types.specs.Names.{name_at};
ghost use Rattle.vx_source_types.specs.Reading.{ReadsAt, more};
ghost use Rattle.vx_source_types.specs.TypeReading as reading;
ghost use Rattle.vx_source_types.specs.TypeViews.{frames_of, frame_of, mode_of, fields_read, reader_of, step_of};

use crate::error::ParseError;
use crate::expectation::Expected;
use crate::first::Found;
use crate::names::field_name;
use crate::state::{expected, inside, refusal};
use crate::token::{Sign, Token};
use crate::type_parts::{
    parts_close, parts_open, precision_at, precision_ends, scale_at, unit_at, unit_ends, zone_at,
};
use crate::type_state::{FieldsSoFar, TypeFrame, TypeMode, TypeReader, TypeStep};
use crate::type_words::{TypeWord, type_word};
use std::alloc::{AllocError, Global};
use std::sync::Arc;
use vx_dtype::{DType, FieldName, FieldNames, Nullability, StructFields, TimestampType};

// What lies around what is due: what is open, and how many more brackets are allowed inside.
#[derive(Drop)]
pub(crate) struct Around {
    pub(crate) frames: Vec<TypeFrame>,
    pub(crate) room: usize,
}

impl TypeReader {
    /// A type of which nothing is read yet, with that many brackets allowed inside one another.
    pub fn new(alloc: Global, room: usize) -> TypeReader
        ensures { reader_of result ≡ reading.type_start room }
    {
        TypeReader {
            frames: Vec::new(alloc),
            mode: TypeMode::Begin,
            room,
        }
    }

    /// Reads a token.
    pub fn step(self, alloc: Global, found: &Found) -> Result<TypeStep, ParseError>
        ensures { ReadsAt found.now.at step_of result (reading.type_step (reader_of self) (lexeme_of found.now.token)) }
    {
        let TypeReader { frames, mode, room } = self;
        let around = Around { frames, room };
        match mode {
            TypeMode::Unmarked(dtype) => match &found.token {
                Token::Sign(Sign::Question) => {
                    let dtype = dtype.with_nullability(Nullability::Nullable);
                    Ok(more(around, TypeMode::Whole(dtype)))
                }
                _ => close(alloc, around, dtype, found),
            },
            TypeMode::Whole(dtype) => close(alloc, around, dtype, found),
            TypeMode::Begin => begin(alloc, around, found),
            TypeMode::ListOpens => opens(around, TypeFrame::List { room }, found),
            TypeMode::FixedSizeListOpens => {
                opens(around, TypeFrame::FixedSizeList { room }, found)
            }
            TypeMode::FirstField(fields) => first_field(alloc, around, fields, found),
            TypeMode::NextField(fields) => next_field(around, fields, found),
            TypeMode::FieldType(fields, name) => field_type(around, fields, name, found),
            TypeMode::DecimalOpens => parts_open(around, TypeMode::Precision, found),
            TypeMode::Precision => precision_at(around, found),
            TypeMode::PrecisionEnds(decimal) => precision_ends(around, decimal, found),
            TypeMode::Scale(decimal) => scale_at(around, decimal, found),
            TypeMode::ScaleCloses(decimal) => {
                parts_close(
                    around,
                    DType::Decimal(decimal, Nullability::NonNullable),
                    found,
                )
            }
            TypeMode::TimestampOpens => parts_open(around, TypeMode::Unit, found),
            TypeMode::Unit => unit_at(around, found),
            TypeMode::UnitEnds(unit) => unit_ends(around, unit, found),
            TypeMode::Zone(unit) => zone_at(alloc, around, unit, found),
            TypeMode::ZoneCloses(unit, zone) => {
                let zone = Some(zone);
                let timestamp = TimestampType { unit, zone };
                parts_close(
                    around,
                    DType::Timestamp(timestamp, Nullability::NonNullable),
                    found,
                )
            }
            TypeMode::LengthOpens(element) => length_opens(around, element, found),
            TypeMode::Length(element) => length_at(around, element, found),
            TypeMode::LengthCloses(element, size) => {
                length_closes(alloc, around, element, size, found)
            }
        }
    }
}

pub(crate) fn more(around: Around, mode: TypeMode) -> TypeStep
    ensures { step_of result ≡ more (record { frames = frames_of around.frames.items; mode = mode_of mode; room = around.room }) }
{
    let Around { frames, room } = around;
    TypeStep::More(TypeReader { frames, mode, room })
}

// The beginning of a type.
fn begin(alloc: Global, mut around: Around, found: &Found) -> Result<TypeStep, ParseError>
    ensures { ReadsAt found.now.at step_of result (reading.type_begins (frames_of around.frames.items) around.room (lexeme_of found.now.token)) }
{
    match &found.token {
        Token::Word(name) => match type_word(name) {
            TypeWord::Plain(dtype) => Ok(more(around, TypeMode::Unmarked(dtype))),
            TypeWord::List => Ok(more(around, TypeMode::ListOpens)),
            TypeWord::FixedSizeList => Ok(more(around, TypeMode::FixedSizeListOpens)),
            TypeWord::Decimal => Ok(more(around, TypeMode::DecimalOpens)),
            TypeWord::Timestamp => Ok(more(around, TypeMode::TimestampOpens)),
            TypeWord::None => Err(expected(found, Expected::TypeName)),
        },
        Token::Sign(Sign::OpenBrace) => {
            let less = inside(around.room, found)?;
            let fields = FieldsSoFar {
                names: Vec::new(alloc),
                types: Vec::new(alloc),
                room: around.room,
            };
            around.room = less;
            Ok(more(around, TypeMode::FirstField(fields)))
        }
        _ => Err(refusal(found, Expected::TypeName)),
    }
}

// The bracket before an element type.
fn opens(mut around: Around, frame: TypeFrame, found: &Found) -> Result<TypeStep, ParseError>
    ensures { ReadsAt found.now.at step_of result (reading.element_opens (frames_of around.frames.items) around.room (frame_of frame) (lexeme_of found.now.token)) }
{
    match &found.token {
        Token::Sign(Sign::OpenParen) => {
            around.room = inside(around.room, found)?;
            around.frames.push(frame)?;
            Ok(more(around, TypeMode::Begin))
        }
        _ => Err(refusal(found, Expected::OpenParen)),
    }
}

// What follows a whole type.
fn close(
    alloc: Global,
    mut around: Around,
    dtype: DType,
    found: &Found,
) -> Result<TypeStep, ParseError>
    ensures { ReadsAt found.now.at step_of result (reading.type_ends (frames_of around.frames.items) around.room (type_of dtype) (lexeme_of found.now.token)) }
{
    match around.frames.pop() {
        None => Ok(TypeStep::Done(dtype)),
        Some(TypeFrame::List { room }) => match &found.token {
            Token::Sign(Sign::CloseParen) => {
                let list = DType::List(Arc::new(alloc, dtype)?, Nullability::NonNullable);
                around.room = room;
                Ok(more(around, TypeMode::Unmarked(list)))
            }
            _ => Err(refusal(found, Expected::CloseParen)),
        },
        Some(TypeFrame::FixedSizeList { room }) => match &found.token {
            Token::Sign(Sign::CloseParen) => {
                around.room = room;
                Ok(more(around, TypeMode::LengthOpens(dtype)))
            }
            _ => Err(refusal(found, Expected::CloseParen)),
        },
        Some(TypeFrame::Struct(fields, name)) => {
            let fields = with_field(fields, name, dtype)?;
            close_field(alloc, around, fields, found)
        }
    }
}

// The fields with another.
fn with_field(fields: FieldsSoFar, name: FieldName, dtype: DType) -> Result<FieldsSoFar, AllocError>
    ensures { IfOk result (λ d. fields_read d ≡ reading.with_field (fields_read fields) name (type_of dtype)) }
{
    let FieldsSoFar {
        mut names,
        mut types,
        room,
    } = fields;
    names.push(name)?;
    types.push(dtype)?;
    Ok(FieldsSoFar { names, types, room })
}

// What follows the type of a field.
fn close_field(
    alloc: Global,
    around: Around,
    fields: FieldsSoFar,
    found: &Found,
) -> Result<TypeStep, ParseError>
    ensures { ReadsAt found.now.at step_of result (reading.field_ends (frames_of around.frames.items) around.room (fields_read fields) (lexeme_of found.now.token)) }
{
    match &found.token {
        Token::Sign(Sign::Comma) => Ok(more(around, TypeMode::NextField(fields))),
        Token::Sign(Sign::CloseBrace) => end_fields(alloc, around, fields),
        _ => Err(refusal(found, Expected::CommaOrCloseBrace)),
    }
}

// The struct of the fields.
fn end_fields(
    alloc: Global,
    mut around: Around,
    fields: FieldsSoFar,
) -> Result<TypeStep, ParseError>
    ensures { MatchResult result (λ s. reading.struct_ends (frames_of around.frames.items) (fields_read fields) ≡ Ok (step_of s)) (λ e. e ≡ OutOfMemory) }
{
    let FieldsSoFar { names, types, room } = fields;
    let Ok(names) = FieldNames::new(alloc, names) else {
        return Err(ParseError::OutOfMemory);
    };
    let Ok(fields) = StructFields::new(alloc, names, types) else {
        return Err(ParseError::OutOfMemory);
    };
    let dtype = DType::Struct(fields, Nullability::NonNullable);
    around.room = room;
    Ok(more(around, TypeMode::Unmarked(dtype)))
}

fn first_field(
    alloc: Global,
    around: Around,
    fields: FieldsSoFar,
    found: &Found,
) -> Result<TypeStep, ParseError>
    ensures { ReadsAt found.now.at step_of result (reading.first_field_at (frames_of around.frames.items) around.room (fields_read fields) (lexeme_of found.now.token)) }
{
    match &found.token {
        Token::Sign(Sign::CloseBrace) => end_fields(alloc, around, fields),
        _ => next_field(around, fields, found),
    }
}

// The name of a field.
fn next_field(around: Around, fields: FieldsSoFar, found: &Found) -> Result<TypeStep, ParseError>
    ensures { ReadsAt found.now.at step_of result (reading.field_named (frames_of around.frames.items) around.room (fields_read fields) (lexeme_of found.now.token) (name_at (lexeme_of found.now.token))) }
{
    match field_name(&found.token) {
        Some(name) => Ok(more(around, TypeMode::FieldType(fields, name.clone()?))),
        None => Err(refusal(found, Expected::Name)),
    }
}

// The sign before the type of a field.
fn field_type(
    mut around: Around,
    fields: FieldsSoFar,
    name: FieldName,
    found: &Found,
) -> Result<TypeStep, ParseError>
    ensures { ReadsAt found.now.at step_of result (reading.field_type_at (frames_of around.frames.items) around.room (fields_read fields) name (lexeme_of found.now.token)) }
{
    match &found.token {
        Token::Sign(Sign::Equal) => {
            around.frames.push(TypeFrame::Struct(fields, name))?;
            Ok(more(around, TypeMode::Begin))
        }
        _ => Err(refusal(found, Expected::FieldType)),
    }
}

fn length_opens(around: Around, element: DType, found: &Found) -> Result<TypeStep, ParseError>
    ensures { ReadsAt found.now.at step_of result (reading.length_opens_at (frames_of around.frames.items) around.room (type_of element) (lexeme_of found.now.token)) }
{
    match &found.token {
        Token::Sign(Sign::OpenBracket) => Ok(more(around, TypeMode::Length(element))),
        _ => Err(refusal(found, Expected::OpenBracket)),
    }
}

fn length_at(around: Around, element: DType, found: &Found) -> Result<TypeStep, ParseError>
    ensures { ReadsAt found.now.at step_of result (reading.length_read (frames_of around.frames.items) around.room (type_of element) (lexeme_of found.now.token) (reading.length_at (lexeme_of found.now.token))) }
{
    match length_of(&found.token) {
        Some(size) => Ok(more(around, TypeMode::LengthCloses(element, size))),
        None => Err(refusal(found, Expected::Length)),
    }
}

/// The length that the token is.
pub fn length_of(token: &Token) -> Option<u32>
    ensures { result ≡ reading.length_at (lexeme_of token.now) }
{
    let Token::Number {
        negative,
        magnitude,
        suffix,
    } = token
    else {
        return None;
    };
    if *negative || !suffix.as_str().is_empty() {
        return None;
    }
    u32::try_from((*magnitude)?).ok()
}

fn length_closes(
    alloc: Global,
    around: Around,
    element: DType,
    size: u32,
    found: &Found,
) -> Result<TypeStep, ParseError>
    ensures { ReadsAt found.now.at step_of result (reading.length_closes_at (frames_of around.frames.items) around.room (type_of element) size (lexeme_of found.now.token)) }
{
    match &found.token {
        Token::Sign(Sign::CloseBracket) => {
            let list = DType::FixedSizeList(
                Arc::new(alloc, element)?,
                size,
                Nullability::NonNullable,
            );
            Ok(more(around, TypeMode::Unmarked(list)))
        }
        _ => Err(refusal(found, Expected::CloseBracket)),
    }
}

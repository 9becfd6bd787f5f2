// Values, read token by token. What is open lies on a list in the heap, so that no text makes the stack grow.
ghost use Rattle.std.specs.Prelude.{◌≡◌, ◌∷◌, Ok, IfOk, option_map, string_bytes};
ghost use Rattle.vx_value.specs.Views.{value_of};
ghost use Rattle.vx_source_types.specs.Views.{lexeme_of};
ghost use Rattle.vx_source_types.specs.Names.{name_at};
ghost use Rattle.vx_source_types.specs.Reading.{ReadsAt, more};
ghost use Rattle.vx_source_types.specs.Tokens.{point};
ghost use Rattle.vx_source_types.specs.ValueReading as reading;
ghost use Rattle.vx_source_types.specs.ValueViews.{frames_of, items_read, mode_of, reader_of, step_of};

use crate::error::ParseError;
use crate::expectation::Expected;
use crate::first::Found;
use crate::names::{field_name, is_word};
use crate::point::is_whole;
use crate::state::{expected, inside, refusal};
use crate::token::{Sign, Token};
use crate::value_state::{Draft, ItemsSoFar, ValueFrame, ValueMode, ValueReader, ValueStep};
use std::alloc::{AllocError, Global};
use vx_dtype::FieldName;
use vx_value::Value;

// What lies around what is due: what is open, the names of structs so far, and how many more brackets are allowed inside.
#[derive(Drop)]
struct Around {
    frames: Vec<ValueFrame>,
    names: Vec<FieldName>,
    room: usize,
}

impl ValueReader {
    /// A value of which nothing is read yet, with that many brackets allowed inside one another.
    pub fn new(alloc: Global, room: usize) -> ValueReader
        ensures { reader_of result ≡ reading.value_start room }
    {
        ValueReader {
            frames: Vec::new(alloc),
            mode: ValueMode::Value,
            names: Vec::new(alloc),
            room,
        }
    }

    /// Reads a token.
    pub fn step(self, alloc: Global, found: &Found) -> Result<ValueStep, ParseError>
        ensures { ReadsAt found.now.at step_of result (reading.value_step (reader_of self) (lexeme_of found.now.token)) }
    {
        let ValueReader {
            frames,
            mode,
            names,
            room,
        } = self;
        let around = Around {
            frames,
            names,
            room,
        };
        match mode {
            ValueMode::Value => begin(alloc, around, found),
            ValueMode::FirstItem(items) => first_item(alloc, around, items, found),
            ValueMode::FirstField(items) => first_field(around, items, found),
            ValueMode::NextField(items) => next_field(around, items, found),
            ValueMode::FieldValue(items) => field_value(around, items, found),
            ValueMode::Whole(value) => close(around, value, found),
            ValueMode::Point(digits) => Ok(ValueStep::Done(Draft::Point(digits))),
        }
    }
}

fn more(around: Around, mode: ValueMode) -> ValueStep
    ensures { step_of result ≡ more (record { frames = frames_of around.frames.items; mode = mode_of mode; names = around.names.items; room = around.room }) }
{
    let Around {
        frames,
        names,
        room,
    } = around;
    ValueStep::More(ValueReader {
        frames,
        mode,
        names,
        room,
    })
}

// The beginning of a value.
fn begin(alloc: Global, mut around: Around, found: &Found) -> Result<ValueStep, ParseError>
    ensures { ReadsAt found.now.at step_of result (reading.value_begins (frames_of around.frames.items) around.names.items around.room (lexeme_of found.now.token)) }
{
    match &found.token {
        Token::Sign(Sign::OpenBracket) => {
            let items = no_items(alloc, around.room);
            around.room = inside(around.room, found)?;
            Ok(more(around, ValueMode::FirstItem(items)))
        }
        Token::Sign(Sign::OpenBrace) => {
            let items = no_items(alloc, around.room);
            around.room = inside(around.room, found)?;
            Ok(more(around, ValueMode::FirstField(items)))
        }
        Token::Point(digits) => begin_point(around, digits, found),
        _ => begin_simple(alloc, around, found),
    }
}

// A number with a point, which stands by itself.
fn begin_point(around: Around, digits: &String, found: &Found) -> Result<ValueStep, ParseError>
    ensures { ReadsAt found.now.at step_of result (reading.point_begins (frames_of around.frames.items) around.names.items around.room (string_bytes digits.now)) }
{
    if !around.frames.is_empty() {
        return Err(expected(found, point_lacking(digits.as_str())));
    }
    Ok(more(around, ValueMode::Point(digits.clone()?)))
}

// No item yet.
fn no_items(alloc: Global, room: usize) -> ItemsSoFar
    ensures { items_read result ≡ reading.no_items room }
{
    ItemsSoFar {
        items: Vec::new(alloc),
        room,
    }
}

// A value of one token.
fn begin_simple(alloc: Global, around: Around, found: &Found) -> Result<ValueStep, ParseError>
    ensures { ReadsAt found.now.at step_of result (reading.simple_begins (frames_of around.frames.items) around.names.items around.room (lexeme_of found.now.token) (reading.simple_value (lexeme_of found.now.token))) }
{
    match simple_value(alloc, &found.token)? {
        Some(value) => Ok(more(around, ValueMode::Whole(value))),
        None => Err(refusal(found, lacking(&found.token))),
    }
}

// What a token that is no value lacks.
fn lacking(token: &Token) -> Expected
    ensures { result ≡ reading.value_lacking (lexeme_of token.now) }
{
    match token {
        Token::Point(digits) => point_lacking(digits.as_str()),
        _ => Expected::Value,
    }
}

// What the text of a number lacks as a part of a value: a whole one is 2^64 or more.
fn point_lacking(digits: &str) -> Expected
    ensures { result ≡ reading.value_lacking (point digits.now) }
{
    if is_whole(digits) {
        Expected::Number
    } else {
        Expected::Value
    }
}

// The value that the token is.
fn simple_value(alloc: Global, token: &Token) -> Result<Option<Value>, AllocError>
    ensures { IfOk result (λ v. option_map value_of v ≡ reading.simple_value (lexeme_of token.now)) }
{
    match token {
        Token::Word(name) => Ok(word_value(name)),
        Token::Number {
            negative,
            magnitude,
            suffix,
        } => Ok(number_value(*negative, *magnitude, suffix)),
        Token::Text(text) => Ok(Some(Value::Utf8(text.clone()?))),
        Token::Octets(bytes) => Ok(Some(Value::Binary(bytes.to_vec(alloc)?))),
        _ => Ok(None),
    }
}

// The value of a number without a suffix.
fn number_value(negative: bool, magnitude: Option<u64>, suffix: &FieldName) -> Option<Value>
    ensures { option_map value_of result ≡ reading.number_value negative magnitude suffix.now }
{
    if !suffix.as_str().is_empty() {
        return None;
    }
    Some(Value::Int(signed(negative, magnitude?)))
}

// The number, below zero or not.
pub(crate) fn signed(negative: bool, magnitude: u64) -> i128
    ensures { result ≡ reading.signed negative magnitude }
{
    let n = i128::from(magnitude);
    if negative { -n } else { n }
}

// The value that the word is.
fn word_value(name: &FieldName) -> Option<Value>
    ensures { option_map value_of result ≡ reading.word_value name.now }
{
    if is_word(name, "null") {
        Some(Value::Null)
    } else if is_word(name, "true") {
        Some(Value::Bool(true))
    } else if is_word(name, "false") {
        Some(Value::Bool(false))
    } else {
        None
    }
}

// The first item of a list, or the end of an empty one.
fn first_item(
    alloc: Global,
    around: Around,
    items: ItemsSoFar,
    found: &Found,
) -> Result<ValueStep, ParseError>
    ensures { ReadsAt found.now.at step_of result (reading.first_item_at (frames_of around.frames.items) around.names.items around.room (items_read items) (lexeme_of found.now.token)) }
{
    match &found.token {
        Token::Sign(Sign::CloseBracket) => Ok(end_list(around, items)),
        _ => begin_item(alloc, around, items, found),
    }
}

// The beginning of an item.
fn begin_item(
    alloc: Global,
    mut around: Around,
    items: ItemsSoFar,
    found: &Found,
) -> Result<ValueStep, ParseError>
    ensures { ReadsAt found.now.at step_of result (reading.value_begins (reading.in_items (items_read items) ∷ frames_of around.frames.items) around.names.items around.room (lexeme_of found.now.token)) }
{
    around.frames.push(ValueFrame::List(items))?;
    begin(alloc, around, found)
}

// The list of the items.
fn end_list(mut around: Around, items: ItemsSoFar) -> ValueStep
    ensures { Ok (step_of result) ≡ reading.list_ends (frames_of around.frames.items) around.names.items (items_read items) }
{
    let ItemsSoFar { items, room } = items;
    around.room = room;
    more(around, ValueMode::Whole(Value::List(items)))
}

// The struct of the values.
fn end_struct(mut around: Around, items: ItemsSoFar) -> ValueStep
    ensures { Ok (step_of result) ≡ reading.row_ends (frames_of around.frames.items) around.names.items (items_read items) }
{
    let ItemsSoFar { items, room } = items;
    around.room = room;
    more(around, ValueMode::Whole(Value::Struct(items)))
}

// The first field of a struct, or the end of an empty one.
fn first_field(around: Around, items: ItemsSoFar, found: &Found) -> Result<ValueStep, ParseError>
    ensures { ReadsAt found.now.at step_of result (reading.first_named_at (frames_of around.frames.items) around.names.items around.room (items_read items) (lexeme_of found.now.token)) }
{
    match &found.token {
        Token::Sign(Sign::CloseBrace) => Ok(end_struct(around, items)),
        _ => next_field(around, items, found),
    }
}

// The name of a field.
fn next_field(mut around: Around, items: ItemsSoFar, found: &Found) -> Result<ValueStep, ParseError>
    ensures { ReadsAt found.now.at step_of result (reading.value_named (frames_of around.frames.items) around.names.items around.room (items_read items) (lexeme_of found.now.token) (name_at (lexeme_of found.now.token))) }
{
    match field_name(&found.token) {
        Some(name) => {
            around.names.push(name.clone()?)?;
            Ok(more(around, ValueMode::FieldValue(items)))
        }
        None => Err(refusal(found, Expected::Name)),
    }
}

// The sign before the value of a field.
fn field_value(
    mut around: Around,
    items: ItemsSoFar,
    found: &Found,
) -> Result<ValueStep, ParseError>
    ensures { ReadsAt found.now.at step_of result (reading.named_value_at (frames_of around.frames.items) around.names.items around.room (items_read items) (lexeme_of found.now.token)) }
{
    match &found.token {
        Token::Sign(Sign::Colon) => {
            around.frames.push(ValueFrame::Struct(items))?;
            Ok(more(around, ValueMode::Value))
        }
        _ => Err(refusal(found, Expected::FieldValue)),
    }
}

// What follows a whole value.
fn close(mut around: Around, value: Value, found: &Found) -> Result<ValueStep, ParseError>
    ensures { ReadsAt found.now.at step_of result (reading.value_ends (frames_of around.frames.items) around.names.items around.room (value_of value) (lexeme_of found.now.token)) }
{
    match around.frames.pop() {
        None => Ok(ValueStep::Done(Draft::Value(value, around.names))),
        Some(ValueFrame::List(items)) => {
            let items = with_item(items, value)?;
            close_item(around, items, found)
        }
        Some(ValueFrame::Struct(items)) => {
            let items = with_item(items, value)?;
            close_field(around, items, found)
        }
    }
}

// The items with another.
fn with_item(items: ItemsSoFar, value: Value) -> Result<ItemsSoFar, AllocError>
    ensures { IfOk result (λ d. items_read d ≡ reading.with_item (items_read items) (value_of value)) }
{
    let ItemsSoFar { mut items, room } = items;
    items.push(value)?;
    Ok(ItemsSoFar { items, room })
}

// What follows an item of a list.
fn close_item(mut around: Around, items: ItemsSoFar, found: &Found) -> Result<ValueStep, ParseError>
    ensures { ReadsAt found.now.at step_of result (reading.item_ends (frames_of around.frames.items) around.names.items around.room (items_read items) (lexeme_of found.now.token)) }
{
    match &found.token {
        Token::Sign(Sign::Comma) => {
            around.frames.push(ValueFrame::List(items))?;
            Ok(more(around, ValueMode::Value))
        }
        Token::Sign(Sign::CloseBracket) => Ok(end_list(around, items)),
        _ => Err(refusal(found, Expected::CommaOrCloseBracket)),
    }
}

// What follows the value of a field.
fn close_field(around: Around, items: ItemsSoFar, found: &Found) -> Result<ValueStep, ParseError>
    ensures { ReadsAt found.now.at step_of result (reading.named_ends (frames_of around.frames.items) around.names.items around.room (items_read items) (lexeme_of found.now.token)) }
{
    match &found.token {
        Token::Sign(Sign::Comma) => Ok(more(around, ValueMode::NextField(items))),
        Token::Sign(Sign::CloseBrace) => Ok(end_struct(around, items)),
        _ => Err(refusal(found, Expected::CommaOrCloseBrace)),
    }
}

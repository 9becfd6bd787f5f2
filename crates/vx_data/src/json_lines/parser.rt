// Records read as values of a type.
ghost use Rattle.std.specs.Prelude.{◌<◌, ◌≤◌, OnOk, length};

use crate::cells::{bytes_of, text_of, whole_of};
use crate::error::DataError;
use crate::expected::Expected;
use crate::fault::{Fault, misfit};
use crate::json_lines::draft::{Draft, named, place_of};
use crate::json_lines::format::JsonFormat;
use crate::json_lines::tokens::{DEPTH, end, next_name, no_json, reader_of, skip};
use crate::numbers::{float_value, number_counted, number_said, number_value};
use crate::other_fields::OtherFields;
use json::{Reader, Scratch, Token};
use std::alloc::Global;
use vx_dtype::{DType, StructFields};
use vx_value::Value;

/// Reads records as values. It keeps the memory that texts with escapes need.
#[derive(Drop)]
pub struct JsonParser {
    reading: Reading,
    scratch: Scratch,
}

// How values are read.
#[derive(Clone, Copy, Drop)]
struct Reading {
    alloc: Global,
    // Whether a number is its text where a text is expected.
    number_texts: bool,
    others: OtherFields,
}

impl JsonParser {
    /// A parser that read nothing yet. Takes no memory.
    pub fn new(alloc: Global) -> JsonParser {
        JsonParser::with_format(alloc, JsonFormat::default())
    }

    /// The same of records of that format: where it says so, a number is its text, as it is written, where a text is
    /// expected.
    pub fn with_format(alloc: Global, format: JsonFormat) -> JsonParser {
        JsonParser::with_others(alloc, format, OtherFields::Refused)
    }

    /// The same, where that becomes of fields whose names are none of the type.
    pub fn with_others(alloc: Global, format: JsonFormat, others: OtherFields) -> JsonParser {
        let reading = Reading {
            alloc,
            number_texts: format.number_texts,
            others,
        };
        JsonParser {
            reading,
            scratch: Scratch::new(alloc),
        }
    }

    /// The value of that type that the record on that line is: null, true, false, whole numbers of the type's range,
    /// floating-point numbers as numbers or as texts of such, of which the nearest of the format is read, or as the texts
    /// `nan`, `inf`, `-inf`, or `0x` and the digits of their bits, decimals as numbers without an exponent or as texts of such,
    /// days and instants as texts (`2024-01-31`, `2024-01-31T10:15:30.25Z`, without the `Z` where the type has no zone) or as
    /// whole numbers of days or units since 1970,
    /// texts, bytes as texts of `0x` and two digits each, lists as arrays, structs as objects, whose fields may come in
    /// any order, and be absent where they are nullable. Digits of a decimal beyond its scale, and of a second beyond the unit,
    /// are zeros. Refuses with the line, the path of the field, and what is
    /// expected there, and with `OutOfMemory`. Time is linear in the record; nesting is the type's.
    pub fn parse(&mut self, dtype: &DType, line: u64, record: &[u8]) -> Result<Value, DataError> {
        match record_value(self.reading, dtype, record, &mut self.scratch) {
            Ok(value) => Ok(value),
            Err(fault) => Err(fault.on_line(self.reading.alloc, line)),
        }
    }
}

fn record_value(
    reading: Reading,
    dtype: &DType,
    record: &[u8],
    scratch: &mut Scratch,
) -> Result<Value, Fault> {
    let mut reader = reader_of(reading.alloc, record, scratch)?;
    let value = read_value(reading, dtype, &mut reader)?;
    end(reading.alloc, &mut reader)?;
    Ok(value)
}

// The next value, of that type.
#[cycle(read)]
fn read_value(reading: Reading, dtype: &DType, reader: &mut Reader<'_>) -> Result<Value, Fault>
    ensures { OnOk result (length reader.new < length reader.old) }
{
    match reader.next() {
        Some(Token::BeginArray) => read_array(reading, dtype, reader),
        Some(Token::BeginObject) => read_object(reading, dtype, reader),
        Some(Token::Key(_) | Token::EndArray | Token::EndObject | Token::Bad) | None => {
            Err(no_json(reading.alloc, reader))
        }
        Some(token) => flat_value(reading, dtype, token),
    }
}

// The value of that one token, of that type.
fn flat_value(reading: Reading, dtype: &DType, token: Token<'_>) -> Result<Value, Fault> {
    let alloc = reading.alloc;
    match (dtype, token) {
        (_, Token::Null) => null_value(alloc, dtype),
        (DType::Bool(_), Token::Bool(truth)) => Ok(Value::Bool(truth)),
        (DType::Primitive(ptype, _), Token::Number(text)) => match whole_of(text, *ptype) {
            Some(number) => Ok(Value::Int(number)),
            None => Err(mismatch(alloc, dtype)),
        },
        (DType::Float(format, nullability), Token::Number(text) | Token::String(text)) => {
            float_value(alloc, text, *format, *nullability)
        }
        (DType::Utf8(_), Token::String(text)) => text_of(alloc, text),
        (DType::Utf8(_), Token::Number(text)) if reading.number_texts => text_of(alloc, text),
        (DType::Binary(_), Token::String(text)) => bytes_of(alloc, text),
        (DType::Decimal(_, _) | DType::Date(_) | DType::Timestamp(_, _), Token::String(text)) => {
            number_value(alloc, number_said(text, dtype), text, dtype)
        }
        (DType::Decimal(_, _) | DType::Date(_) | DType::Timestamp(_, _), Token::Number(text)) => {
            number_value(alloc, number_counted(text, dtype), text, dtype)
        }
        _ => Err(mismatch(alloc, dtype)),
    }
}

fn null_value(alloc: Global, dtype: &DType) -> Result<Value, Fault> {
    if dtype.is_nullable() {
        Ok(Value::Null)
    } else {
        Err(Fault::new(alloc, Expected::NotNull))
    }
}

// What stands there is no value of the type.
fn mismatch(alloc: Global, dtype: &DType) -> Fault {
    let expected = match dtype {
        DType::Bool(_) => Expected::Truth,
        DType::Primitive(ptype, _) => Expected::Whole(*ptype),
        DType::Utf8(_) => Expected::Text,
        DType::Binary(_) => Expected::Bytes,
        DType::List(_, _) => Expected::List,
        DType::FixedSizeList(_, size, _) => Expected::Items(*size),
        DType::Struct(_, _) => Expected::Struct,
        DType::Float(_, _) | DType::Decimal(_, _) | DType::Date(_) | DType::Timestamp(_, _) => {
            return misfit(alloc, dtype);
        }
    };
    Fault::new(alloc, expected)
}

// The rest of an array, of that type.
#[cycle(read)]
fn read_array(reading: Reading, dtype: &DType, reader: &mut Reader<'_>) -> Result<Value, Fault>
    ensures { OnOk result (length reader.new ≤ length reader.old) }
{
    match dtype {
        DType::List(element, _) => read_items(reading, element.as_ref(), reader),
        DType::FixedSizeList(element, size, _) => {
            let items = read_items(reading, element.as_ref(), reader)?;
            if has_items(&items, *size) {
                Ok(items)
            } else {
                Err(mismatch(reading.alloc, dtype))
            }
        }
        _ => Err(mismatch(reading.alloc, dtype)),
    }
}

fn has_items(list: &Value, size: u32) -> bool {
    match list {
        Value::List(items) => items.len() == size as usize,
        _ => false,
    }
}

// The rest of an array, of items of that type.
#[cycle(read)]
fn read_items(reading: Reading, element: &DType, reader: &mut Reader<'_>) -> Result<Value, Fault>
    ensures { OnOk result (length reader.new ≤ length reader.old) }
{
    let mut items = Vec::new(reading.alloc);
    'items: while !reader.take_end_array() {
        items.push(read_value(reading, element, reader)?)?;
    }
    Ok(Value::List(items))
}

// The rest of an object, of that type.
#[cycle(read)]
fn read_object(reading: Reading, dtype: &DType, reader: &mut Reader<'_>) -> Result<Value, Fault>
    ensures { OnOk result (length reader.new ≤ length reader.old) }
{
    match dtype {
        DType::Struct(fields, _) => Ok(Value::Struct(read_fields(reading, fields, reader)?)),
        _ => Err(mismatch(reading.alloc, dtype)),
    }
}

// The rest of an object of those fields, which may come in any order.
#[cycle(read)]
fn read_fields(
    reading: Reading,
    fields: &StructFields,
    reader: &mut Reader<'_>,
) -> Result<Vec<Value>, Fault>
    ensures { OnOk result (length reader.new ≤ length reader.old) }
{
    let alloc = reading.alloc;
    let mut draft = Draft::new(alloc, fields.nfields())?;
    let mut next = 0;
    'fields: while let Some(name) = next_name(alloc, reader)? {
        match place_of(alloc, fields.names(), name, next)? {
            Some(i) => {
                read_field(reading, fields, i, &mut draft, reader)?;
                next = i.saturating_add(1);
            }
            None => read_other(reading, name, reader)?,
        }
    }
    draft.finish(alloc, fields)
}

// Passes over the value of a field of that name, which the type doesn't have, if that may be.
fn read_other(reading: Reading, name: &str, reader: &mut Reader<'_>) -> Result<(), Fault>
    ensures { OnOk result (length reader.new ≤ length reader.old) }
{
    let alloc = reading.alloc;
    match reading.others {
        OtherFields::Refused => Err(Fault::new(alloc, Expected::Field).within(&named(
            alloc, name,
        )?)),
        OtherFields::PassedOver => skip(alloc, DEPTH, reader),
    }
}

// The value of the field of that index.
#[cycle(read)]
fn read_field(
    reading: Reading,
    fields: &StructFields,
    i: usize,
    draft: &mut Draft,
    reader: &mut Reader<'_>,
) -> Result<(), Fault>
    ensures { OnOk result (length reader.new ≤ length reader.old) }
{
    let types = fields.types();
    let names = fields.names().as_slice();
    if i >= fields.nfields() {
        return Ok(());
    }
    if draft.has(i) {
        return Err(Fault::new(reading.alloc, Expected::Once).within(&names[i]));
    }
    match read_value(reading, &types[i], reader) {
        Ok(value) => {
            draft.put(i, value);
            Ok(())
        }
        Err(fault) => Err(fault.within(&names[i])),
    }
}

// Values written in a notation.
ghost use Rattle.std.specs.Prelude.{◌≡◌, ◌++◌, codes};
ghost use Rattle.std.specs.Fmt.{WritesOnOk};
ghost use Rattle.std.specs.List.{flat_map};
ghost use Rattle.vx_value.specs.Notations.{number_in, float_in, quoted_in, value_in, list_in, items_in, row_in, struct_in};
ghost use Rattle.vx_value.specs.Texts.{with_commas};
ghost use Rattle.vx_value.specs.ValueTexts.{hex_byte};
ghost use Rattle.vx_value.specs.Views.{type_of, fields_of, value_of, data_view};

use crate::Value;
use std::fmt;
use std::fmt::{Formatter, Write};
use vx_dtype::{DType, FieldName, StructFields, TypeNotation, separator};
use vx_floats::Float;

/// What differs between notations of values, which [`write_value_in`] writes: numbers, texts, and
/// the names of fields. None of these calls takes memory.
pub trait ValueNotation: TypeNotation {
    ghost use Rattle.vx_value.specs.Notations.{ValueWords};

    ghost words: { ValueWords };

    /// Writes a number of the type.
    fn write_number<W: Write>(&self, number: i128, t: &DType, f: &mut Formatter<W>) -> fmt::Result
        ensures { WritesOnOk W.write_str_gives f.old result (number_in words number (type_of t.now)) f.new };

    /// Writes a floating-point number of the type.
    fn write_float<W: Write>(&self, x: Float, t: &DType, f: &mut Formatter<W>) -> fmt::Result
        ensures { WritesOnOk W.write_str_gives f.old result (float_in words x (type_of t.now)) f.new };

    /// Writes a text.
    fn write_text<W: Write>(&self, text: &str, f: &mut Formatter<W>) -> fmt::Result
        ensures { WritesOnOk W.write_str_gives f.old result (quoted_in words text.now) f.new };
}

/// Writes the value, which is read by its type, in the notation. Takes no memory.
#[cycle(write)]
pub fn write_value_in<N: ValueNotation, W: Write>(
    notation: &N,
    value: &Value,
    t: &DType,
    f: &mut Formatter<W>,
) -> fmt::Result
    ensures { WritesOnOk W.write_str_gives f.old result (value_in N.named N.words (value_of value.now) (type_of t.now)) f.new }
{
    match value {
        Value::Null => f.write_str("null"),
        Value::Bool(b) => f.write_str(if *b { "true" } else { "false" }),
        Value::Int(number) => notation.write_number(*number, t, f),
        Value::Float(x) => notation.write_float(*x, t, f),
        Value::Utf8(text) => notation.write_text(text.as_str(), f),
        Value::Binary(bytes) => {
            f.write_str("0x")?;
            write_bytes(bytes.as_slice(), f)
        }
        Value::List(items) => match t.as_any_size_list_element_opt() {
            Some(element) => write_list_in(notation, items.as_slice(), element, f),
            None => Ok(()),
        },
        Value::Struct(items) => match t.as_struct_fields_opt() {
            Some(fields) => write_struct_in(notation, items.as_slice(), fields, f),
            None => Ok(()),
        },
    }
}

// Writes the values of a struct, each after its field's name, between braces.
#[cycle(write)]
fn write_struct_in<N: ValueNotation, W: Write>(
    notation: &N,
    values: &[Value],
    fields: &StructFields,
    f: &mut Formatter<W>,
) -> fmt::Result
    ensures { WritesOnOk W.write_str_gives f.old result (struct_in N.named N.words (data_view values.now) (fields_of fields.now)) f.new }
{
    f.write_str("{")?;
    write_row(notation, values, fields, f)?;
    f.write_str("}")
}

// Writes the bytes, two digits each.
fn write_bytes<W: Write>(bytes: &[u8], f: &mut Formatter<W>) -> fmt::Result
    ensures { WritesOnOk W.write_str_gives f.old result (flat_map hex_byte bytes.now) f.new }
{
    for b in bytes {
        write_byte(*b, f)?;
    }
    Ok(())
}

// Writes a byte by its two digits.
fn write_byte<W: Write>(b: u8, f: &mut Formatter<W>) -> fmt::Result
    ensures { WritesOnOk W.write_str_gives f.old result (hex_byte b) f.new }
{
    write!(f, "{b:02x}")
}

// Writes the values with a comma between them, between brackets.
#[cycle(write)]
pub(crate) fn write_list_in<N: ValueNotation, W: Write>(
    notation: &N,
    values: &[Value],
    t: &DType,
    f: &mut Formatter<W>,
) -> fmt::Result
    ensures { WritesOnOk W.write_str_gives f.old result (list_in N.named N.words (data_view values.now) (type_of t.now)) f.new }
{
    f.write_str("[")?;
    write_items(notation, values, t, f)?;
    f.write_str("]")
}

// Writes the values with a comma between them.
#[cycle(write)]
fn write_items<N: ValueNotation, W: Write>(
    notation: &N,
    values: &[Value],
    t: &DType,
    f: &mut Formatter<W>,
) -> fmt::Result
    ensures { WritesOnOk W.write_str_gives f.old result (with_commas (items_in N.named N.words (data_view values.now) (type_of t.now))) f.new }
{
    for i in 0..values.len() {
        f.write_str(separator(i))?;
        write_value_in(notation, &values[i], t, f)?;
    }
    Ok(())
}

// Writes the values of a struct, each after its field's name, with a comma between them.
#[cycle(write)]
fn write_row<N: ValueNotation, W: Write>(
    notation: &N,
    values: &[Value],
    fields: &StructFields,
    f: &mut Formatter<W>,
) -> fmt::Result
    ensures { WritesOnOk W.write_str_gives f.old result (with_commas (row_in N.named N.words (data_view values.now) (fields_of fields.now))) f.new }
{
    let names = fields.names().as_slice();
    let types = fields.types();
    for i in 0..values.len().min(fields.nfields()) {
        f.write_str(separator(i))?;
        write_named(notation, &names[i], &values[i], &types[i], f)?;
    }
    Ok(())
}

// Writes the value after its field's name.
#[cycle(write)]
fn write_named<N: ValueNotation, W: Write>(
    notation: &N,
    name: &FieldName,
    value: &Value,
    t: &DType,
    f: &mut Formatter<W>,
) -> fmt::Result
    ensures { WritesOnOk W.write_str_gives f.old result (N.named name.now ++ (codes ": " ++ value_in N.named N.words (value_of value.now) (type_of t.now))) f.new }
{
    notation.write_name(name, f)?;
    f.write_str(": ")?;
    write_value_in(notation, value, t, f)
}

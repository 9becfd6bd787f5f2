// Rows written as the texts of values, straight from their buffers.
ghost use Rattle.std.specs.Prelude.{◌≡◌, ◌++◌, codes, get_or, map};
ghost use Rattle.std.proofs.Math.ListN.{replicate};
ghost use Rattle.std.specs.Fmt.{WritesOnOk};
ghost use Rattle.std.specs.List.{flat_map};
ghost use Rattle.vx_value.specs.Fields.{data_of};
ghost use Rattle.vx_value.specs.StructColumns.{row_at, struct_at};
ghost use Rattle.vx_value.specs.Texts.{with_commas};
ghost use Rattle.vx_value.specs.Types.{bytes, null};
ghost use Rattle.vx_value.specs.ValueTexts.{column_text, hex_byte, item_texts, row_texts, value_text};
ghost use Rattle.vx_value.specs.Views.{fields_of, type_of, value_of};
ghost use Rattle.vx_array.specs.Kinds.{spans_in, text_row};
ghost use Rattle.vx_array.specs.Rows.{lanes_each, lanes_rows, structs_from};
ghost use Rattle.vx_array.specs.Shown.{shown};

use crate::values::{float_at, has_row, number_at, truth_at};
use crate::{Lanes, Spans, Stretch, Validity};
use std::fmt;
use std::fmt::{Formatter, Write};
use vx_dtype::{DType, FieldName, Shown, StructFields, TypeNotation, separator};
use vx_value::{Value, ValueNotation, write_value_in};

// Writes the rows with a comma between them, between brackets. Takes no memory.
pub(crate) fn write_rows<W: Write>(lanes: &Lanes, t: &DType, f: &mut Formatter<W>) -> fmt::Result
    ensures { WritesOnOk W.write_str_gives f.old result (column_text (lanes_rows lanes.now) (type_of t.now)) f.new }
{
    f.write_str("[")?;
    write_each(lanes, t, f)?;
    f.write_str("]")
}

// Writes the rows with a comma between them.
fn write_each<W: Write>(lanes: &Lanes, t: &DType, f: &mut Formatter<W>) -> fmt::Result
    ensures { WritesOnOk W.write_str_gives f.old result (with_commas (item_texts (data_of (lanes_rows lanes.now)) (type_of t.now))) f.new }
{
    for i in 0..lanes.len() {
        f.write_str(separator(i))?;
        write_row(lanes, i, t, f)?;
    }
    Ok(())
}

// Writes the value of that row, null where there is no such row.
#[cycle(texts)]
fn write_row<W: Write>(lanes: &Lanes, i: usize, t: &DType, f: &mut Formatter<W>) -> fmt::Result
    ensures { WritesOnOk W.write_str_gives f.old result (value_text (get_or (lanes_rows lanes.now) i null) (type_of t.now)) f.new }
{
    match lanes {
        Lanes::Same(value, count) => write_same(value.as_ref(), *count, i, t, f),
        Lanes::Values(values) => write_boxed(values.as_slice(), i, t, f),
        Lanes::Bools(values, validity) => write_value(&truth_at(values, validity, i), t, f),
        Lanes::Numbers(values, validity) => write_value(&number_at(values, validity, i), t, f),
        Lanes::Floats(values, validity) => write_value(&float_at(values, validity, i), t, f),
        Lanes::Texts(values, validity) => write_text_row(values, validity, i, t, f),
        Lanes::Octets(values, validity) => write_octets_row(values, validity, i, t, f),
        Lanes::Structs(fields, stretch, validity) => {
            write_struct_row(fields.as_slice(), *stretch, validity, i, t, f)
        }
    }
}

// Writes the one value of so many rows.
fn write_same<W: Write>(
    value: &Value,
    count: usize,
    i: usize,
    t: &DType,
    f: &mut Formatter<W>,
) -> fmt::Result
    ensures { WritesOnOk W.write_str_gives f.old result (value_text (get_or (replicate count (value_of value.now)) i null) (type_of t.now)) f.new }
{
    if i < count {
        return write_value(value, t, f);
    }
    f.write_str("null")
}

// Writes the value at that place.
fn write_boxed<W: Write>(values: &[Value], i: usize, t: &DType, f: &mut Formatter<W>) -> fmt::Result
    ensures { WritesOnOk W.write_str_gives f.old result (value_text (get_or (map value_of values.now) i null) (type_of t.now)) f.new }
{
    match values.get(i) {
        Some(value) => write_value(value, t, f),
        None => f.write_str("null"),
    }
}

// Writes the text at that place, where it is valid.
fn write_text_row<W: Write>(
    spans: &Spans,
    validity: &Validity,
    i: usize,
    t: &DType,
    f: &mut Formatter<W>,
) -> fmt::Result
    ensures { WritesOnOk W.write_str_gives f.old result (value_text (get_or (shown validity.now (map text_row (spans_in spans.now))) i null) (type_of t.now)) f.new }
{
    if has_row(validity, spans.len(), i) {
        return write_text(spans.span(i), t, f);
    }
    f.write_str("null")
}

// Writes the bytes at that place, where they are valid.
fn write_octets_row<W: Write>(
    spans: &Spans,
    validity: &Validity,
    i: usize,
    t: &DType,
    f: &mut Formatter<W>,
) -> fmt::Result
    ensures { WritesOnOk W.write_str_gives f.old result (value_text (get_or (shown validity.now (map bytes (spans_in spans.now))) i null) (type_of t.now)) f.new }
{
    if has_row(validity, spans.len(), i) {
        return write_octets(spans.span(i), t, f);
    }
    f.write_str("null")
}

// Writes the value, which is read by its type.
fn write_value<W: Write>(value: &Value, t: &DType, f: &mut Formatter<W>) -> fmt::Result
    ensures { WritesOnOk W.write_str_gives f.old result (value_text (value_of value.now) (type_of t.now)) f.new }
{
    write_value_in(&Shown, value, t, f)
}

// Writes the text of these bytes, null where they are none. A text is written so whatever the type.
fn write_text<W: Write>(text: &[u8], t: &DType, f: &mut Formatter<W>) -> fmt::Result
    ensures { WritesOnOk W.write_str_gives f.old result (value_text (text_row text.now) (type_of t.now)) f.new }
{
    match str::from_utf8(text) {
        Ok(text) => Shown.write_text(text, f),
        Err(_) => f.write_str("null"),
    }
}

// Writes the bytes, two digits each. They are written so whatever the type.
fn write_octets<W: Write>(octets: &[u8], t: &DType, f: &mut Formatter<W>) -> fmt::Result
    ensures { WritesOnOk W.write_str_gives f.old result (value_text (bytes octets.now) (type_of t.now)) f.new }
{
    f.write_str("0x")?;
    write_digits(octets, f)
}

// Writes two digits a byte.
fn write_digits<W: Write>(octets: &[u8], f: &mut Formatter<W>) -> fmt::Result
    ensures { WritesOnOk W.write_str_gives f.old result (flat_map hex_byte octets.now) f.new }
{
    for b in octets {
        write_byte(*b, f)?;
    }
    Ok(())
}

// Writes a byte by its two digits.
fn write_byte<W: Write>(b: u8, f: &mut Formatter<W>) -> fmt::Result
    ensures { WritesOnOk W.write_str_gives f.old result (hex_byte b) f.new }
{
    write!(f, "{b:02x}")
}

// Writes the struct at that place of the stretch, where it is valid.
#[cycle(texts)]
fn write_struct_row<W: Write>(
    lanes: &[Lanes],
    stretch: Stretch,
    validity: &Validity,
    i: usize,
    t: &DType,
    f: &mut Formatter<W>,
) -> fmt::Result
    ensures { WritesOnOk W.write_str_gives f.old result (value_text (get_or (shown validity.now (structs_from stretch.from stretch.len (lanes_each lanes.now))) i null) (type_of t.now)) f.new }
{
    if has_row(validity, stretch.len, i) {
        return write_struct(lanes, stretch.from + i, t, f);
    }
    f.write_str("null")
}

// Writes the struct of that row of the lanes.
#[cycle(texts)]
fn write_struct<W: Write>(
    lanes: &[Lanes],
    row: usize,
    t: &DType,
    f: &mut Formatter<W>,
) -> fmt::Result
    ensures { WritesOnOk W.write_str_gives f.old result (value_text (struct_at (lanes_each lanes.now) row) (type_of t.now)) f.new }
{
    match t {
        DType::Struct(fields, _) => {
            f.write_str("{")?;
            write_fields(lanes, row, fields, f)?;
            f.write_str("}")
        }
        _ => Ok(()),
    }
}

// Writes that row of each of the lanes after its field's name, with a comma between them.
#[cycle(texts)]
fn write_fields<W: Write>(
    lanes: &[Lanes],
    row: usize,
    fields: &StructFields,
    f: &mut Formatter<W>,
) -> fmt::Result
    ensures { WritesOnOk W.write_str_gives f.old result (with_commas (row_texts (data_of (row_at row (lanes_each lanes.now))) (fields_of fields.now))) f.new }
{
    let names = fields.names().as_slice();
    let types = fields.types();
    for i in 0..lanes.len().min(fields.nfields()) {
        f.write_str(separator(i))?;
        write_named(&names[i], &lanes[i], row, &types[i], f)?;
    }
    Ok(())
}

// Writes that row of the lanes after its field's name.
#[cycle(texts)]
fn write_named<W: Write>(
    name: &FieldName,
    lanes: &Lanes,
    row: usize,
    t: &DType,
    f: &mut Formatter<W>,
) -> fmt::Result
    ensures { WritesOnOk W.write_str_gives f.old result (name.now ++ (codes ": " ++ value_text (get_or (lanes_rows lanes.now) row null) (type_of t.now))) f.new }
{
    Shown.write_name(name, f)?;
    f.write_str(": ")?;
    write_row(lanes, row, t, f)
}

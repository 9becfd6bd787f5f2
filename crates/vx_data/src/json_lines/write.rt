// Rows written as JSON lines.
ghost use Rattle.std.specs.Prelude.{◌≡◌, ◌==◌, ◌++◌, ◌∷◌, [], IfOk, OnOk};
ghost use Rattle.std.specs.Fmt.{signed_decimal};
ghost use Rattle.std.specs.Io.KnownBytes.{Appends};
ghost use Rattle.std.specs.List.{list_any};
ghost use Rattle.json.specs.Token.{begin_array, begin_object, end_array, end_object, number};
ghost use Rattle.vx_value.specs.Types.{list_of, struct_of};
ghost use Rattle.vx_value.specs.Views.{data_view, fields_of, type_of, value_of};
ghost use Rattle.vx_data.specs.Lines.{field_tokens, float_token, item_tokens, json_line, json_lines, number_token, value_tokens};

use crate::cells::hex_text;
use crate::error::WriteError;
use crate::expected::Expected;
use crate::fault::Fault;
use crate::json_lines::distinct::check_names;
use crate::numbers::{float_text, is_dated, number_text};
use json::Writer;
use std::alloc::Global;
use std::io::Write;
use vx_dtype::{DType, StructFields};
use vx_floats::Float;
use vx_value::{Column, Value};

// Lines are handed to the writer so many bytes at a time.
const BLOCK: usize = 65_536;

/// Writes each row as a line of JSON, which is read back as that row by the column's type: a floating-point number as a number
/// with as few digits behind its point as tell it, or as a text (`nan`, `inf`, `-inf`, and `0x` with its bits where it is very
/// large or very small), a decimal as a number with all places of its scale, a day and an instant as a text, or as its number
/// outside the years 1 to 9999, bytes as `0x` and their digits, and each field of a struct under its name, also where it is
/// null. Refuses a type with a struct of which two fields have one name, as row 0 and with the path, before anything is
/// written; and with the writer's error and with `OutOfMemory`. Time is linear in the column.
pub fn write_json_lines<W: Write>(
    alloc: Global,
    column: &Column,
    writer: &mut W,
) -> Result<(), WriteError>
    ensures { OnOk result (Appends (W.contents writer.old) (W.contents writer.new) (json_lines column.now.type column.now.rows)) }
{
    if let Err(fault) = check_names(alloc, column.dtype()) {
        return Err(fault.in_row(alloc, 0));
    }
    let mut lines = Vec::new(alloc);
    for (row, value) in column.rows().iter().enumerate() {
        lines = match with_line(alloc, lines, column.dtype(), value) {
            Ok(lines) => lines,
            Err(fault) => return Err(fault.in_row(alloc, row)),
        };
        if lines.len() >= BLOCK {
            writer.write_all(lines.as_slice())?;
            lines.clear();
        }
    }
    writer.write_all(lines.as_slice())?;
    Ok(())
}

// The lines, and behind them one of that value.
fn with_line(alloc: Global, lines: Vec<u8>, dtype: &DType, value: &Value) -> Result<Vec<u8>, Fault>
    ensures { IfOk result (λ after. after.items ≡ lines.items ++ json_line (type_of dtype.now) (value_of value.now)) }
{
    let mut writer = Writer::new(lines);
    write_value(value, dtype, alloc, &mut writer)?;
    let mut lines = writer.into_inner();
    lines.push(b'\n')?;
    Ok(lines)
}

#[cycle(write)]
fn write_value(
    value: &Value,
    dtype: &DType,
    alloc: Global,
    writer: &mut Writer,
) -> Result<(), Fault>
    ensures before { writer.new.before ≡ writer.old.before }
    ensures tokens { OnOk result (writer.new.tokens ≡ writer.old.tokens ++ value_tokens (value_of value.now) (type_of dtype.now)) }
{
    match value {
        Value::Null => Ok(writer.null()?),
        Value::Bool(truth) => Ok(writer.boolean(*truth)?),
        Value::Int(number) => write_number(*number, dtype, alloc, writer),
        Value::Float(number) => write_float(*number, alloc, writer),
        Value::Utf8(text) => Ok(writer.string(text.as_str())?),
        Value::Binary(bytes) => Ok(writer.string(hex_text(alloc, bytes.as_slice())?.as_str())?),
        Value::List(items) => write_list(items.as_slice(), dtype, alloc, writer),
        Value::Struct(values) => write_struct(values.as_slice(), dtype, alloc, writer),
    }
}

fn write_number(
    number: i128,
    dtype: &DType,
    alloc: Global,
    writer: &mut Writer,
) -> Result<(), Fault>
    ensures before { writer.new.before ≡ writer.old.before }
    ensures tokens { OnOk result (writer.new.tokens ≡ writer.old.tokens ++ number_token number (type_of dtype.now) ∷ []) }
{
    if is_dated(number, dtype) {
        return Ok(writer.string(number_text(alloc, number, dtype)?.as_str())?);
    }
    match dtype {
        DType::Decimal(_, _) => Ok(writer.number(number_text(alloc, number, dtype)?.as_str())?),
        _ => write_whole(alloc, number, writer),
    }
}

// Writes a number with a point as a number, and what has none as a text: NaN, an infinity, and a number by its bits.
fn write_float(float: Float, alloc: Global, writer: &mut Writer) -> Result<(), Fault>
    ensures before { writer.new.before ≡ writer.old.before }
    ensures tokens { OnOk result (writer.new.tokens ≡ writer.old.tokens ++ float_token float ∷ []) }
{
    let shown = float_text(alloc, float)?;
    let text = shown.as_str();
    if has_point(text) {
        Ok(writer.number(text)?)
    } else {
        Ok(writer.string(text)?)
    }
}

// Whether a point stands in the text.
fn has_point(text: &str) -> bool
    ensures { result ≡ list_any (λ b. b == 46) text.now }
{
    text.as_bytes().iter().any(|byte| *byte == b'.')
}

fn write_whole(alloc: Global, whole: i128, writer: &mut Writer) -> Result<(), Fault>
    ensures before { writer.new.before ≡ writer.old.before }
    ensures tokens { OnOk result (writer.new.tokens ≡ writer.old.tokens ++ number (signed_decimal whole) ∷ []) }
{
    if let Ok(number) = i64::try_from(whole) {
        return Ok(writer.i64(number)?);
    }
    match u64::try_from(whole) {
        Ok(number) => Ok(writer.u64(number)?),
        Err(_) => Err(Fault::new(alloc, Expected::WholeOfAnyType)),
    }
}

#[cycle(write)]
fn write_list(
    items: &[Value],
    dtype: &DType,
    alloc: Global,
    writer: &mut Writer,
) -> Result<(), Fault>
    ensures before { writer.new.before ≡ writer.old.before }
    ensures tokens { OnOk result (writer.new.tokens ≡ writer.old.tokens ++ value_tokens (list_of (data_view items.now)) (type_of dtype.now)) }
{
    match dtype {
        DType::List(element, _) => write_items(items, element.as_ref(), alloc, writer),
        DType::FixedSizeList(element, _, _) => write_items(items, element.as_ref(), alloc, writer),
        _ => Err(Fault::new(alloc, Expected::List)),
    }
}

#[cycle(write)]
fn write_items(
    items: &[Value],
    element: &DType,
    alloc: Global,
    writer: &mut Writer,
) -> Result<(), Fault>
    ensures before { writer.new.before ≡ writer.old.before }
    ensures tokens { OnOk result (writer.new.tokens ≡ writer.old.tokens ++ begin_array ∷ (item_tokens (data_view items.now) (type_of element.now) ++ end_array ∷ [])) }
{
    writer.begin_array()?;
    for i in 0..items.len() {
        write_value(&items[i], element, alloc, writer)?;
    }
    Ok(writer.end_array()?)
}

#[cycle(write)]
fn write_struct(
    values: &[Value],
    dtype: &DType,
    alloc: Global,
    writer: &mut Writer,
) -> Result<(), Fault>
    ensures before { writer.new.before ≡ writer.old.before }
    ensures tokens { OnOk result (writer.new.tokens ≡ writer.old.tokens ++ value_tokens (struct_of (data_view values.now)) (type_of dtype.now)) }
{
    match dtype {
        DType::Struct(fields, _) => write_fields(values, fields, alloc, writer),
        _ => Err(Fault::new(alloc, Expected::Struct)),
    }
}

#[cycle(write)]
fn write_fields(
    values: &[Value],
    fields: &StructFields,
    alloc: Global,
    writer: &mut Writer,
) -> Result<(), Fault>
    ensures before { writer.new.before ≡ writer.old.before }
    ensures tokens { OnOk result (writer.new.tokens ≡ writer.old.tokens ++ begin_object ∷ (field_tokens (data_view values.now) (fields_of fields.now) ++ end_object ∷ [])) }
{
    let names = fields.names().as_slice();
    let types = fields.types();
    writer.begin_object()?;
    for i in 0..values.len().min(fields.nfields()) {
        writer.key(names[i].as_str())?;
        if let Err(fault) = write_value(&values[i], &types[i], alloc, writer) {
            return Err(fault.within(&names[i]));
        }
    }
    Ok(writer.end_object()?)
}

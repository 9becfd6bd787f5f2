// Types and values of the program are ones that a text can say. It is shown by reading them: a definition speaks of a name
// as any bytes and of a length as any number, and only a name or a length that is at hand is text, or fits 32 bits.
ghost use Rattle.std.specs.Str.{IsUtf8};
ghost use Rattle.vx_value.specs.Fits.{Fits};
ghost use Rattle.vx_dtype.specs.Timestamps.{instants};
ghost use Rattle.vx_value.specs.Types.{bytes, decimals};
ghost use Rattle.vx_value.specs.Views.{type_of, fields_of, value_of, data_view};
ghost use Rattle.vx_source_types.specs.TypePrintable.{IsPrintable, IsPrintableAtomic, ArePrintable};
ghost use Rattle.vx_source_types.specs.ScalarPrintable.{IsSpelledValue, AreSpelledValues};
ghost use Rattle.vx_source_laws.specs.SpelledTrees.{AreTexts};

use vx_dtype::{DType, DecimalType, FieldName, StructFields, TimestampType};
use vx_value::{Scalar, Value};

/// Shows that a text can say the type: its names are UTF-8, and its lengths fit 32 bits. Time is linear in the type.
#[cycle(types)]
pub fn type_is_spelled(t: &DType)
    ensures { IsPrintable (type_of t.now) }
{
    match t {
        DType::List(element, _) => type_is_spelled(element.as_ref()),
        DType::FixedSizeList(element, size, _) => {
            let _size = *size;
            type_is_spelled(element.as_ref());
        }
        DType::Struct(fields, _) => fields_are_spelled(fields),
        DType::Decimal(decimal, _) => decimal_is_spelled(*decimal),
        DType::Timestamp(timestamp, _) => timestamp_is_spelled(timestamp),
        DType::Bool(_)
        | DType::Primitive(_, _)
        | DType::Float(_, _)
        | DType::Date(_)
        | DType::Utf8(_)
        | DType::Binary(_) => {}
    }
}

// The precision is from 1 to 38, and the scale at most that.
fn decimal_is_spelled(decimal: DecimalType)
    ensures { IsPrintableAtomic (decimals decimal.precision decimal.scale) }
{
    let _precision = decimal.precision();
    let _scale = decimal.scale();
}

// The name of the zone is UTF-8, if there is one.
fn timestamp_is_spelled(timestamp: &TimestampType)
    ensures { IsPrintableAtomic (instants timestamp.now) }
{
    if let Some(zone) = &timestamp.zone {
        is_text(zone.as_str());
    }
}

// The same of the fields of a struct.
#[cycle(types)]
fn fields_are_spelled(fields: &StructFields)
    ensures { ArePrintable (fields_of fields.now) }
{
    let names = fields.names().as_slice();
    let types = fields.types();
    for i in 0..fields.nfields() {
        name_is_text(&names[i]);
        type_is_spelled(&types[i]);
    }
}

// The name is UTF-8.
pub(crate) fn name_is_text(name: &FieldName)
    ensures { IsUtf8 name.now }
{
    is_text(name.as_str());
}

// Each of the names is UTF-8.
pub(crate) fn names_are_texts(names: &[FieldName])
    ensures { AreTexts names.now }
{
    for i in 0..names.len() {
        name_is_text(&names[i]);
    }
}

// The text is UTF-8.
fn is_text(text: &str)
    ensures { IsUtf8 text.now }
{
    let _length = text.len();
}

/// Shows that a text can say the value: its texts are UTF-8, and its bytes are below 256. Time is linear in the value.
#[cycle(values)]
pub fn value_is_spelled(value: &Value)
    ensures { IsSpelledValue (value_of value.now) }
{
    match value {
        Value::Utf8(text) => is_text(text.as_str()),
        Value::Binary(octets) => bytes_are_spelled(octets.as_slice()),
        Value::List(items) => values_are_spelled(items.as_slice()),
        Value::Struct(items) => values_are_spelled(items.as_slice()),
        Value::Null | Value::Bool(_) | Value::Int(_) | Value::Float(_) => {}
    }
}

// The same of values one after another.
#[cycle(values)]
fn values_are_spelled(values: &[Value])
    ensures { AreSpelledValues (data_view values.now) }
{
    for i in 0..values.len() {
        value_is_spelled(&values[i]);
    }
}

// Each byte is below 256.
fn bytes_are_spelled(octets: &[u8])
    ensures { IsSpelledValue (bytes octets.now) }
{
    for octet in octets {
        let _octet = *octet;
    }
}

/// Shows that a text can say the scalar, and that its value is one of its type.
pub fn scalar_is_spelled(scalar: &Scalar)
    ensures fits { Fits scalar.now.value scalar.now.type }
    ensures value { IsSpelledValue scalar.now.value }
    ensures dtype { IsPrintable scalar.now.type }
{
    value_is_spelled(scalar.value());
    type_is_spelled(scalar.dtype());
}

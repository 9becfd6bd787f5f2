// The text of a value of a type.
ghost use Rattle.std.specs.Prelude.{Some};
ghost use Rattle.std.specs.Fmt.{WritesOnOk};
ghost use Rattle.vx_value.specs.Notations.{number_in, float_in, quoted_in, shown_words};
ghost use Rattle.vx_value.specs.ValueTexts.{value_text, list_text};
ghost use Rattle.vx_value.specs.Views.{type_of, value_of, data_view};

use crate::notation::{ValueNotation, write_list_in, write_value_in};
use crate::{Scalar, Value};
use std::fmt;
use std::fmt::{Display, Formatter, Write};
use vx_dtype::{DType, Shown};
use vx_floats::Float;
use vx_literals::{write_day, write_decimal, write_instant};

impl Display for Scalar {
    ghost output = { λ s. Some (value_text s.value s.type) };

    fn fmt<W: Write>(&self, f: &mut Formatter<W>) -> fmt::Result {
        write_value(self.value(), self.dtype(), f)
    }
}

// Writes the value, which is read by its type.
fn write_value<W: Write>(value: &Value, t: &DType, f: &mut Formatter<W>) -> fmt::Result
    ensures { WritesOnOk W.write_str_gives f.old result (value_text (value_of value.now) (type_of t.now)) f.new }
{
    write_value_in(&Shown, value, t, f)
}

// Writes the values with a comma between them, between brackets.
pub(crate) fn write_list<W: Write>(values: &[Value], t: &DType, f: &mut Formatter<W>) -> fmt::Result
    ensures { WritesOnOk W.write_str_gives f.old result (list_text (data_view values.now) (type_of t.now)) f.new }
{
    write_list_in(&Shown, values, t, f)
}

// A number of a `PType` or of a format with that behind it, and a text between quotes as it stands.
impl ValueNotation for Shown {
    ghost words = { shown_words };

    fn write_number<W: Write>(&self, number: i128, t: &DType, f: &mut Formatter<W>) -> fmt::Result {
        match t {
            DType::Primitive(p, _) => {
                number.fmt(f)?;
                p.fmt(f)
            }
            DType::Decimal(decimal, _) => write_decimal(number, decimal.scale(), f),
            DType::Date(_) => write_day(number, f),
            DType::Timestamp(timestamp, _) => write_instant(number, timestamp, f),
            _ => Ok(()),
        }
    }

    fn write_float<W: Write>(&self, x: Float, t: &DType, f: &mut Formatter<W>) -> fmt::Result {
        match t {
            DType::Float(format, _) => {
                x.fmt(f)?;
                format.fmt(f)
            }
            _ => Ok(()),
        }
    }

    fn write_text<W: Write>(&self, text: &str, f: &mut Formatter<W>) -> fmt::Result {
        f.write_str("\"")?;
        f.write_str(text)?;
        f.write_str("\"")
    }
}

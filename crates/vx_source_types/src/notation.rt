// Source text, as a notation of types and values.
ghost use Rattle.std.specs.Prelude.{◌≡◌};
ghost use Rattle.std.specs.Fmt.{WritesOnOk};
ghost use Rattle.vx_value.specs.Notations.{number_in, float_in, quoted_in};
ghost use Rattle.vx_value.specs.Views.{type_of};
ghost use Rattle.vx_source_types.specs.Names.{name_source};
ghost use Rattle.vx_source_types.specs.Notations.{source_words};

use crate::names::write_name;
use std::fmt;
use std::fmt::{Display, Formatter, Write};
use vx_dtype::{DType, FieldName, TypeNotation, write_quoted};
use vx_floats::Float;
use vx_literals::{has_day_text, has_instant_text, write_day, write_decimal, write_instant};
use vx_value::ValueNotation;

// Names and texts between quotes, the names only where they are no words, and numbers without their types.
pub(crate) struct Source;

impl TypeNotation for Source {
    ghost named = { name_source };

    fn write_name<W: Write>(&self, name: &FieldName, f: &mut Formatter<W>) -> fmt::Result {
        write_name(name, f)
    }
}

impl ValueNotation for Source {
    ghost words = { source_words };

    fn write_number<W: Write>(&self, number: i128, t: &DType, f: &mut Formatter<W>) -> fmt::Result {
        match t {
            DType::Decimal(decimal, _) => {
                f.write_str("\"")?;
                write_decimal(number, decimal.scale(), f)?;
                f.write_str("\"")
            }
            DType::Date(_) if has_day_text(number) => {
                f.write_str("\"")?;
                write_day(number, f)?;
                f.write_str("\"")
            }
            DType::Timestamp(timestamp, _) if has_instant_text(number, timestamp.unit) => {
                f.write_str("\"")?;
                write_instant(number, timestamp, f)?;
                f.write_str("\"")
            }
            _ => number.fmt(f),
        }
    }

    fn write_float<W: Write>(&self, x: Float, _t: &DType, f: &mut Formatter<W>) -> fmt::Result {
        f.write_str("\"")?;
        x.fmt(f)?;
        f.write_str("\"")
    }

    fn write_text<W: Write>(&self, text: &str, f: &mut Formatter<W>) -> fmt::Result {
        write_quoted(text, '"', f)
    }
}

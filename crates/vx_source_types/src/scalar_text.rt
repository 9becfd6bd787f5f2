// Scalars as source text.
ghost use Rattle.std.specs.Prelude.{Some};
ghost use Rattle.std.specs.Fmt.{WritesOnOk};
ghost use Rattle.vx_value.specs.Views.{type_of, value_of};
ghost use Rattle.vx_source_types.specs.ScalarTexts.{scalar_source, type_behind, value_source};

use crate::notation::Source;
use crate::type_text::write_type;
use std::fmt;
use std::fmt::{Display, Formatter, Write};
use vx_dtype::{DType, Nullability};
use vx_value::{Scalar, Value, write_value_in};

/// The scalar as source text: its text where it is a truth value, a number, a text or bytes of a type without
/// null, and else the value and its type. A double quote inside a text is doubled. It takes no memory.
#[derive(Clone, Copy)]
pub struct ScalarText<'a>(pub &'a Scalar);

impl Display for ScalarText<'_> {
    ghost output = { λ t. Some (scalar_source t.0.now.value t.0.now.type) };

    fn fmt<W: Write>(&self, f: &mut Formatter<W>) -> fmt::Result {
        write_scalar(self.0, f)
    }
}

/// Writes the scalar as source text.
pub fn write_scalar<W: Write>(scalar: &Scalar, f: &mut Formatter<W>) -> fmt::Result
    ensures { WritesOnOk W.write_str_gives f.old result (scalar_source scalar.now.value scalar.now.type) f.new }
{
    write_value(scalar.value(), scalar.dtype(), f)?;
    write_behind(scalar.dtype(), f)
}

// Writes what tells the type of a value.
fn write_behind<W: Write>(t: &DType, f: &mut Formatter<W>) -> fmt::Result
    ensures { WritesOnOk W.write_str_gives f.old result (type_behind (type_of t.now)) f.new }
{
    match t {
        DType::Bool(Nullability::NonNullable) => Ok(()),
        DType::Primitive(p, Nullability::NonNullable) => p.fmt(f),
        DType::Utf8(Nullability::NonNullable) => Ok(()),
        DType::Binary(Nullability::NonNullable) => Ok(()),
        _ => {
            f.write_str("::")?;
            write_type(t, f)
        }
    }
}

// Writes the value, whose type follows or is known.
fn write_value<W: Write>(value: &Value, t: &DType, f: &mut Formatter<W>) -> fmt::Result
    ensures { WritesOnOk W.write_str_gives f.old result (value_source (value_of value.now) (type_of t.now)) f.new }
{
    write_value_in(&Source, value, t, f)
}

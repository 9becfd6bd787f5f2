// Types written in a notation.
ghost use Rattle.std.specs.Prelude.{◌≡◌, ◌++◌, codes};
ghost use Rattle.std.specs.Fmt.{WritesOnOk};
ghost use Rattle.vx_dtype.specs.Notations.{type_in, shape_in, fields_in};
ghost use Rattle.vx_dtype.specs.Texts.{with_commas, mark};
ghost use Rattle.vx_dtype.specs.Types.{shape_of};
ghost use Rattle.vx_dtype.specs.Views.{type_of, fields_view};

use crate::fields::field_count;
use crate::shown::separator;
use crate::{DType, FieldName};
use std::fmt;
use std::fmt::{Display, Formatter, Write};

/// What differs between notations of types, which [`write_type_in`] writes: the names of fields.
pub trait TypeNotation {
    ghost use Rattle.std.specs.Prelude.{List, ℕ};

    ghost named: { List ℕ → List ℕ };

    /// Writes the name of a field. Takes no memory.
    fn write_name<W: Write>(&self, name: &FieldName, f: &mut Formatter<W>) -> fmt::Result
        ensures { WritesOnOk W.write_str_gives f.old result (named name.now) f.new };
}

/// Writes the type in the notation. Takes no memory.
#[cycle(write)]
pub fn write_type_in<N: TypeNotation, W: Write>(
    notation: &N,
    t: &DType,
    f: &mut Formatter<W>,
) -> fmt::Result
    ensures { WritesOnOk W.write_str_gives f.old result (type_in N.named (type_of t.now)) f.new }
{
    write_shape(notation, t, f)?;
    f.write_str(mark(t.is_nullable()))
}

// What follows the text of a type: a question mark where it is nullable.
fn mark(nullable: bool) -> &'static str
    ensures { result.now ≡ mark nullable }
{
    if nullable { "?" } else { "" }
}

// Writes the type but for the mark of a nullable one.
#[cycle(write)]
fn write_shape<N: TypeNotation, W: Write>(
    notation: &N,
    t: &DType,
    f: &mut Formatter<W>,
) -> fmt::Result
    ensures { WritesOnOk W.write_str_gives f.old result (shape_in N.named (shape_of (type_of t.now))) f.new }
{
    match t {
        DType::Bool(_) => f.write_str("bool"),
        DType::Primitive(p, _) => p.fmt(f),
        DType::Float(p, _) => p.fmt(f),
        DType::Decimal(decimal, _) => decimal.fmt(f),
        DType::Date(_) => f.write_str("date"),
        DType::Timestamp(timestamp, _) => timestamp.fmt(f),
        DType::Utf8(_) => f.write_str("utf8"),
        DType::Binary(_) => f.write_str("binary"),
        DType::List(element, _) => {
            f.write_str("list(")?;
            write_type_in(notation, element.as_ref(), f)?;
            f.write_str(")")
        }
        DType::FixedSizeList(element, size, _) => {
            f.write_str("fixed_size_list(")?;
            write_type_in(notation, element.as_ref(), f)?;
            f.write_str(")[")?;
            size.fmt(f)?;
            f.write_str("]")
        }
        DType::Struct(fields, _) => {
            f.write_str("{")?;
            write_fields(
                notation,
                fields.names.as_slice(),
                fields.types.as_slice(),
                f,
            )?;
            f.write_str("}")
        }
    }
}

// Writes the fields with a comma between them.
#[cycle(write)]
fn write_fields<N: TypeNotation, W: Write>(
    notation: &N,
    names: &[FieldName],
    types: &[DType],
    f: &mut Formatter<W>,
) -> fmt::Result
    ensures { WritesOnOk W.write_str_gives f.old result (with_commas (fields_in N.named (fields_view names.now types.now))) f.new }
{
    for i in 0..field_count(names, types) {
        f.write_str(separator(i))?;
        write_field(notation, &names[i], &types[i], f)?;
    }
    Ok(())
}

// Writes the name and the type of a field.
#[cycle(write)]
fn write_field<N: TypeNotation, W: Write>(
    notation: &N,
    name: &FieldName,
    t: &DType,
    f: &mut Formatter<W>,
) -> fmt::Result
    ensures { WritesOnOk W.write_str_gives f.old result (N.named name.now ++ (codes "=" ++ type_in N.named (type_of t.now))) f.new }
{
    notation.write_name(name, f)?;
    f.write_str("=")?;
    write_type_in(notation, t, f)
}

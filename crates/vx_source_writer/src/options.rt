// The options of functions as source text.
ghost use Rattle.std.specs.Fmt.{WritesOnOk};
ghost use Rattle.vx_fn.specs.Views.{function_of};
ghost use Rattle.vx_value.specs.Views.{admits_null};
ghost use Rattle.vx_source_writer.specs.Options.{options_source, selection_source, pack_options_source};

use std::fmt;
use std::fmt::{Display, Formatter, Write};
use vx_source_types::{write_name, write_names, write_scalar, write_type};
use vx_tree::{FieldSelection, Nullability, PackOptions, ScalarFnRef};

// What the function says of itself beside its name.
pub(crate) fn write_options<W: Write>(scalar_fn: &ScalarFnRef, f: &mut Formatter<W>) -> fmt::Result
    ensures { WritesOnOk W.write_str_gives f.old result (options_source (function_of scalar_fn.now)) f.new }
{
    match scalar_fn {
        ScalarFnRef::CaseWhen(options) => options.fmt(f),
        ScalarFnRef::GetItem(name) => write_name(name, f),
        ScalarFnRef::Literal(scalar) => write_scalar(scalar, f),
        ScalarFnRef::Pack(options) => write_pack_options(options, f),
        ScalarFnRef::Select(selection) => write_selection(selection, f),
        ScalarFnRef::Binary(operator) => operator.fmt(f),
        ScalarFnRef::Between(options) => options.fmt(f),
        ScalarFnRef::Like(options) => options.fmt(f),
        ScalarFnRef::Cast(target) => write_type(target, f),
        ScalarFnRef::FillNull(options)
        | ScalarFnRef::Zip(options)
        | ScalarFnRef::Not(options)
        | ScalarFnRef::IsNull(options)
        | ScalarFnRef::IsNotNull(options)
        | ScalarFnRef::Mask(options)
        | ScalarFnRef::StartsWith(options)
        | ScalarFnRef::ByteLength(options)
        | ScalarFnRef::ListContains(options) => options.fmt(f),
    }
}

// The names between braces, behind a tilde where they are left out.
fn write_selection<W: Write>(selection: &FieldSelection, f: &mut Formatter<W>) -> fmt::Result
    ensures { WritesOnOk W.write_str_gives f.old result (selection_source selection.now) f.new }
{
    let (open, names) = match selection {
        FieldSelection::Include(names) => ("{", names),
        FieldSelection::Exclude(names) => ("~{", names),
    };
    f.write_str(open)?;
    write_names(names.as_slice(), f)?;
    f.write_str("}")
}

// The names and the nullability, as `names: [x, y], nullability: Nullable`.
fn write_pack_options<W: Write>(options: &PackOptions, f: &mut Formatter<W>) -> fmt::Result
    ensures { WritesOnOk W.write_str_gives f.old result (pack_options_source options.now.names (admits_null options.now.nullability)) f.new }
{
    f.write_str("names: [")?;
    write_names(options.names.as_slice(), f)?;
    f.write_str("], nullability: ")?;
    f.write_str(match options.nullability {
        Nullability::Nullable => "Nullable",
        Nullability::NonNullable => "NonNullable",
    })
}

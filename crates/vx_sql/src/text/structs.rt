// The texts of columns, of fields of structs, and of structs that are made.
ghost use Rattle.std.specs.Prelude.{◌≡◌, ◌<◌, ◌++◌, [], length, get_or, codes};
ghost use Rattle.std.specs.Fmt.{WritesOnOk};
ghost use Rattle.vx_fn.specs.Texts.{with_commas};
ghost use Rattle.vx_sql.specs.Children.{is_row};
ghost use Rattle.vx_sql.specs.SqlTexts.{sqls_in, trees_in, item_sql, pack_word, before_field, fields_sql};

use super::{Children, write_child};
use crate::Dialect;
use crate::children::is_row;
use crate::names::write_name;
use crate::quotes::write_text;
use std::fmt;
use std::fmt::{Formatter, Write};
use vx_dtype::FieldName;

// A column of the row, or a field of a struct.
#[cycle(text)]
pub(super) fn write_item<W: Write>(
    name: &FieldName,
    children: Children,
    f: &mut Formatter<W>,
) -> fmt::Result
    requires { length children.nodes.now ≡ 1 }
    ensures { WritesOnOk W.write_str_gives f.old result
        (item_sql children.entry.dialect name.now (is_row (trees_in children.entry)) (get_or (sqls_in children.entry) 0 [])) f.new }
{
    if is_row(children.nodes) {
        return write_name(children.dialect, name, f);
    }
    f.write_str("(")?;
    write_child(children, 0, f)?;
    f.write_str(").")?;
    write_name(children.dialect, name, f)
}

// A struct of named children.
#[cycle(text)]
pub(super) fn write_pack<W: Write>(
    names: &[FieldName],
    children: Children,
    f: &mut Formatter<W>,
) -> fmt::Result
    requires { length children.nodes.now ≡ length names.now }
    ensures { WritesOnOk W.write_str_gives f.old result
        (pack_word children.entry.dialect ++ (with_commas (fields_sql children.entry.dialect names.now (sqls_in children.entry)) ++ codes ")")) f.new }
{
    f.write_str(pack_word(children.dialect))?;
    write_fields(names, children, f)?;
    f.write_str(")")
}

// The function that makes a struct.
fn pack_word(dialect: Dialect) -> &'static str
    ensures { result.now ≡ pack_word dialect }
{
    match dialect {
        Dialect::DuckDb => "struct_pack(",
        Dialect::Postgres | Dialect::Sqlite | Dialect::Spark | Dialect::ClickHouse => {
            "named_struct("
        }
    }
}

// The fields, with commas between them.
#[cycle(text)]
fn write_fields<W: Write>(
    names: &[FieldName],
    children: Children,
    f: &mut Formatter<W>,
) -> fmt::Result
    requires { length children.nodes.now ≡ length names.now }
    ensures { WritesOnOk W.write_str_gives f.old result (with_commas (fields_sql children.entry.dialect names.now (sqls_in children.entry))) f.new }
{
    if children.nodes.is_empty() {
        return Ok(());
    }
    write_field(names, children, 0, f)?;
    for index in 1..children.nodes.len() {
        f.write_str(", ")?;
        write_field(names, children, index, f)?;
    }
    Ok(())
}

// A field that is made: its name and its value.
#[cycle(text)]
fn write_field<W: Write>(
    names: &[FieldName],
    children: Children,
    index: usize,
    f: &mut Formatter<W>,
) -> fmt::Result
    requires named { index < length names.now }
    requires given { index < length children.nodes.now }
    ensures { WritesOnOk W.write_str_gives f.old result (get_or (fields_sql children.entry.dialect names.now (sqls_in children.entry)) index []) f.new }
{
    write_before_field(children.dialect, &names[index], f)?;
    write_child(children, index, f)
}

// What stands before the value of a field.
fn write_before_field<W: Write>(
    dialect: Dialect,
    name: &FieldName,
    f: &mut Formatter<W>,
) -> fmt::Result
    ensures { WritesOnOk W.write_str_gives f.old result (before_field dialect name.now) f.new }
{
    match dialect {
        Dialect::DuckDb => {
            write_name(dialect, name, f)?;
            f.write_str(" := ")
        }
        Dialect::Postgres | Dialect::Sqlite | Dialect::Spark | Dialect::ClickHouse => {
            write_text(dialect, name.as_str(), f)?;
            f.write_str(", ")
        }
    }
}

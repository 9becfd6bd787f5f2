// The texts of tests of a beginning, and of lengths.
ghost use Rattle.std.specs.Prelude.{◌≡◌, [], false, length, get_or};
ghost use Rattle.std.specs.Fmt.{WritesOnOk};
ghost use Rattle.vx_tree.specs.Views.{bound_of};
ghost use Rattle.vx_sql.specs.Children.{literal_in};
ghost use Rattle.vx_sql.specs.SqlTexts.{sqls_in, trees_in, match_sql, value_beginning, literal_beginning, second_beginning, before_length, behind_length, length_sql};

use super::tests::{like_end, write_before_matched, write_behind_matched, write_like_sign};
use super::{Children, write_child};
use crate::Dialect;
use crate::children::{child_at, literal_in};
use crate::literals::write_null;
use crate::patterns::write_beginning_pattern;
use std::fmt;
use std::fmt::{Formatter, Write};
use vx_tree::BoundExpression;
use vx_value::{Scalar, Value};

// A test of a beginning: a match with its characters and any text behind them.
#[cycle(text)]
pub(super) fn write_beginning<W: Write>(children: Children, f: &mut Formatter<W>) -> fmt::Result
    requires { length children.nodes.now ≡ 2 }
    ensures { WritesOnOk W.write_str_gives f.old result
        (match_sql children.entry.dialect false false (get_or (sqls_in children.entry) 0 []) (second_beginning children.entry.dialect (trees_in children.entry))) f.new }
{
    write_before_matched(children.dialect, false, f)?;
    write_child(children, 0, f)?;
    write_behind_matched(children.dialect, false, f)?;
    write_like_sign(children.dialect, false, f)?;
    write_second_beginning(children, f)?;
    f.write_str(like_end(children.dialect))
}

// The pattern of what begins with the second child.
fn write_second_beginning<W: Write>(children: Children, f: &mut Formatter<W>) -> fmt::Result
    ensures { WritesOnOk W.write_str_gives f.old result (second_beginning children.entry.dialect (trees_in children.entry)) f.new }
{
    match child_at(children.nodes, 1) {
        Some(child) => write_beginning_of(children.dialect, child, f),
        None => Ok(()),
    }
}

// The pattern of what begins with a literal, which may be null.
fn write_beginning_of<W: Write>(
    dialect: Dialect,
    b: &BoundExpression,
    f: &mut Formatter<W>,
) -> fmt::Result
    ensures { WritesOnOk W.write_str_gives f.old result (literal_beginning dialect (literal_in (bound_of b.now))) f.new }
{
    match literal_in(b) {
        Some(scalar) => write_value_beginning(dialect, scalar, f),
        None => Ok(()),
    }
}

fn write_value_beginning<W: Write>(
    dialect: Dialect,
    scalar: &Scalar,
    f: &mut Formatter<W>,
) -> fmt::Result
    ensures { WritesOnOk W.write_str_gives f.old result (value_beginning dialect scalar.now.type scalar.now.value) f.new }
{
    match scalar.value() {
        Value::Utf8(text) => write_beginning_pattern(dialect, text.as_str(), f),
        _ => write_null(dialect, scalar.dtype(), f),
    }
}

// The number of a text's bytes.
#[cycle(text)]
pub(super) fn write_length<W: Write>(children: Children, f: &mut Formatter<W>) -> fmt::Result
    requires { length children.nodes.now ≡ 1 }
    ensures { WritesOnOk W.write_str_gives f.old result (length_sql children.entry.dialect (get_or (sqls_in children.entry) 0 [])) f.new }
{
    f.write_str(before_length(children.dialect))?;
    write_child(children, 0, f)?;
    f.write_str(behind_length(children.dialect))
}

// What stands before a text whose bytes are counted, as a number of 64 bits.
fn before_length(dialect: Dialect) -> &'static str
    ensures { result.now ≡ before_length dialect }
{
    match dialect {
        Dialect::Postgres | Dialect::Spark => "CAST(octet_length(",
        Dialect::Sqlite => "length(CAST(",
        Dialect::DuckDb => "strlen(",
        Dialect::ClickHouse => "toInt64(length(",
    }
}

// What stands behind it.
fn behind_length(dialect: Dialect) -> &'static str
    ensures { result.now ≡ behind_length dialect }
{
    match dialect {
        Dialect::Postgres => ") AS bigint)",
        Dialect::Sqlite => " AS BLOB))",
        Dialect::DuckDb => ")",
        Dialect::Spark => ") AS BIGINT)",
        Dialect::ClickHouse => "))",
    }
}

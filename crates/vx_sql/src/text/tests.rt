// The texts of tests for null, and of LIKE.
ghost use Rattle.std.specs.Prelude.{◌≡◌, ◌<◌, ◌++◌, [], length, get_or, codes};
ghost use Rattle.std.specs.Fmt.{WritesOnOk};
ghost use Rattle.vx_tree.specs.Views.{bound_of};
ghost use Rattle.vx_sql.specs.Children.{has_struct_first, literal_in};
ghost use Rattle.vx_sql.specs.SqlTexts.{sqls_in, trees_in, tests_rows, null_sign, null_test, before_folded, behind_folded, before_matched, behind_matched, like_sign, like_end, value_pattern, literal_pattern, second_pattern, match_sql};

use super::{Children, write_child};
use crate::Dialect;
use crate::children::{child_at, has_struct_first, literal_in};
use crate::literals::write_null;
use crate::patterns::{has_globs, write_pattern};
use crate::types::collation;
use std::fmt;
use std::fmt::{Formatter, Write};
use vx_fn::LikeOptions;
use vx_tree::BoundExpression;
use vx_value::{Scalar, Value};

// Whether the child is null, or isn't.
#[cycle(text)]
pub(super) fn write_null_test<W: Write>(
    for_null: bool,
    children: Children,
    f: &mut Formatter<W>,
) -> fmt::Result
    requires { length children.nodes.now ≡ 1 }
    ensures { WritesOnOk W.write_str_gives f.old result
        (null_test children.entry.dialect (has_struct_first (trees_in children.entry)) for_null (get_or (sqls_in children.entry) 0 [])) f.new }
{
    f.write_str("(")?;
    write_child(children, 0, f)?;
    let by_rows = tests_rows(children.dialect) && has_struct_first(children.nodes);
    f.write_str(null_sign(by_rows, for_null))
}

// Whether a struct of nulls is told from a null struct by other words than `IS NULL`.
fn tests_rows(dialect: Dialect) -> bool
    ensures { result ≡ tests_rows dialect }
{
    match dialect {
        Dialect::Postgres => true,
        Dialect::Sqlite | Dialect::DuckDb | Dialect::Spark | Dialect::ClickHouse => false,
    }
}

fn null_sign(by_rows: bool, for_null: bool) -> &'static str
    ensures { result.now ≡ null_sign by_rows for_null }
{
    match (by_rows, for_null) {
        (true, true) => " IS NOT DISTINCT FROM NULL)",
        (true, false) => " IS DISTINCT FROM NULL)",
        (false, true) => " IS NULL)",
        (false, false) => " IS NOT NULL)",
    }
}

// A match of a text with a pattern.
#[cycle(text)]
pub(super) fn write_like<W: Write>(
    options: LikeOptions,
    children: Children,
    f: &mut Formatter<W>,
) -> fmt::Result
    requires { length children.nodes.now ≡ 2 }
    ensures { WritesOnOk W.write_str_gives f.old result
        (match_sql children.entry.dialect options.negated options.case_insensitive (get_or (sqls_in children.entry) 0 [])
        (second_pattern children.entry.dialect options.case_insensitive (trees_in children.entry))) f.new }
{
    write_before_matched(children.dialect, options.case_insensitive, f)?;
    write_child(children, 0, f)?;
    write_behind_matched(children.dialect, options.case_insensitive, f)?;
    write_like_sign(children.dialect, options.negated, f)?;
    write_second_pattern(options.case_insensitive, children, f)?;
    f.write_str(like_end(children.dialect))
}

// What stands before a text whose case is ignored.
fn before_folded(dialect: Dialect) -> &'static str
    ensures { result.now ≡ before_folded dialect }
{
    match dialect {
        Dialect::Postgres | Dialect::ClickHouse => "lower(",
        Dialect::Sqlite => "",
        Dialect::DuckDb | Dialect::Spark => "translate(",
    }
}

// What stands behind it.
fn behind_folded(dialect: Dialect) -> &'static str
    ensures { result.now ≡ behind_folded dialect }
{
    match dialect {
        Dialect::Postgres | Dialect::ClickHouse => ")",
        Dialect::Sqlite => "",
        Dialect::DuckDb | Dialect::Spark => {
            ", 'ABCDEFGHIJKLMNOPQRSTUVWXYZ', 'abcdefghijklmnopqrstuvwxyz')"
        }
    }
}

// What stands before a text that is matched.
pub(super) fn write_before_matched<W: Write>(
    dialect: Dialect,
    ignore_case: bool,
    f: &mut Formatter<W>,
) -> fmt::Result
    ensures { WritesOnOk W.write_str_gives f.old result (before_matched dialect ignore_case) f.new }
{
    f.write_str("(")?;
    f.write_str(if ignore_case {
        before_folded(dialect)
    } else {
        ""
    })
}

// What stands behind it: a GLOB compares bytes by itself.
pub(super) fn write_behind_matched<W: Write>(
    dialect: Dialect,
    ignore_case: bool,
    f: &mut Formatter<W>,
) -> fmt::Result
    ensures { WritesOnOk W.write_str_gives f.old result (behind_matched dialect ignore_case) f.new }
{
    f.write_str(if has_globs(dialect) {
        ""
    } else {
        collation(dialect)
    })?;
    f.write_str(if ignore_case {
        behind_folded(dialect)
    } else {
        ""
    })
}

// The word of a match.
pub(super) fn write_like_sign<W: Write>(
    dialect: Dialect,
    negated: bool,
    f: &mut Formatter<W>,
) -> fmt::Result
    ensures { WritesOnOk W.write_str_gives f.old result (like_sign dialect negated) f.new }
{
    f.write_str(if negated { " NOT" } else { "" })?;
    f.write_str(if has_globs(dialect) {
        " GLOB "
    } else {
        " LIKE "
    })
}

// What stands behind the pattern.
pub(super) fn like_end(dialect: Dialect) -> &'static str
    ensures { result.now ≡ like_end dialect }
{
    match dialect {
        Dialect::Postgres | Dialect::DuckDb | Dialect::Spark => " ESCAPE '!')",
        Dialect::Sqlite | Dialect::ClickHouse => ")",
    }
}

// The pattern that is the second child.
fn write_second_pattern<W: Write>(
    ignore_case: bool,
    children: Children,
    f: &mut Formatter<W>,
) -> fmt::Result
    ensures { WritesOnOk W.write_str_gives f.old result (second_pattern children.entry.dialect ignore_case (trees_in children.entry)) f.new }
{
    match child_at(children.nodes, 1) {
        Some(child) => write_pattern_of(children.dialect, ignore_case, child, f),
        None => Ok(()),
    }
}

// The pattern of a literal, which may be null.
fn write_pattern_of<W: Write>(
    dialect: Dialect,
    ignore_case: bool,
    b: &BoundExpression,
    f: &mut Formatter<W>,
) -> fmt::Result
    ensures { WritesOnOk W.write_str_gives f.old result (literal_pattern dialect ignore_case (literal_in (bound_of b.now))) f.new }
{
    match literal_in(b) {
        Some(scalar) => write_value_pattern(dialect, ignore_case, scalar, f),
        None => Ok(()),
    }
}

fn write_value_pattern<W: Write>(
    dialect: Dialect,
    ignore_case: bool,
    scalar: &Scalar,
    f: &mut Formatter<W>,
) -> fmt::Result
    ensures { WritesOnOk W.write_str_gives f.old result (value_pattern dialect ignore_case scalar.now.type scalar.now.value) f.new }
{
    match scalar.value() {
        Value::Utf8(text) => write_pattern(dialect, text.as_str(), ignore_case, f),
        _ => write_null(dialect, scalar.dtype(), f),
    }
}

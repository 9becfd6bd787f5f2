// The texts of values that are looked up in lists.
ghost use Rattle.std.specs.Prelude.{◌≡◌, ◌++◌, [], false, length, get_or, codes};
ghost use Rattle.std.specs.Fmt.{WritesOnOk};
ghost use Rattle.vx_fn.specs.Functions.{is_text};
ghost use Rattle.vx_fn.specs.Texts.{with_commas};
ghost use Rattle.vx_value.specs.Views.{type_of, data_view};
ghost use Rattle.vx_sql.specs.Children as seen;
ghost use Rattle.vx_sql.specs.Lists.{literal_first};
ghost use Rattle.vx_sql.specs.Literals.{items_sql, truth_sql};
ghost use Rattle.vx_sql.specs.SqlTexts.{sqls_in, trees_in, compared_sql, forgets_nulls, in_sql, in_nulls_sql, null_in_sql, in_none_sql, among_sql, membership_sql};

use super::{Children, write_child};
use crate::Dialect;
use crate::children::{admits_null_at, is_text};
use crate::lists::{has_items, has_null, item_type, literal_first};
use crate::literals::{truth_word, write_items, write_null};
use crate::types::collation;
use std::fmt;
use std::fmt::{Formatter, Write};
use vx_dtype::DType;
use vx_value::Value;

// The second child in the literal list that is the first, null of the node's type if that is; none where it is no literal.
#[cycle(text)]
pub(super) fn write_membership<W: Write>(
    dtype: &DType,
    children: Children,
    f: &mut Formatter<W>,
) -> fmt::Result
    requires { length children.nodes.now ≡ 2 }
    ensures { let bs = trees_in children.entry in WritesOnOk W.write_str_gives f.old result
        (membership_sql children.entry.dialect (type_of dtype.now) (literal_first bs) (seen.admits_null_at bs 1) (get_or (sqls_in children.entry) 1 [])) f.new }
{
    let Some(list) = literal_first(children.nodes) else {
        return Ok(());
    };
    match list.value() {
        Value::List(items) => write_among(item_type(list.dtype()), items.as_slice(), children, f),
        _ => write_null(children.dialect, dtype, f),
    }
}

// The second child among values of that type.
#[cycle(text)]
fn write_among<W: Write>(
    dtype: &DType,
    items: &[Value],
    children: Children,
    f: &mut Formatter<W>,
) -> fmt::Result
    requires { length children.nodes.now ≡ 2 }
    ensures { WritesOnOk W.write_str_gives f.old result
        (among_sql children.entry.dialect (type_of dtype.now) (data_view items.now) (seen.admits_null_at (trees_in children.entry) 1) (get_or (sqls_in children.entry) 1 [])) f.new }
{
    if !has_items(items) {
        write_in_none(children, f)
    } else if forgets_nulls(children.dialect) && has_null(items) {
        write_in_nulls(dtype, items, children, f)
    } else if forgets_nulls(children.dialect) && admits_null_at(children.nodes, 1) {
        write_null_in(dtype, items, children, f)
    } else {
        write_in(dtype, items, children, f)
    }
}

// Whether the engine's IN is never null: ClickHouse's is 0 of a null, and of what is none of the others where one is null.
fn forgets_nulls(dialect: Dialect) -> bool
    ensures { result ≡ forgets_nulls dialect }
{
    match dialect {
        Dialect::Postgres | Dialect::Sqlite | Dialect::DuckDb | Dialect::Spark => false,
        Dialect::ClickHouse => true,
    }
}

// The second child among no values, for which there is no IN: false where it isn't null.
#[cycle(text)]
fn write_in_none<W: Write>(children: Children, f: &mut Formatter<W>) -> fmt::Result
    requires { length children.nodes.now ≡ 2 }
    ensures { WritesOnOk W.write_str_gives f.old result (in_none_sql children.entry.dialect (get_or (sqls_in children.entry) 1 [])) f.new }
{
    f.write_str("CASE WHEN (")?;
    write_child(children, 1, f)?;
    write_false_of_values(children.dialect, f)
}

// What stands behind the second child there.
fn write_false_of_values<W: Write>(dialect: Dialect, f: &mut Formatter<W>) -> fmt::Result
    ensures { WritesOnOk W.write_str_gives f.old result (codes " IS NOT NULL) THEN " ++ (truth_sql dialect false ++ codes " END")) f.new }
{
    f.write_str(" IS NOT NULL) THEN ")?;
    f.write_str(truth_word(dialect, false))?;
    f.write_str(" END")
}

// The second child among values of which one is null, where the engine's IN is 0 in place of null.
#[cycle(text)]
fn write_in_nulls<W: Write>(
    dtype: &DType,
    items: &[Value],
    children: Children,
    f: &mut Formatter<W>,
) -> fmt::Result
    requires { length children.nodes.now ≡ 2 }
    ensures { WritesOnOk W.write_str_gives f.old result
        (in_nulls_sql children.entry.dialect (type_of dtype.now) (data_view items.now) (get_or (sqls_in children.entry) 1 [])) f.new }
{
    f.write_str("nullIf(")?;
    write_in(dtype, items, children, f)?;
    f.write_str(", 0)")
}

// The second child, which may be null, where the engine's IN is 0 in place of null: by a function, so that it is written
// once.
#[cycle(text)]
fn write_null_in<W: Write>(
    dtype: &DType,
    items: &[Value],
    children: Children,
    f: &mut Formatter<W>,
) -> fmt::Result
    requires { length children.nodes.now ≡ 2 }
    ensures { WritesOnOk W.write_str_gives f.old result
        (null_in_sql children.entry.dialect (type_of dtype.now) (data_view items.now) (get_or (sqls_in children.entry) 1 [])) f.new }
{
    f.write_str("arrayMap(a -> (a IN (")?;
    write_items(children.dialect, items, dtype, f)?;
    f.write_str(")) = (a = a), [")?;
    write_child(children, 1, f)?;
    f.write_str("])[1]")
}

// The second child among values by the engine's word.
#[cycle(text)]
fn write_in<W: Write>(
    dtype: &DType,
    items: &[Value],
    children: Children,
    f: &mut Formatter<W>,
) -> fmt::Result
    requires { length children.nodes.now ≡ 2 }
    ensures { WritesOnOk W.write_str_gives f.old result
        (in_sql children.entry.dialect (type_of dtype.now) (data_view items.now) (get_or (sqls_in children.entry) 1 [])) f.new }
{
    f.write_str("(")?;
    write_sought(dtype, children, f)?;
    write_choices(children.dialect, dtype, items, f)
}

// The second child, with the engine's word for comparing bytes where it is looked up among texts.
#[cycle(text)]
fn write_sought<W: Write>(dtype: &DType, children: Children, f: &mut Formatter<W>) -> fmt::Result
    requires { length children.nodes.now ≡ 2 }
    ensures { WritesOnOk W.write_str_gives f.old result
        (compared_sql children.entry.dialect (is_text (type_of dtype.now)) (get_or (sqls_in children.entry) 1 [])) f.new }
{
    write_child(children, 1, f)?;
    if is_text(dtype) {
        f.write_str(collation(children.dialect))
    } else {
        Ok(())
    }
}

// The values that it is looked up among.
fn write_choices<W: Write>(
    dialect: Dialect,
    dtype: &DType,
    items: &[Value],
    f: &mut Formatter<W>,
) -> fmt::Result
    ensures { WritesOnOk W.write_str_gives f.old result
        (codes " IN (" ++ (with_commas (items_sql dialect (data_view items.now) (type_of dtype.now)) ++ codes "))")) f.new }
{
    f.write_str(" IN (")?;
    write_items(dialect, items, dtype, f)?;
    f.write_str("))")
}

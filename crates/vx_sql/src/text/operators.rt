// The texts of operators and of BETWEEN.
ghost use Rattle.std.specs.Prelude.{◌≡◌, ◌<◌, ◌++◌, ℕ, List, [], length, get_or, codes};
ghost use Rattle.std.specs.Fmt.{WritesOnOk};
ghost use Rattle.vx_value.specs.Views.{type_of};
ghost use Rattle.vx_fn.specs.Texts.{operator_sql};
ghost use Rattle.vx_fn.specs.Views.{is_strict, operation_of};
ghost use Rattle.vx_sql.specs.Children.{has_text_first};
ghost use Rattle.vx_sql.specs.Calculations.{second_sql, arithmetic_sql};
ghost use Rattle.vx_sql.specs.SqlTexts.{sqls_in, trees_in, compared_sql, loses_nulls, loses_operands, loses_bounds, overlooks_ends, overlooks_operands, least_sql, logic_sql, or_equal_sql, computed_sql, binary_sql, not_sql, between_sql, range_sql, both_sql, below_sql};

use super::{Children, write_child};
use crate::Dialect;
use crate::calculations::{Check, forgives_zero};
use crate::children::{admits_null_at, has_string_first, has_text_first};
use crate::types::collation;
use std::fmt;
use std::fmt::{Formatter, Write};
use vx_dtype::{DType, PType};
use vx_floats::Arithmetic;
use vx_fn::{BetweenOptions, Operator, StrictComparison};

// An operator between its operands; arithmetic as one of that type.
#[cycle(text)]
pub(super) fn write_binary<W: Write>(
    dtype: &DType,
    operator: Operator,
    operands: Children,
    f: &mut Formatter<W>,
) -> fmt::Result
    requires { length operands.nodes.now ≡ 2 }
    ensures { let cs = sqls_in operands.entry in WritesOnOk W.write_str_gives f.old result
        (binary_sql operands.entry.dialect (type_of dtype.now) (has_text_first (trees_in operands.entry)) (loses_operands operands.entry.dialect (trees_in operands.entry)) (overlooks_operands operands.entry.dialect (trees_in operands.entry)) (operation_of operator) (get_or cs 0 []) (get_or cs 1 [])) f.new }
{
    match operator {
        Operator::Eq => write_comparison("=", operands, 0, 1, f),
        Operator::NotEq => write_comparison("<>", operands, 0, 1, f),
        Operator::Gt => write_comparison(">", operands, 0, 1, f),
        Operator::Gte => write_or_equal(">=", "<", operands, f),
        Operator::Lt => write_comparison("<", operands, 0, 1, f),
        Operator::Lte => write_or_equal("<=", ">", operands, f),
        Operator::And => write_logic("AND", "least", operands, f),
        Operator::Or => write_logic("OR", "greatest", operands, f),
        Operator::Add => write_computed(dtype, Arithmetic::Sum, operands, f),
        Operator::Sub => write_computed(dtype, Arithmetic::Difference, operands, f),
        Operator::Mul => write_computed(dtype, Arithmetic::Product, operands, f),
        Operator::Div => write_computed(dtype, Arithmetic::Quotient, operands, f),
        Operator::Rem => write_computed(dtype, Arithmetic::Remainder, operands, f),
    }
}

// A comparison that lets equal values in, by its sign, or by the opposite one turned round where that
// would overlook the end of an operand.
#[cycle(text)]
fn write_or_equal<W: Write>(
    sign: &str,
    opposite: &str,
    operands: Children,
    f: &mut Formatter<W>,
) -> fmt::Result
    requires { length operands.nodes.now ≡ 2 }
    ensures { let cs = sqls_in operands.entry in WritesOnOk W.write_str_gives f.old result
        (or_equal_sql operands.entry.dialect (overlooks_operands operands.entry.dialect (trees_in operands.entry)) sign.now opposite.now
        (compared_sql operands.entry.dialect (has_text_first (trees_in operands.entry)) (get_or cs 0 [])) (get_or cs 1 [])) f.new }
{
    if overlooks_operands(operands) {
        write_turned(opposite, operands, 0, 1, f)
    } else {
        write_comparison(sign, operands, 0, 1, f)
    }
}

// A comparison of two of the children, turned round.
#[cycle(text)]
fn write_turned<W: Write>(
    sign: &str,
    children: Children,
    first: usize,
    second: usize,
    f: &mut Formatter<W>,
) -> fmt::Result
    requires first { first < length children.nodes.now }
    requires second { second < length children.nodes.now }
    ensures { let cs = sqls_in children.entry in WritesOnOk W.write_str_gives f.old result
        (not_sql children.entry.dialect (operator_sql sign.now (compared_sql children.entry.dialect (has_text_first (trees_in children.entry)) (get_or cs first [])) (get_or cs second []))) f.new }
{
    let (before, behind) = not_words(children.dialect);
    f.write_str(before)?;
    write_comparison(sign, children, first, second, f)?;
    f.write_str(behind)
}

// A comparison of two of the children, of texts by their bytes.
#[cycle(text)]
fn write_comparison<W: Write>(
    sign: &str,
    children: Children,
    first: usize,
    second: usize,
    f: &mut Formatter<W>,
) -> fmt::Result
    requires first { first < length children.nodes.now }
    requires second { second < length children.nodes.now }
    ensures { let cs = sqls_in children.entry in WritesOnOk W.write_str_gives f.old result
        (operator_sql sign.now (compared_sql children.entry.dialect (has_text_first (trees_in children.entry)) (get_or cs first [])) (get_or cs second [])) f.new }
{
    f.write_str("(")?;
    write_compared(children, first, f)?;
    write_sign(sign, f)?;
    write_child(children, second, f)?;
    f.write_str(")")
}

// Two truth values, by the engine's word or by a function where that would lose a null.
#[cycle(text)]
fn write_logic<W: Write>(
    sign: &str,
    function: &str,
    operands: Children,
    f: &mut Formatter<W>,
) -> fmt::Result
    requires { length operands.nodes.now ≡ 2 }
    ensures { let cs = sqls_in operands.entry in WritesOnOk W.write_str_gives f.old result
        (logic_sql (loses_operands operands.entry.dialect (trees_in operands.entry)) sign.now function.now (get_or cs 0 []) (get_or cs 1 [])) f.new }
{
    if loses_operands(operands) {
        write_least(function, operands, f)
    } else {
        write_operator(sign, operands, f)
    }
}

// Whether the engine would lose a null of an operand.
fn loses_operands(operands: Children) -> bool
    ensures { result ≡ loses_operands operands.entry.dialect (trees_in operands.entry) }
{
    loses_nulls(operands.dialect)
        && (admits_null_at(operands.nodes, 0) || admits_null_at(operands.nodes, 1))
}

// Whether it would lose one of the comparison with a bound where that with the other has none.
fn loses_bounds(children: Children) -> bool
    ensures { result ≡ loses_bounds children.entry.dialect (trees_in children.entry) }
{
    loses_nulls(children.dialect)
        && (admits_null_at(children.nodes, 1) || admits_null_at(children.nodes, 2))
}

// Whether the engine's AND and OR take no null for what it is: in ClickHouse, to version 19, an AND of
// false and null is null, and an OR takes null for false.
fn loses_nulls(dialect: Dialect) -> bool
    ensures { result ≡ loses_nulls dialect }
{
    match dialect {
        Dialect::Postgres | Dialect::Sqlite | Dialect::DuckDb | Dialect::Spark => false,
        Dialect::ClickHouse => true,
    }
}

// Whether its comparisons overlook the end of such an operand.
fn overlooks_operands(operands: Children) -> bool
    ensures { result ≡ overlooks_operands operands.entry.dialect (trees_in operands.entry) }
{
    overlooks_ends(operands.dialect) && has_string_first(operands.nodes)
}

// Whether the engine's `<=` overlooks NULs at the end of its left side, and `>=` those of its right side, as
// ClickHouse's do in version 18.
fn overlooks_ends(dialect: Dialect) -> bool
    ensures { result ≡ overlooks_ends dialect }
{
    match dialect {
        Dialect::Postgres | Dialect::Sqlite | Dialect::DuckDb | Dialect::Spark => false,
        Dialect::ClickHouse => true,
    }
}

// The least or the greatest of two truth values, of which null is the middle one.
#[cycle(text)]
fn write_least<W: Write>(function: &str, operands: Children, f: &mut Formatter<W>) -> fmt::Result
    requires { length operands.nodes.now ≡ 2 }
    ensures { let cs = sqls_in operands.entry in WritesOnOk W.write_str_gives f.old result
        (least_sql function.now (get_or cs 0 []) (get_or cs 1 [])) f.new }
{
    write_least_opening(function, f)?;
    write_child(operands, 0, f)?;
    f.write_str(", 0.5), COALESCE(")?;
    write_child(operands, 1, f)?;
    f.write_str(", 0.5)), 0.5) > 0)")
}

fn write_least_opening<W: Write>(function: &str, f: &mut Formatter<W>) -> fmt::Result
    ensures { WritesOnOk W.write_str_gives f.old result (codes "(nullIf(" ++ (function.now ++ codes "(COALESCE(")) f.new }
{
    f.write_str("(nullIf(")?;
    f.write_str(function)?;
    f.write_str("(COALESCE(")
}

#[cycle(text)]
fn write_operator<W: Write>(sign: &str, operands: Children, f: &mut Formatter<W>) -> fmt::Result
    requires { length operands.nodes.now ≡ 2 }
    ensures { let cs = sqls_in operands.entry in WritesOnOk W.write_str_gives f.old result
        (operator_sql sign.now (get_or cs 0 []) (get_or cs 1 [])) f.new }
{
    f.write_str("(")?;
    write_child(operands, 0, f)?;
    write_sign(sign, f)?;
    write_child(operands, 1, f)?;
    f.write_str(")")
}

// The sign between spaces.
fn write_sign<W: Write>(sign: &str, f: &mut Formatter<W>) -> fmt::Result
    ensures { WritesOnOk W.write_str_gives f.old result (codes " " ++ (sign.now ++ codes " ")) f.new }
{
    f.write_str(" ")?;
    f.write_str(sign)?;
    f.write_str(" ")
}

// Arithmetic on numbers, none on other values.
#[cycle(text)]
fn write_computed<W: Write>(
    dtype: &DType,
    arithmetic: Arithmetic,
    operands: Children,
    f: &mut Formatter<W>,
) -> fmt::Result
    requires { length operands.nodes.now ≡ 2 }
    ensures { let cs = sqls_in operands.entry in WritesOnOk W.write_str_gives f.old result
        (computed_sql operands.entry.dialect (type_of dtype.now) arithmetic (get_or cs 0 []) (get_or cs 1 [])) f.new }
{
    match dtype {
        DType::Primitive(p, _) => write_arithmetic(*p, arithmetic, operands, f),
        _ => Ok(()),
    }
}

// Arithmetic that fails where the result isn't of the number type, if the engine can be made to.
#[cycle(text)]
fn write_arithmetic<W: Write>(
    p: PType,
    arithmetic: Arithmetic,
    operands: Children,
    f: &mut Formatter<W>,
) -> fmt::Result
    requires { length operands.nodes.now ≡ 2 }
    ensures { let cs = sqls_in operands.entry in WritesOnOk W.write_str_gives f.old result
        (arithmetic_sql operands.entry.dialect arithmetic p (get_or cs 0 []) (get_or cs 1 [])) f.new }
{
    let dialect = operands.dialect;
    let Some(check) = Check::of(dialect, arithmetic, p) else {
        return Ok(());
    };
    check.write_opening(dialect, arithmetic, p, f)?;
    write_child(operands, 0, f)?;
    f.write_str(check.separator(arithmetic))?;
    write_second(arithmetic, operands, f)?;
    check.write_end(dialect, p, f)
}

// The second operand. Where the engine's results by 0 are null, it is 1.5 in place of 0, by which they are floats.
#[cycle(text)]
fn write_second<W: Write>(
    arithmetic: Arithmetic,
    operands: Children,
    f: &mut Formatter<W>,
) -> fmt::Result
    requires { length operands.nodes.now ≡ 2 }
    ensures { WritesOnOk W.write_str_gives f.old result
        (second_sql operands.entry.dialect arithmetic (get_or (sqls_in operands.entry) 1 [])) f.new }
{
    if !forgives_zero(operands.dialect, arithmetic) {
        return write_child(operands, 1, f);
    }
    f.write_str("CAST(replace(' ' || ")?;
    write_child(operands, 1, f)?;
    f.write_str(" || ' ', ' 0 ', '1.5') AS NUMERIC)")
}

#[cycle(text)]
pub(super) fn write_not<W: Write>(children: Children, f: &mut Formatter<W>) -> fmt::Result
    requires { length children.nodes.now ≡ 1 }
    ensures { WritesOnOk W.write_str_gives f.old result (not_sql children.entry.dialect (get_or (sqls_in children.entry) 0 [])) f.new }
{
    let (before, behind) = not_words(children.dialect);
    f.write_str(before)?;
    write_child(children, 0, f)?;
    f.write_str(behind)
}

// What stands before a truth value that is turned round, and behind it. ClickHouse hands NOT on to its
// shards without the brackets around it, so there the value is compared with 0.
fn not_words(dialect: Dialect) -> (&'static str, &'static str)
    ensures { (c : List ℕ) → not_sql dialect c ≡ result.0.now ++ (c ++ result.1.now) }
{
    match dialect {
        Dialect::Postgres | Dialect::Sqlite | Dialect::DuckDb | Dialect::Spark => ("(NOT ", ")"),
        Dialect::ClickHouse => ("(", " = 0)"),
    }
}

// A value between two bounds: by one word where both are let in and nothing is lost or overlooked, else
// by two comparisons.
#[cycle(text)]
pub(super) fn write_between<W: Write>(
    options: BetweenOptions,
    children: Children,
    f: &mut Formatter<W>,
) -> fmt::Result
    requires { length children.nodes.now ≡ 3 }
    ensures { let cs = sqls_in children.entry in WritesOnOk W.write_str_gives f.old result
        (between_sql children.entry.dialect (has_text_first (trees_in children.entry)) (loses_bounds children.entry.dialect (trees_in children.entry)) (overlooks_operands children.entry.dialect (trees_in children.entry)) (is_strict options.lower_strict) (is_strict options.upper_strict)
        (get_or cs 0 []) (get_or cs 1 []) (get_or cs 2 [])) f.new }
{
    if loses_bounds(children) {
        return write_least_below(options, children, f);
    }
    if overlooks_operands(children) {
        return write_both(options, children, f);
    }
    match options.lower_strict {
        StrictComparison::NonStrict => match options.upper_strict {
            StrictComparison::NonStrict => write_from_to(children, f),
            StrictComparison::Strict => write_both(options, children, f),
        },
        StrictComparison::Strict => write_both(options, children, f),
    }
}

#[cycle(text)]
fn write_from_to<W: Write>(children: Children, f: &mut Formatter<W>) -> fmt::Result
    requires { length children.nodes.now ≡ 3 }
    ensures { let cs = sqls_in children.entry in WritesOnOk W.write_str_gives f.old result
        (codes "(" ++ (compared_sql children.entry.dialect (has_text_first (trees_in children.entry)) (get_or cs 0 []) ++ (range_sql (get_or cs 1 []) (get_or cs 2 []) ++ codes ")"))) f.new }
{
    f.write_str("(")?;
    write_compared(children, 0, f)?;
    write_range(children, f)?;
    f.write_str(")")
}

#[cycle(text)]
fn write_range<W: Write>(children: Children, f: &mut Formatter<W>) -> fmt::Result
    requires { length children.nodes.now ≡ 3 }
    ensures { let cs = sqls_in children.entry in WritesOnOk W.write_str_gives f.old result (range_sql (get_or cs 1 []) (get_or cs 2 [])) f.new }
{
    f.write_str(" BETWEEN ")?;
    write_child(children, 1, f)?;
    f.write_str(" AND ")?;
    write_child(children, 2, f)
}

#[cycle(text)]
fn write_both<W: Write>(
    options: BetweenOptions,
    children: Children,
    f: &mut Formatter<W>,
) -> fmt::Result
    requires { length children.nodes.now ≡ 3 }
    ensures { let cs = sqls_in children.entry in let is_text = has_text_first (trees_in children.entry) in
        let overlooks = overlooks_operands children.entry.dialect (trees_in children.entry) in WritesOnOk W.write_str_gives f.old result
        (both_sql (below_sql children.entry.dialect overlooks (is_strict options.lower_strict) (compared_sql children.entry.dialect is_text (get_or cs 1 [])) (get_or cs 0 []))
        (below_sql children.entry.dialect overlooks (is_strict options.upper_strict) (compared_sql children.entry.dialect is_text (get_or cs 0 [])) (get_or cs 2 []))) f.new }
{
    f.write_str("(")?;
    write_below(children, 1, options.lower_strict, 0, f)?;
    f.write_str(" AND ")?;
    write_below(children, 0, options.upper_strict, 2, f)?;
    f.write_str(")")
}

#[cycle(text)]
fn write_least_below<W: Write>(
    options: BetweenOptions,
    children: Children,
    f: &mut Formatter<W>,
) -> fmt::Result
    requires { length children.nodes.now ≡ 3 }
    ensures { let cs = sqls_in children.entry in let is_text = has_text_first (trees_in children.entry) in
        let overlooks = overlooks_operands children.entry.dialect (trees_in children.entry) in WritesOnOk W.write_str_gives f.old result
        (least_sql (codes "least") (below_sql children.entry.dialect overlooks (is_strict options.lower_strict) (compared_sql children.entry.dialect is_text (get_or cs 1 [])) (get_or cs 0 []))
        (below_sql children.entry.dialect overlooks (is_strict options.upper_strict) (compared_sql children.entry.dialect is_text (get_or cs 0 [])) (get_or cs 2 []))) f.new }
{
    write_least_opening("least", f)?;
    write_below(children, 1, options.lower_strict, 0, f)?;
    f.write_str(", 0.5), COALESCE(")?;
    write_below(children, 0, options.upper_strict, 2, f)?;
    f.write_str(", 0.5)), 0.5) > 0)")
}

// One of the children below another, or not above it.
#[cycle(text)]
fn write_below<W: Write>(
    children: Children,
    lower: usize,
    strict: StrictComparison,
    upper: usize,
    f: &mut Formatter<W>,
) -> fmt::Result
    requires lower { lower < length children.nodes.now }
    requires upper { upper < length children.nodes.now }
    ensures { let cs = sqls_in children.entry in WritesOnOk W.write_str_gives f.old result
        (below_sql children.entry.dialect (overlooks_operands children.entry.dialect (trees_in children.entry)) (is_strict strict)
        (compared_sql children.entry.dialect (has_text_first (trees_in children.entry)) (get_or cs lower [])) (get_or cs upper [])) f.new }
{
    if matches!(strict, StrictComparison::NonStrict) && overlooks_operands(children) {
        return write_turned(">", children, lower, upper, f);
    }
    write_compared(children, lower, f)?;
    write_sign(strict.sign(), f)?;
    write_child(children, upper, f)
}

// One of the children, with the engine's word for comparing bytes where the first is a text.
#[cycle(text)]
fn write_compared<W: Write>(children: Children, index: usize, f: &mut Formatter<W>) -> fmt::Result
    requires { index < length children.nodes.now }
    ensures { WritesOnOk W.write_str_gives f.old result
        (compared_sql children.entry.dialect (has_text_first (trees_in children.entry)) (get_or (sqls_in children.entry) index [])) f.new }
{
    write_child(children, index, f)?;
    if has_text_first(children.nodes) {
        f.write_str(collation(children.dialect))
    } else {
        Ok(())
    }
}

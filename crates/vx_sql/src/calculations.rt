// Arithmetic on whole numbers that fails where the source's faults.
ghost use Rattle.std.specs.Prelude.{◌≡◌, ◌++◌, codes};
ghost use Rattle.std.specs.Fmt.{WritesOnOk};
ghost use Rattle.vx_value.specs.Types.{is_signed};
ghost use Rattle.vx_fn.specs.Faults.{is_division};
ghost use Rattle.vx_sql.specs.declared.calculations.Check.TheVariants.{Narrowed, Recast};
ghost use Rattle.vx_sql.specs.Calculations.{wider_check, lower_check, postgres_check, sqlite_ends, sqlite_check, duckdb_check, spark_check, check_of, there_sql, back_sql, sign_sql, whole_quotient, given_sql, thrown_where, thrown_sql, before_result, amid_result, behind_result, forgives_zero};

use crate::Dialect;
use crate::literals::write_number;
use crate::types::number_word;
use std::fmt;
use std::fmt::{Formatter, Write};
use vx_dtype::PType;
use vx_floats::Arithmetic;

/// How the engine is made to refuse a result that isn't of the type.
#[derive(Clone, Copy)]
pub(crate) enum Check {
    /// It does so by itself, or each result is of the type.
    Own,
    /// Its type goes so far beyond ours: the result is moved to the ends of its type and back.
    Moved(i64),
    /// Its results become floats beyond its type, and such a float isn't read as a number.
    Floated,
    /// Both.
    MovedFloated(i64),
    /// Its type has no end: the result less 2 ^ 63 is made one of a type that ends there.
    Narrowed,
    /// It divides numbers of a type without an end by a function.
    Called,
    /// Its quotients are of a wider type, and made one of the type.
    Recast,
    /// Its results wrap or are of a wider type: a function throws where that is seen.
    Thrown,
}

impl Check {
    /// How the engine is made to refuse a result that isn't of the type, if it can be.
    pub(crate) fn of(dialect: Dialect, arithmetic: Arithmetic, p: PType) -> Option<Check>
        ensures { result ≡ check_of dialect arithmetic p }
    {
        match dialect {
            Dialect::Postgres => Some(postgres_check(arithmetic, p)),
            Dialect::Sqlite => Some(sqlite_check(arithmetic, p)),
            Dialect::DuckDb => duckdb_check(arithmetic),
            Dialect::Spark => spark_check(arithmetic, p),
            Dialect::ClickHouse => Some(Check::Thrown),
        }
    }

    /// Writes what stands before the operands.
    pub(crate) fn write_opening<W: Write>(
        self,
        dialect: Dialect,
        arithmetic: Arithmetic,
        p: PType,
        f: &mut Formatter<W>,
    ) -> fmt::Result
        ensures { WritesOnOk W.write_str_gives f.old result (before_result dialect arithmetic p self) f.new }
    {
        match self {
            Check::Own | Check::Moved(_) => f.write_str("("),
            Check::Floated => f.write_str("CAST(json(("),
            Check::MovedFloated(_) => f.write_str("(CAST(json(("),
            Check::Narrowed => f.write_str("CAST(CAST("),
            Check::Called => f.write_str("div("),
            Check::Recast => f.write_str("CAST("),
            Check::Thrown => write_throwing(arithmetic, number_word(dialect, p), f),
        }
    }

    /// What stands between them.
    pub(crate) fn separator(self, arithmetic: Arithmetic) -> &'static str
        ensures { result.now ≡ amid_result arithmetic self }
    {
        match self {
            Check::Called => ", ",
            Check::Recast => " div ",
            Check::Thrown => "], [",
            Check::Own
            | Check::Moved(_)
            | Check::Floated
            | Check::MovedFloated(_)
            | Check::Narrowed => sign(arithmetic),
        }
    }

    /// Writes what stands behind them.
    pub(crate) fn write_end<W: Write>(
        self,
        dialect: Dialect,
        p: PType,
        f: &mut Formatter<W>,
    ) -> fmt::Result
        ensures { WritesOnOk W.write_str_gives f.old result (behind_result dialect p self) f.new }
    {
        match self {
            Check::Own | Check::Called => f.write_str(")"),
            Check::Moved(k) => {
                write_there(dialect, p, k, f)?;
                write_back(dialect, p, k, f)?;
                f.write_str(")")
            }
            Check::Floated => f.write_str(READ_AGAIN),
            Check::MovedFloated(k) => {
                write_there(dialect, p, k, f)?;
                f.write_str(READ_AGAIN)?;
                write_back(dialect, p, k, f)?;
                f.write_str(")")
            }
            Check::Narrowed => write_narrowed(dialect, p, f),
            Check::Recast => write_recast(dialect, p, f),
            Check::Thrown => f.write_str("])[1]"),
        }
    }
}

// The text of a float has a point already, so that it is no number with another one behind it.
const READ_AGAIN: &str = ") || '.5') AS INTEGER)";

// PostgreSQL has no type of one byte, in which the least number by -1 is too great, and divides numbers without
// an end by a function.
fn postgres_check(arithmetic: Arithmetic, p: PType) -> Check
    ensures { result ≡ postgres_check arithmetic p }
{
    match (arithmetic, p) {
        (Arithmetic::Remainder, _) => Check::Own,
        (_, PType::I8) => Check::Moved(32_640),
        (Arithmetic::Sum | Arithmetic::Product, _) => wider_check(p),
        (Arithmetic::Difference, _) => lower_check(p),
        (Arithmetic::Quotient, PType::U64) => Check::Called,
        (Arithmetic::Quotient, _) => Check::Own,
    }
}

// A difference of numbers without a sign is moved to the least one of SQLite's, which are those of an `i64`. A
// quotient of such numbers is of the type, and so is a remainder.
fn sqlite_check(arithmetic: Arithmetic, p: PType) -> Check
    ensures { result ≡ sqlite_check arithmetic p }
{
    match arithmetic {
        Arithmetic::Difference if !is_signed(p) => Check::MovedFloated(i64::MIN),
        Arithmetic::Quotient if !is_signed(p) => Check::Floated,
        Arithmetic::Remainder => Check::Floated,
        Arithmetic::Sum | Arithmetic::Difference | Arithmetic::Product | Arithmetic::Quotient => {
            sqlite_ends(p)
        }
    }
}

// DuckDB's quotients and remainders by 0 are null.
fn duckdb_check(arithmetic: Arithmetic) -> Option<Check>
    ensures { result ≡ duckdb_check arithmetic }
{
    match arithmetic {
        Arithmetic::Sum | Arithmetic::Difference | Arithmetic::Product => Some(Check::Own),
        Arithmetic::Quotient | Arithmetic::Remainder => None,
    }
}

// Spark's quotients are those of an `i64`.
fn spark_check(arithmetic: Arithmetic, p: PType) -> Option<Check>
    ensures { result ≡ spark_check arithmetic p }
{
    match (arithmetic, p) {
        (Arithmetic::Sum | Arithmetic::Product, _) => Some(wider_check(p)),
        (Arithmetic::Difference, _) => Some(lower_check(p)),
        (Arithmetic::Quotient, PType::U64) => None,
        (Arithmetic::Quotient, _) => Some(Check::Recast),
        (Arithmetic::Remainder, _) => Some(Check::Own),
    }
}

// Of sums and products: in PostgreSQL and Spark, numbers without a sign stand in the next wider type, or in one
// without an end.
fn wider_check(p: PType) -> Check
    ensures { result ≡ wider_check p }
{
    match p {
        PType::U8 => Check::Moved(32_512),
        PType::U16 => Check::Moved(2_147_418_112),
        PType::U32 => Check::Moved(9_223_372_032_559_808_512),
        PType::U64 => Check::Narrowed,
        PType::I8 | PType::I16 | PType::I32 | PType::I64 => Check::Own,
    }
}

// Of differences of such numbers, which leave their type below 0 alone.
fn lower_check(p: PType) -> Check
    ensures { result ≡ lower_check p }
{
    match p {
        PType::U8 => Check::Moved(-32_768),
        PType::U16 => Check::Moved(-2_147_483_648),
        PType::U32 => Check::Moved(i64::MIN),
        PType::U64 => Check::Narrowed,
        PType::I8 | PType::I16 | PType::I32 | PType::I64 => Check::Own,
    }
}

fn sqlite_ends(p: PType) -> Check
    ensures { result ≡ sqlite_ends p }
{
    match p {
        PType::U8 => Check::MovedFloated(9_223_372_036_854_775_552),
        PType::U16 => Check::MovedFloated(9_223_372_036_854_710_272),
        PType::U32 => Check::MovedFloated(9_223_372_032_559_808_512),
        PType::U64 => Check::Own,
        PType::I8 => Check::MovedFloated(9_223_372_036_854_775_680),
        PType::I16 => Check::MovedFloated(9_223_372_036_854_743_040),
        PType::I32 => Check::MovedFloated(9_223_372_034_707_292_160),
        PType::I64 => Check::Floated,
    }
}

// Writes how a result is moved so far and back, and where its numbers have a sign as far down.
fn write_there<W: Write>(dialect: Dialect, p: PType, k: i64, f: &mut Formatter<W>) -> fmt::Result
    ensures { WritesOnOk W.write_str_gives f.old result (there_sql dialect p k) f.new }
{
    f.write_str(" + ")?;
    write_number(dialect, p, i128::from(k), f)?;
    f.write_str(" - ")?;
    write_number(dialect, p, i128::from(k), f)?;
    if !is_signed(p) {
        return Ok(());
    }
    f.write_str(" - ")?;
    write_number(dialect, p, i128::from(k), f)
}

// Writes how it is then moved to where it was.
fn write_back<W: Write>(dialect: Dialect, p: PType, k: i64, f: &mut Formatter<W>) -> fmt::Result
    ensures { WritesOnOk W.write_str_gives f.old result (back_sql dialect p k) f.new }
{
    if !is_signed(p) {
        return Ok(());
    }
    f.write_str(" + ")?;
    write_number(dialect, p, i128::from(k), f)
}

fn sign(arithmetic: Arithmetic) -> &'static str
    ensures { result.now ≡ sign_sql arithmetic }
{
    match arithmetic {
        Arithmetic::Sum => " + ",
        Arithmetic::Difference => " - ",
        Arithmetic::Product => " * ",
        Arithmetic::Quotient => " / ",
        Arithmetic::Remainder => " % ",
    }
}

// Writes a function of two numbers, each the only one of an array, which throws where the result isn't one of the
// type. So neither is written twice.
fn write_throwing<W: Write>(arithmetic: Arithmetic, word: &str, f: &mut Formatter<W>) -> fmt::Result
    ensures { WritesOnOk W.write_str_gives f.old result (thrown_sql arithmetic word.now) f.new }
{
    write_around("arrayMap((a, b) -> to", word, "(", f)?;
    write_given(arithmetic, word, f)?;
    write_throw(arithmetic, word, f)
}

// Writes the throw, which is 0 where there is none, and what opens the first array.
fn write_throw<W: Write>(arithmetic: Arithmetic, word: &str, f: &mut Formatter<W>) -> fmt::Result
    ensures { WritesOnOk W.write_str_gives f.old result
        (codes " + throwIf(COALESCE(" ++ (thrown_where arithmetic word.now ++ codes ", 0))), [")) f.new }
{
    f.write_str(" + throwIf(COALESCE(")?;
    write_thrown_where(arithmetic, word, f)?;
    f.write_str(", 0))), [")
}

// Writes what the function gives, where it doesn't throw.
fn write_given<W: Write>(arithmetic: Arithmetic, word: &str, f: &mut Formatter<W>) -> fmt::Result
    ensures { WritesOnOk W.write_str_gives f.old result (given_sql arithmetic word.now) f.new }
{
    match arithmetic {
        Arithmetic::Sum => f.write_str("a + b"),
        Arithmetic::Difference => f.write_str("a - b"),
        Arithmetic::Product => f.write_str("a * b"),
        Arithmetic::Quotient => write_quotient(word, f),
        Arithmetic::Remainder => {
            f.write_str("(a - ")?;
            write_quotient(word, f)?;
            f.write_str(" * b) * (b <> -1)")
        }
    }
}

// Writes the quotient of numbers of that type, as a literal alone isn't: 0 by 0, and of the least number by -1.
fn write_quotient<W: Write>(word: &str, f: &mut Formatter<W>) -> fmt::Result
    ensures { WritesOnOk W.write_str_gives f.old result (whole_quotient word.now) f.new }
{
    write_around("intDivOrZero(to", word, "(a), to", f)?;
    write_around("", word, "(b))", f)
}

// Writes where it throws: a sum that wraps is below a though b isn't below 0, or the other way round; so is a
// difference above it; a product that wraps is far from that of floats; what is left of a isn't below b; and b is 0.
fn write_thrown_where<W: Write>(
    arithmetic: Arithmetic,
    word: &str,
    f: &mut Formatter<W>,
) -> fmt::Result
    ensures { WritesOnOk W.write_str_gives f.old result (thrown_where arithmetic word.now) f.new }
{
    match arithmetic {
        Arithmetic::Sum => write_around("(b < 0) <> (to", word, "(a + b) < a)", f),
        Arithmetic::Difference => write_around("(b < 0) <> (to", word, "(a - b) > a)", f),
        Arithmetic::Product => {
            write_around("abs(toFloat64(a) * b - to", word, "(a * b)) > abs(to", f)?;
            write_around("", word, "(a * b)) / 2", f)
        }
        Arithmetic::Quotient => {
            f.write_str("abs(a - ")?;
            write_quotient(word, f)?;
            f.write_str(" * b) >= abs(b)")
        }
        Arithmetic::Remainder => f.write_str("a * 0 = b"),
    }
}

fn write_around<W: Write>(
    before: &str,
    word: &str,
    behind: &str,
    f: &mut Formatter<W>,
) -> fmt::Result
    ensures { WritesOnOk W.write_str_gives f.old result (before.now ++ (word.now ++ behind.now)) f.new }
{
    f.write_str(before)?;
    f.write_str(word)?;
    f.write_str(behind)
}

fn write_narrowed<W: Write>(dialect: Dialect, p: PType, f: &mut Formatter<W>) -> fmt::Result
    ensures { WritesOnOk W.write_str_gives f.old result (behind_result dialect p Narrowed) f.new }
{
    f.write_str(" - 9223372036854775808 AS ")?;
    f.write_str(number_word(dialect, PType::I64))?;
    f.write_str(") + 9223372036854775808 AS ")?;
    f.write_str(number_word(dialect, p))?;
    f.write_str(")")
}

fn write_recast<W: Write>(dialect: Dialect, p: PType, f: &mut Formatter<W>) -> fmt::Result
    ensures { WritesOnOk W.write_str_gives f.old result (behind_result dialect p Recast) f.new }
{
    write_around(" AS ", number_word(dialect, p), ")", f)
}

/// Whether the engine's results by 0 are null: SQLite's are.
pub(crate) fn forgives_zero(dialect: Dialect, arithmetic: Arithmetic) -> bool
    ensures { result ≡ forgives_zero dialect arithmetic }
{
    match dialect {
        Dialect::Sqlite => is_division(arithmetic),
        Dialect::Postgres | Dialect::DuckDb | Dialect::Spark | Dialect::ClickHouse => false,
    }
}

fn is_division(arithmetic: Arithmetic) -> bool
    ensures { result ≡ is_division arithmetic }
{
    matches!(arithmetic, Arithmetic::Quotient | Arithmetic::Remainder)
}

fn is_signed(p: PType) -> bool
    ensures { result ≡ is_signed p }
{
    match p {
        PType::U8 | PType::U16 | PType::U32 | PType::U64 => false,
        PType::I8 | PType::I16 | PType::I32 | PType::I64 => true,
    }
}

// Literals.
ghost use Rattle.std.specs.Prelude.{◌≡◌, ◌++◌, pos, codes};
ghost use Rattle.std.specs.Fmt.{WritesOnOk};
ghost use Rattle.std.specs.List.{flat_map};
ghost use Rattle.vx_dtype.specs.Timestamps.{zone_name};
ghost use Rattle.vx_value.specs.Types.{LogicalType};
ghost use Rattle.vx_value.specs.ValueTexts.{hex_byte};
ghost use Rattle.vx_value.specs.Views.{type_of, value_of, data_view};
ghost use Rattle.vx_value.specs.Texts.{with_commas};
ghost use Rattle.vx_sql.specs.Dialects.{cast_text, decimal_type, type_word};
ghost use Rattle.vx_sql.specs.Literals.{literal_sql, null_sql, truth_sql, is_by_itself, number_sql, float_sql, decimal_sql, day_sql, instant_sql, octets_sql, byte_escape, items_sql};

use crate::Dialect;
use crate::quotes::write_text;
use crate::types::{float_word, number_word, write_decimal_type, write_instant_type, write_type};
use std::fmt;
use std::fmt::{Display, Formatter, Write};
use vx_dtype::{DType, DecimalType, FloatType, PType, TimestampType, separator};
use vx_floats::Float;
use vx_literals::{write_day, write_decimal, write_instant};
use vx_value::{Scalar, Value};

/// Writes the value, none of a list or a struct.
pub(crate) fn write_literal<W: Write>(
    dialect: Dialect,
    scalar: &Scalar,
    f: &mut Formatter<W>,
) -> fmt::Result
    ensures { WritesOnOk W.write_str_gives f.old result (literal_sql dialect scalar.now.value scalar.now.type) f.new }
{
    write_value(dialect, scalar.value(), scalar.dtype(), f)
}

fn write_value<W: Write>(
    dialect: Dialect,
    value: &Value,
    dtype: &DType,
    f: &mut Formatter<W>,
) -> fmt::Result
    ensures { WritesOnOk W.write_str_gives f.old result (literal_sql dialect (value_of value.now) (type_of dtype.now)) f.new }
{
    match value {
        Value::Null => write_null(dialect, dtype, f),
        Value::Bool(b) => f.write_str(truth_word(dialect, *b)),
        Value::Int(number) => match dtype {
            DType::Primitive(p, _) => write_number(dialect, *p, *number, f),
            DType::Decimal(decimal, _) => write_exact(dialect, *decimal, *number, f),
            DType::Date(_) => write_date(*number, f),
            DType::Timestamp(timestamp, _) => write_moment(dialect, timestamp, *number, f),
            _ => Ok(()),
        },
        Value::Float(number) => match dtype {
            DType::Float(format, _) => write_float(dialect, *format, *number, f),
            _ => Ok(()),
        },
        Value::Utf8(text) => write_text(dialect, text.as_str(), f),
        Value::Binary(bytes) => write_octets(dialect, bytes.as_slice(), f),
        Value::List(_) | Value::Struct(_) => Ok(()),
    }
}

/// Writes values of that type, with commas between them.
pub(crate) fn write_items<W: Write>(
    dialect: Dialect,
    items: &[Value],
    dtype: &DType,
    f: &mut Formatter<W>,
) -> fmt::Result
    ensures { WritesOnOk W.write_str_gives f.old result (with_commas (items_sql dialect (data_view items.now) (type_of dtype.now))) f.new }
{
    for i in 0..items.len() {
        f.write_str(separator(i))?;
        write_value(dialect, &items[i], dtype, f)?;
    }
    Ok(())
}

/// Writes a null of that type, which ClickHouse has to be told that it may be null.
pub(crate) fn write_null<W: Write>(
    dialect: Dialect,
    dtype: &DType,
    f: &mut Formatter<W>,
) -> fmt::Result
    ensures { WritesOnOk W.write_str_gives f.old result (null_sql dialect (type_of dtype.now)) f.new }
{
    let (before, behind) = null_words(dialect);
    f.write_str(before)?;
    write_type(dialect, dtype, f)?;
    f.write_str(behind)
}

// What stands before the type of a null, and behind it.
fn null_words(dialect: Dialect) -> (&'static str, &'static str)
    ensures { (t : LogicalType) → null_sql dialect t ≡ result.0.now ++ (type_word dialect t ++ result.1.now) }
{
    match dialect {
        Dialect::Postgres | Dialect::Sqlite | Dialect::DuckDb | Dialect::Spark => {
            ("CAST(NULL AS ", ")")
        }
        Dialect::ClickHouse => ("CAST(NULL AS Nullable(", "))"),
    }
}

/// A truth value.
pub(crate) fn truth_word(dialect: Dialect, b: bool) -> &'static str
    ensures { result.now ≡ truth_sql dialect b }
{
    match dialect {
        Dialect::Sqlite | Dialect::ClickHouse => { if b { "1" } else { "0" } }
        Dialect::Postgres | Dialect::DuckDb | Dialect::Spark => { if b { "TRUE" } else { "FALSE" } }
    }
}

// Whether the digits alone are a number of that type: all are of SQLite's, and else those of an `i32`.
fn is_by_itself(dialect: Dialect, p: PType) -> bool
    ensures { result ≡ is_by_itself dialect p }
{
    match dialect {
        Dialect::Sqlite => true,
        Dialect::Postgres | Dialect::DuckDb | Dialect::Spark | Dialect::ClickHouse => {
            matches!(p, PType::I32)
        }
    }
}

/// Writes the number as one of the engine's type, which arithmetic relies on. The sign of one below zero
/// would be read with what stands before it.
pub(crate) fn write_number<W: Write>(
    dialect: Dialect,
    p: PType,
    number: i128,
    f: &mut Formatter<W>,
) -> fmt::Result
    ensures { WritesOnOk W.write_str_gives f.old result (number_sql dialect p number) f.new }
{
    if number >= 0 && is_by_itself(dialect, p) {
        return number.fmt(f);
    }
    f.write_str("CAST(")?;
    number.fmt(f)?;
    f.write_str(" AS ")?;
    f.write_str(number_word(dialect, p))?;
    f.write_str(")")
}

// Writes a floating-point number as one of the engine's type of that format, by its text.
fn write_float<W: Write>(
    dialect: Dialect,
    format: FloatType,
    number: Float,
    f: &mut Formatter<W>,
) -> fmt::Result
    ensures { WritesOnOk W.write_str_gives f.old result (float_sql dialect format number) f.new }
{
    f.write_str("CAST('")?;
    number.fmt(f)?;
    f.write_str("' AS ")?;
    f.write_str(float_word(dialect, format))?;
    f.write_str(")")
}

// Writes a decimal as one of the engine's type, by its digits.
fn write_exact<W: Write>(
    dialect: Dialect,
    decimal: DecimalType,
    units: i128,
    f: &mut Formatter<W>,
) -> fmt::Result
    ensures { WritesOnOk W.write_str_gives f.old result (decimal_sql dialect decimal.precision decimal.scale units) f.new }
{
    f.write_str("CAST('")?;
    write_decimal(units, decimal.scale(), f)?;
    f.write_str("' AS ")?;
    write_decimal_type(dialect, decimal, f)?;
    f.write_str(")")
}

// Writes a day of the years 1 to 9999.
fn write_date<W: Write>(day: i128, f: &mut Formatter<W>) -> fmt::Result
    ensures { WritesOnOk W.write_str_gives f.old result (day_sql day) f.new }
{
    f.write_str("DATE '")?;
    write_day(day, f)?;
    f.write_str("'")
}

// Writes an instant of the years 1 to 9999 as one of the engine's type, by its text.
fn write_moment<W: Write>(
    dialect: Dialect,
    timestamp: &TimestampType,
    instant: i128,
    f: &mut Formatter<W>,
) -> fmt::Result
    ensures { WritesOnOk W.write_str_gives f.old result (instant_sql dialect timestamp.now.unit (zone_name timestamp.now) instant) f.new }
{
    f.write_str("CAST('")?;
    write_instant(instant, timestamp, f)?;
    f.write_str("' AS ")?;
    write_instant_type(dialect, timestamp, f)?;
    f.write_str(")")
}

// Writes bytes by their digits.
fn write_octets<W: Write>(dialect: Dialect, bytes: &[u8], f: &mut Formatter<W>) -> fmt::Result
    ensures { WritesOnOk W.write_str_gives f.old result (octets_sql dialect bytes.now) f.new }
{
    match dialect {
        Dialect::Postgres => {
            f.write_str("decode('")?;
            write_digits(bytes, f)?;
            f.write_str("', 'hex')")
        }
        Dialect::DuckDb => {
            f.write_str("CAST('")?;
            write_escapes(bytes, f)?;
            f.write_str("' AS BLOB)")
        }
        Dialect::ClickHouse => {
            f.write_str("unhex('")?;
            write_digits(bytes, f)?;
            f.write_str("')")
        }
        Dialect::Sqlite | Dialect::Spark => {
            f.write_str("X'")?;
            write_digits(bytes, f)?;
            f.write_str("'")
        }
    }
}

// Writes two digits a byte.
fn write_digits<W: Write>(bytes: &[u8], f: &mut Formatter<W>) -> fmt::Result
    ensures { WritesOnOk W.write_str_gives f.old result (flat_map hex_byte bytes.now) f.new }
{
    for b in bytes {
        write_byte(*b, f)?;
    }
    Ok(())
}

// Writes two digits behind `\x` a byte.
fn write_escapes<W: Write>(bytes: &[u8], f: &mut Formatter<W>) -> fmt::Result
    ensures { WritesOnOk W.write_str_gives f.old result (flat_map byte_escape bytes.now) f.new }
{
    for b in bytes {
        write_escape(*b, f)?;
    }
    Ok(())
}

fn write_escape<W: Write>(b: u8, f: &mut Formatter<W>) -> fmt::Result
    ensures { WritesOnOk W.write_str_gives f.old result (byte_escape b) f.new }
{
    f.write_str("\\x")?;
    write_byte(b, f)
}

fn write_byte<W: Write>(b: u8, f: &mut Formatter<W>) -> fmt::Result
    ensures { WritesOnOk W.write_str_gives f.old result (hex_byte b) f.new }
{
    write!(f, "{b:02x}")
}

// What the engines call their types.
ghost use Rattle.std.specs.Fmt.{WritesOnOk};
ghost use Rattle.std.specs.Prelude.{◌≡◌, option_map};
ghost use Rattle.vx_dtype.specs.Timestamps.{zone_name};
ghost use Rattle.vx_value.specs.Views.{type_of};
ghost use Rattle.vx_sql.specs.Dialects.{postgres_word, duckdb_word, spark_word, clickhouse_word, number_word, truth_word, text_word, octets_word, float_word, date_word, decimal_word, decimal_type, clock_word, zoned_word, instant_word, instant_type, type_word, collation, has_days, has_decimals, has_floats, has_numbers, has_parts, has_type, makes_structs};

use crate::Dialect;
use std::fmt;
use std::fmt::{Display, Formatter, Write};
use vx_dtype::{DType, DecimalType, FloatType, PType, TimeUnit, TimestampType};

/// Writes the engine's type of such values: none of lists and structs.
pub(crate) fn write_type<W: Write>(
    dialect: Dialect,
    dtype: &DType,
    f: &mut Formatter<W>,
) -> fmt::Result
    ensures { WritesOnOk W.write_str_gives f.old result (type_word dialect (type_of dtype.now)) f.new }
{
    match dtype {
        DType::Bool(_) => f.write_str(truth_word(dialect)),
        DType::Primitive(p, _) => f.write_str(number_word(dialect, *p)),
        DType::Decimal(decimal, _) => write_decimal_type(dialect, *decimal, f),
        DType::Date(_) => f.write_str(date_word(dialect)),
        DType::Utf8(_) => f.write_str(text_word(dialect)),
        DType::Binary(_) => f.write_str(octets_word(dialect)),
        DType::Timestamp(timestamp, _) => write_instant_type(dialect, timestamp, f),
        DType::Float(format, _) => f.write_str(float_word(dialect, *format)),
        DType::List(..) | DType::FixedSizeList(..) | DType::Struct(..) => Ok(()),
    }
}

/// Writes the engine's type of such decimals.
pub(crate) fn write_decimal_type<W: Write>(
    dialect: Dialect,
    decimal: DecimalType,
    f: &mut Formatter<W>,
) -> fmt::Result
    ensures { WritesOnOk W.write_str_gives f.old result (decimal_type dialect decimal.precision decimal.scale) f.new }
{
    f.write_str(decimal_word(dialect))?;
    f.write_str("(")?;
    decimal.precision().fmt(f)?;
    f.write_str(", ")?;
    decimal.scale().fmt(f)?;
    f.write_str(")")
}

fn decimal_word(dialect: Dialect) -> &'static str
    ensures { result.now ≡ decimal_word dialect }
{
    match dialect {
        Dialect::Postgres => "numeric",
        Dialect::DuckDb | Dialect::Spark => "DECIMAL",
        Dialect::Sqlite | Dialect::ClickHouse => "",
    }
}

/// The engine's type of floating-point numbers of that format, if it has ours.
pub(crate) fn float_word(dialect: Dialect, format: FloatType) -> &'static str
    ensures { result.now ≡ float_word dialect format }
{
    match (dialect, format) {
        (Dialect::Postgres, FloatType::F32) => "real",
        (Dialect::Postgres, FloatType::F64) => "double precision",
        (Dialect::DuckDb | Dialect::Spark, FloatType::F32) => "FLOAT",
        (Dialect::DuckDb | Dialect::Spark, FloatType::F64) => "DOUBLE",
        (Dialect::Sqlite | Dialect::ClickHouse, _) => "",
    }
}

fn date_word(dialect: Dialect) -> &'static str
    ensures { result.now ≡ date_word dialect }
{
    match dialect {
        Dialect::Postgres => "date",
        Dialect::DuckDb | Dialect::Spark => "DATE",
        Dialect::Sqlite | Dialect::ClickHouse => "",
    }
}

/// Writes the engine's type of such instants, if it has them.
pub(crate) fn write_instant_type<W: Write>(
    dialect: Dialect,
    timestamp: &TimestampType,
    f: &mut Formatter<W>,
) -> fmt::Result
    ensures { WritesOnOk W.write_str_gives f.old result (instant_type dialect timestamp.now.unit (zone_name timestamp.now)) f.new }
{
    match instant_word(dialect, timestamp) {
        Some(word) => f.write_str(word),
        None => Ok(()),
    }
}

// The engine's type of such instants, if it has them: an instant is the same in each zone.
fn instant_word(dialect: Dialect, timestamp: &TimestampType) -> Option<&'static str>
    ensures { option_map (λ w. w.now) result ≡ instant_word dialect timestamp.now.unit (zone_name timestamp.now) }
{
    match &timestamp.zone {
        None => clock_word(dialect, timestamp.unit),
        Some(_) => zoned_word(dialect, timestamp.unit),
    }
}

// The same of those without a zone: PostgreSQL and Spark have no billionths of a second, and Spark microseconds alone.
fn clock_word(dialect: Dialect, unit: TimeUnit) -> Option<&'static str>
    ensures { option_map (λ w. w.now) result ≡ clock_word dialect unit }
{
    match dialect {
        Dialect::Postgres => match unit {
            TimeUnit::Seconds => Some("timestamp(0)"),
            TimeUnit::Milliseconds => Some("timestamp(3)"),
            TimeUnit::Microseconds => Some("timestamp(6)"),
            TimeUnit::Nanoseconds => None,
        },
        Dialect::DuckDb => match unit {
            TimeUnit::Seconds => Some("TIMESTAMP_S"),
            TimeUnit::Milliseconds => Some("TIMESTAMP_MS"),
            TimeUnit::Microseconds => Some("TIMESTAMP"),
            TimeUnit::Nanoseconds => Some("TIMESTAMP_NS"),
        },
        Dialect::Spark => match unit {
            TimeUnit::Microseconds => Some("TIMESTAMP_NTZ"),
            TimeUnit::Seconds | TimeUnit::Milliseconds | TimeUnit::Nanoseconds => None,
        },
        Dialect::Sqlite | Dialect::ClickHouse => None,
    }
}

// The same of those with one, of which DuckDB has microseconds alone, too.
fn zoned_word(dialect: Dialect, unit: TimeUnit) -> Option<&'static str>
    ensures { option_map (λ w. w.now) result ≡ zoned_word dialect unit }
{
    match dialect {
        Dialect::Postgres => match unit {
            TimeUnit::Seconds => Some("timestamptz(0)"),
            TimeUnit::Milliseconds => Some("timestamptz(3)"),
            TimeUnit::Microseconds => Some("timestamptz(6)"),
            TimeUnit::Nanoseconds => None,
        },
        Dialect::DuckDb => match unit {
            TimeUnit::Microseconds => Some("TIMESTAMPTZ"),
            TimeUnit::Seconds | TimeUnit::Milliseconds | TimeUnit::Nanoseconds => None,
        },
        Dialect::Spark => match unit {
            TimeUnit::Microseconds => Some("TIMESTAMP_LTZ"),
            TimeUnit::Seconds | TimeUnit::Milliseconds | TimeUnit::Nanoseconds => None,
        },
        Dialect::Sqlite | Dialect::ClickHouse => None,
    }
}

/// The engine's number type, which in SQLite is one for all.
pub(crate) fn number_word(dialect: Dialect, p: PType) -> &'static str
    ensures { result.now ≡ number_word dialect p }
{
    match dialect {
        Dialect::Postgres => postgres_word(p),
        Dialect::Sqlite => "INTEGER",
        Dialect::DuckDb => duckdb_word(p),
        Dialect::Spark => spark_word(p),
        Dialect::ClickHouse => clickhouse_word(p),
    }
}

// PostgreSQL's narrowest type that has all numbers of that type.
fn postgres_word(p: PType) -> &'static str
    ensures { result.now ≡ postgres_word p }
{
    match p {
        PType::U8 | PType::I8 | PType::I16 => "smallint",
        PType::U16 | PType::I32 => "integer",
        PType::U32 | PType::I64 => "bigint",
        PType::U64 => "numeric",
    }
}

// DuckDB's type of the same numbers.
fn duckdb_word(p: PType) -> &'static str
    ensures { result.now ≡ duckdb_word p }
{
    match p {
        PType::U8 => "UTINYINT",
        PType::U16 => "USMALLINT",
        PType::U32 => "UINTEGER",
        PType::U64 => "UBIGINT",
        PType::I8 => "TINYINT",
        PType::I16 => "SMALLINT",
        PType::I32 => "INTEGER",
        PType::I64 => "BIGINT",
    }
}

// Spark's narrowest type that has all numbers of that type.
fn spark_word(p: PType) -> &'static str
    ensures { result.now ≡ spark_word p }
{
    match p {
        PType::I8 => "TINYINT",
        PType::U8 | PType::I16 => "SMALLINT",
        PType::U16 | PType::I32 => "INT",
        PType::U32 | PType::I64 => "BIGINT",
        PType::U64 => "DECIMAL(20,0)",
    }
}

// ClickHouse's type of the same numbers.
fn clickhouse_word(p: PType) -> &'static str
    ensures { result.now ≡ clickhouse_word p }
{
    match p {
        PType::U8 => "UInt8",
        PType::U16 => "UInt16",
        PType::U32 => "UInt32",
        PType::U64 => "UInt64",
        PType::I8 => "Int8",
        PType::I16 => "Int16",
        PType::I32 => "Int32",
        PType::I64 => "Int64",
    }
}

fn truth_word(dialect: Dialect) -> &'static str
    ensures { result.now ≡ truth_word dialect }
{
    match dialect {
        Dialect::Postgres => "boolean",
        Dialect::Sqlite => "INTEGER",
        Dialect::DuckDb | Dialect::Spark => "BOOLEAN",
        Dialect::ClickHouse => "UInt8",
    }
}

fn text_word(dialect: Dialect) -> &'static str
    ensures { result.now ≡ text_word dialect }
{
    match dialect {
        Dialect::Postgres => "text",
        Dialect::Sqlite => "TEXT",
        Dialect::DuckDb => "VARCHAR",
        Dialect::Spark => "STRING",
        Dialect::ClickHouse => "String",
    }
}

fn octets_word(dialect: Dialect) -> &'static str
    ensures { result.now ≡ octets_word dialect }
{
    match dialect {
        Dialect::Postgres => "bytea",
        Dialect::Sqlite | Dialect::DuckDb => "BLOB",
        Dialect::Spark => "BINARY",
        Dialect::ClickHouse => "String",
    }
}

/// What makes the engine compare texts by their bytes, if it has to be told.
pub(crate) fn collation(dialect: Dialect) -> &'static str
    ensures { result.now ≡ collation dialect }
{
    match dialect {
        Dialect::Postgres => " COLLATE \"C\"",
        Dialect::Sqlite => " COLLATE BINARY",
        Dialect::DuckDb | Dialect::Spark | Dialect::ClickHouse => "",
    }
}

/// Whether the engine has such values as ours.
pub(crate) fn has_type(dialect: Dialect, dtype: &DType) -> bool
    ensures { result ≡ has_type dialect (type_of dtype.now) }
{
    match dtype {
        DType::Bool(_) | DType::Utf8(_) | DType::Binary(_) => true,
        DType::Primitive(p, _) => has_numbers(dialect, *p),
        DType::Decimal(..) => has_decimals(dialect),
        DType::Date(_) => has_days(dialect),
        DType::Timestamp(timestamp, _) => instant_word(dialect, timestamp).is_some(),
        DType::Float(..) => has_floats(dialect),
        DType::List(..) | DType::FixedSizeList(..) | DType::Struct(..) => has_parts(dialect),
    }
}

/// Whether the engine has our floating-point numbers, but that it takes -0 and 0 for one: SQLite has no NaN,
/// and in ClickHouse none is equal to another.
pub fn has_floats(dialect: Dialect) -> bool
    ensures { result ≡ has_floats dialect }
{
    match dialect {
        Dialect::Sqlite | Dialect::ClickHouse => false,
        Dialect::Postgres | Dialect::DuckDb | Dialect::Spark => true,
    }
}

/// Whether the engine has our days: SQLite has none, and ClickHouse fewer.
pub fn has_days(dialect: Dialect) -> bool
    ensures { result ≡ has_days dialect }
{
    match dialect {
        Dialect::Sqlite | Dialect::ClickHouse => false,
        Dialect::Postgres | Dialect::DuckDb | Dialect::Spark => true,
    }
}

/// Whether the engine has our decimals: SQLite has none, and ClickHouse has them by a setting.
pub fn has_decimals(dialect: Dialect) -> bool
    ensures { result ≡ has_decimals dialect }
{
    match dialect {
        Dialect::Sqlite | Dialect::ClickHouse => false,
        Dialect::Postgres | Dialect::DuckDb | Dialect::Spark => true,
    }
}

// Whether the engine has all numbers of the type: SQLite has none from 2 ^ 63 on.
fn has_numbers(dialect: Dialect, p: PType) -> bool
    ensures { result ≡ has_numbers dialect p }
{
    match dialect {
        Dialect::Sqlite => !matches!(p, PType::U64),
        Dialect::Postgres | Dialect::DuckDb | Dialect::Spark | Dialect::ClickHouse => true,
    }
}

// Whether the engine has lists and structs: SQLite has none, and ClickHouse none that may be null.
fn has_parts(dialect: Dialect) -> bool
    ensures { result ≡ has_parts dialect }
{
    match dialect {
        Dialect::Sqlite | Dialect::ClickHouse => false,
        Dialect::Postgres | Dialect::DuckDb | Dialect::Spark => true,
    }
}

/// Whether the engine makes structs of values.
pub(crate) fn makes_structs(dialect: Dialect) -> bool
    ensures { result ≡ makes_structs dialect }
{
    match dialect {
        Dialect::Postgres | Dialect::Sqlite | Dialect::ClickHouse => false,
        Dialect::DuckDb | Dialect::Spark => true,
    }
}

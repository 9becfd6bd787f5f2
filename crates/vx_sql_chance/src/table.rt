// The engine's table that has the rows, told without the texts of `vx_sql`.
use crate::kinds::{Kind, Measure, has_measures, has_pairs};
use std::alloc::{AllocError, Global};
use std::fmt::Display;
use vx_dtype::FieldName;
use vx_floats::Float;
use vx_sql::Dialect;
use vx_value::Value;

/// The statements that make the table and fill it: each kind has two columns, the second without null.
pub fn push_table(
    alloc: Global,
    dialect: Dialect,
    kinds: &[Kind],
    names: &[FieldName],
    rows: &[Value],
    out: &mut String,
) -> Result<(), AllocError> {
    if has_pairs(dialect) {
        out.push_str("CREATE TYPE pair AS (f integer, g text);\n")?;
    }
    out.push_str("CREATE TABLE t (\"row\" integer")?;
    for (i, name) in names.iter().enumerate() {
        if let Some(kind) = kinds.get(i / 2) {
            out.push_str(", ")?;
            push_quoted(name, out)?;
            push_column_type(alloc, dialect, *kind, i % 2 == 0, out)?;
        }
    }
    out.push_str(match dialect {
        Dialect::ClickHouse => ") ENGINE = Memory;\n",
        Dialect::Postgres | Dialect::Sqlite | Dialect::DuckDb | Dialect::Spark => ");\n",
    })?;
    for (i, row) in rows.iter().enumerate() {
        push_shown(alloc, &format_args!("INSERT INTO t VALUES ({i}"), out)?;
        push_row(alloc, dialect, kinds, row, out)?;
        out.push_str(");\n")?;
    }
    Ok(())
}

fn push_quoted(name: &FieldName, out: &mut String) -> Result<(), AllocError> {
    out.push('"')?;
    for c in name.as_str().chars() {
        if c == '"' {
            out.push('"')?;
        }
        out.push(c)?;
    }
    out.push('"')
}

// The type of a column: all but ClickHouse's may have nulls.
fn push_column_type(
    alloc: Global,
    dialect: Dialect,
    kind: Kind,
    is_nullable: bool,
    out: &mut String,
) -> Result<(), AllocError> {
    let word = kind.column_type(dialect);
    match dialect {
        Dialect::ClickHouse if is_nullable => {
            push_shown(alloc, &format_args!(" Nullable({word})"), out)
        }
        _ => push_shown(alloc, &format_args!(" {word}"), out),
    }
}

fn push_row(
    alloc: Global,
    dialect: Dialect,
    kinds: &[Kind],
    row: &Value,
    out: &mut String,
) -> Result<(), AllocError> {
    let Value::Struct(values) = row else {
        return Ok(());
    };
    for (i, value) in values.iter().enumerate() {
        out.push_str(", ")?;
        match (kinds.get(i / 2), value) {
            (Some(Kind::Measure(_)), Value::Int(units)) if !has_measures(dialect) => {
                push_shown(alloc, &format_args!("'{units}'"), out)?
            }
            (Some(Kind::Measure(_)), Value::Float(number)) if !has_measures(dialect) => {
                push_shown(alloc, &format_args!("'{number}'"), out)?
            }
            (Some(Kind::Measure(measure)), Value::Int(units)) => {
                push_measure(alloc, *measure, *units, out)?
            }
            (Some(Kind::Measure(_)), Value::Float(number)) => push_float(alloc, *number, out)?,
            (Some(Kind::Pair), Value::Struct(fields)) => {
                push_pair(alloc, dialect, fields.as_slice(), out)?
            }
            _ => push_plain(alloc, dialect, value, out)?,
        }
    }
    Ok(())
}

// A day, a decimal or an instant of so many units. An instant is written by its day and what is left of it, in numbers
// that no engine rounds.
fn push_measure(
    alloc: Global,
    measure: Measure,
    units: i128,
    out: &mut String,
) -> Result<(), AllocError> {
    match measure {
        Measure::Day => push_shown(alloc, &format_args!("DATE '1970-01-01' + {units}"), out),
        Measure::Price => push_shown(alloc, &format_args!("{units} * 1e-2"), out),
        Measure::Amount => push_shown(alloc, &format_args!("{units} * 1e-10"), out),
        Measure::Clock => {
            let day = units.div_euclid(86_400_000_000);
            let left = units.rem_euclid(86_400_000_000);
            push_instant(alloc, day, left, "microseconds", out)
        }
        Measure::Moment => {
            let day = units.div_euclid(86_400_000);
            let left = units.rem_euclid(86_400_000);
            out.push_str("(")?;
            push_instant(alloc, day, left, "milliseconds", out)?;
            out.push_str(") AT TIME ZONE 'UTC'")
        }
        Measure::Single | Measure::Double => push_shown(alloc, &units, out),
    }
}

fn push_instant(
    alloc: Global,
    day: i128,
    left: i128,
    word: &str,
    out: &mut String,
) -> Result<(), AllocError> {
    let told = format_args!(
        "CAST(DATE '1970-01-01' + {day} AS timestamp) + INTERVAL '{left} {word}'"
    );
    push_shown(alloc, &told, out)
}

// A float, by the parts of its bits.
fn push_float(alloc: Global, number: Float, out: &mut String) -> Result<(), AllocError> {
    let parts = match number {
        Float::F32(bits) => Parts {
            is_negative: bits >= 0x8000_0000,
            exponent: u64::from(bits / 0x0080_0000 % 0x100),
            greatest: 0xff,
            bias: 150,
            fraction: u64::from(bits % 0x0080_0000),
            lead: 0x0080_0000,
        },
        Float::F64(bits) => Parts {
            is_negative: bits >= 0x8000_0000_0000_0000,
            exponent: bits / 0x0010_0000_0000_0000 % 0x800,
            greatest: 0x7ff,
            bias: 1_075,
            fraction: bits % 0x0010_0000_0000_0000,
            lead: 0x0010_0000_0000_0000,
        },
    };
    parts.push(alloc, out)
}

// The bits of a float: the greatest exponent is that of no number, and with the least there is no digit that leads.
#[derive(Clone, Copy)]
struct Parts {
    is_negative: bool,
    exponent: u64,
    greatest: u64,
    bias: i128,
    fraction: u64,
    lead: u64,
}

impl Parts {
    fn push(self, alloc: Global, out: &mut String) -> Result<(), AllocError> {
        let sign = if self.is_negative { "-" } else { "" };
        if self.exponent == self.greatest {
            let word = if self.fraction == 0 { "inf" } else { "nan" };
            return push_shown(alloc, &format_args!("CAST('{sign}{word}' AS float8)"), out);
        }
        let lead = if self.exponent == 0 { 0 } else { self.lead };
        let units = self.fraction.saturating_add(lead);
        let power = i128::from(self.exponent.max(1)).saturating_sub(self.bias);
        let told = format_args!("{sign}(CAST({units} AS float8) * power(2.0::float8, {power}))");
        push_shown(alloc, &told, out)
    }
}

fn push_pair(
    alloc: Global,
    dialect: Dialect,
    fields: &[Value],
    out: &mut String,
) -> Result<(), AllocError> {
    out.push_str("ROW(")?;
    for (i, field) in fields.iter().enumerate() {
        out.push_str(if i == 0 { "" } else { ", " })?;
        push_plain(alloc, dialect, field, out)?;
    }
    out.push_str(")::pair")
}

fn push_plain(
    alloc: Global,
    dialect: Dialect,
    value: &Value,
    out: &mut String,
) -> Result<(), AllocError> {
    match value {
        Value::Bool(b) => out.push_str(truth(dialect, *b)),
        Value::Int(number) => push_shown(alloc, number, out),
        Value::Float(number) => push_shown(alloc, number, out),
        Value::Utf8(text) => {
            let (before, behind) = match dialect {
                Dialect::Sqlite => ("CAST(X'", "' AS TEXT)"),
                Dialect::ClickHouse => ("unhex('", "')"),
                Dialect::Postgres | Dialect::DuckDb | Dialect::Spark => {
                    ("convert_from(decode('", "', 'hex'), 'UTF8')")
                }
            };
            push_between(alloc, before, text.as_str().as_bytes(), behind, out)
        }
        Value::Binary(bytes) => {
            let (before, behind) = match dialect {
                Dialect::Sqlite => ("X'", "'"),
                Dialect::ClickHouse => ("unhex('", "')"),
                Dialect::Postgres | Dialect::DuckDb | Dialect::Spark => ("decode('", "', 'hex')"),
            };
            push_between(alloc, before, bytes.as_slice(), behind, out)
        }
        Value::Null | Value::List(_) | Value::Struct(_) => out.push_str("NULL"),
    }
}

fn truth(dialect: Dialect, b: bool) -> &'static str {
    match dialect {
        Dialect::Sqlite | Dialect::ClickHouse => { if b { "1" } else { "0" } }
        Dialect::Postgres | Dialect::DuckDb | Dialect::Spark => { if b { "true" } else { "false" } }
    }
}

fn push_between(
    alloc: Global,
    before: &str,
    bytes: &[u8],
    behind: &str,
    out: &mut String,
) -> Result<(), AllocError> {
    out.push_str(before)?;
    push_digits(alloc, bytes, out)?;
    out.push_str(behind)
}

/// Two hexadecimal digits a byte.
pub fn push_digits(alloc: Global, bytes: &[u8], out: &mut String) -> Result<(), AllocError> {
    for b in bytes {
        push_shown(alloc, &format_args!("{b:02x}"), out)?;
    }
    Ok(())
}

/// What is shown.
pub fn push_shown<T: Display>(
    alloc: Global,
    shown: &T,
    out: &mut String,
) -> Result<(), AllocError> {
    let text = format!(in alloc; "{shown}")?;
    out.push_str(text.as_str())
}

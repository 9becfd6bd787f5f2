// How engines show values: truth values by their words, texts, bytes and the bits of floats by their digits, and days,
// decimals and instants by their units.
use crate::kinds::{Kind, Measure};
use vx_sql::Dialect;

/// The engine's expression that shows a value `v` of that kind.
pub fn shown(dialect: Dialect, kind: Kind) -> &'static str {
    match dialect {
        Dialect::Postgres => shown_by_postgres(kind),
        Dialect::ClickHouse => shown_by_clickhouse(kind),
        Dialect::Sqlite | Dialect::DuckDb | Dialect::Spark => shown_by_sqlite(kind),
    }
}

fn shown_by_postgres(kind: Kind) -> &'static str {
    match kind {
        Kind::Text => "coalesce(encode(convert_to(v, 'UTF8'), 'hex'), 'null')",
        Kind::Octets => "coalesce(encode(v, 'hex'), 'null')",
        Kind::Measure(measure) => measured_by_postgres(measure),
        Kind::Truth | Kind::Number(_) | Kind::Pair => "coalesce(CAST(v AS text), 'null')",
    }
}

// (`extract(epoch ..)` of a late instant has fewer digits than the instant)
fn measured_by_postgres(measure: Measure) -> &'static str {
    match measure {
        Measure::Day => "coalesce(CAST(v - DATE '1970-01-01' AS text), 'null')",
        Measure::Price => "coalesce(CAST(trim_scale(v * 1e2) AS text), 'null')",
        Measure::Amount => "coalesce(CAST(trim_scale(v * 1e10) AS text), 'null')",
        Measure::Single => "coalesce(encode(float4send(v), 'hex'), 'null')",
        Measure::Double => "coalesce(encode(float8send(v), 'hex'), 'null')",
        Measure::Clock => {
            "coalesce(CAST(trim_scale((CAST(v AS date) - DATE '1970-01-01') * 864e8 + extract(epoch FROM CAST(v AS time)) * 1e6) AS text), 'null')"
        }
        Measure::Moment => {
            "coalesce(CAST(trim_scale((CAST(v AT TIME ZONE 'UTC' AS date) - DATE '1970-01-01') * 864e5 + extract(epoch FROM CAST(v AT TIME ZONE 'UTC' AS time)) * 1e3) AS text), 'null')"
        }
    }
}

fn shown_by_clickhouse(kind: Kind) -> &'static str {
    match kind {
        Kind::Text | Kind::Octets => "ifNull(lower(hex(v)), 'null')",
        Kind::Truth => TRUTH,
        Kind::Number(_) | Kind::Measure(_) | Kind::Pair => "ifNull(toString(v), 'null')",
    }
}

fn shown_by_sqlite(kind: Kind) -> &'static str {
    match kind {
        Kind::Text => {
            "CASE typeof(v) WHEN 'null' THEN 'null' WHEN 'text' THEN lower(hex(v)) ELSE 'another' END"
        }
        Kind::Octets => {
            "CASE typeof(v) WHEN 'null' THEN 'null' WHEN 'blob' THEN lower(hex(v)) ELSE 'another' END"
        }
        Kind::Truth => TRUTH,
        Kind::Number(_) | Kind::Measure(_) | Kind::Pair => {
            "CASE typeof(v) WHEN 'null' THEN 'null' WHEN 'integer' THEN v ELSE 'another' END"
        }
    }
}

// How a truth value is shown where it is 1 or 0.
const TRUTH: &str =
    "CASE WHEN v IS NULL THEN 'null' WHEN v = 1 THEN 'true' WHEN v = 0 THEN 'false' ELSE 'another' END";

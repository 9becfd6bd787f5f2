// The rows that expressions are evaluated over.
use crate::kinds::{Kind, MEASURES, NUMBERS, has_pairs};
use crate::values::maybe_null;
use std::alloc::{AllocError, Global};
use vx_dtype::{DType, PType};
use vx_source::parse_type;
use vx_sql::Dialect;
use vx_test_support::{Seeds, Unread};
use vx_value::Value;

/// How many rows the table has.
const ROWS: usize = 50;

/// The kinds of columns that the engine's table has, each in two columns.
pub fn table_kinds(alloc: Global, dialect: Dialect) -> Result<Vec<Kind>, AllocError> {
    let mut kinds = Vec::new(alloc);
    kinds.push(Kind::Truth)?;
    kinds.push(Kind::Text)?;
    kinds.push(Kind::Octets)?;
    for p in NUMBERS {
        if !matches!((dialect, p), (Dialect::Sqlite, PType::U64)) {
            kinds.push(Kind::Number(p))?;
        }
    }
    for measure in MEASURES {
        kinds.push(Kind::Measure(measure))?;
    }
    if has_pairs(dialect) {
        kinds.push(Kind::Pair)?;
    }
    Ok(kinds)
}

/// The type of the rows: first the columns that are given, and then of each kind a column with nulls, and
/// one without.
pub fn table_scope(
    alloc: Global,
    dialect: Dialect,
    given: &str,
    kinds: &[Kind],
) -> Result<DType, Unread> {
    let mut text = format!(in alloc; "{{{given}")?;
    for (i, kind) in kinds.iter().enumerate() {
        let [nullable, plain] = kind.columns(dialect);
        let word = kind.type_text();
        let separator = if i == 0 { "" } else { ", " };
        let pair = format!(in alloc; "{separator}{nullable}={word}?, {plain}={word}")?;
        text.push_str(pair.as_str())?;
    }
    text.push_str("}")?;
    Ok(parse_type(alloc, text.as_str())?)
}

/// The rows, as structs.
pub fn table_rows(
    alloc: Global,
    kinds: &[Kind],
    seeds: &mut Seeds,
) -> Result<Vec<Value>, AllocError> {
    let mut rows = Vec::new(alloc);
    for _ in 0..ROWS {
        rows.push(Value::Struct(row(alloc, kinds, seeds)?))?;
    }
    Ok(rows)
}

// A row by chance.
fn row(alloc: Global, kinds: &[Kind], seeds: &mut Seeds) -> Result<Vec<Value>, AllocError> {
    let mut values = Vec::new(alloc);
    for kind in kinds {
        let value = kind.value(alloc, seeds)?;
        values.push(maybe_null(seeds, value))?;
        values.push(kind.value(alloc, seeds)?)?;
    }
    Ok(values)
}

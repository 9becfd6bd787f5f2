// The rows that the queries are evaluated over. The driver makes the same ones.
ghost use Rattle.std.specs.Prelude.{◌<◌};

use crate::fields::{self, fields};
use std::alloc::Global;
use vx_dtype::{DType, FieldNames, Nullability, StructFields, VortexResult};
use vx_value::{Column, Value};

/// How the keys 0, 1 and 2 stand in the rows.
#[derive(Clone, Copy, Debug, PartialEq, Eq)]
pub enum Keys {
    /// In turns, each in a run of 1,000 rows.
    InRuns,
    /// Scattered.
    Scattered,
}

impl Keys {
    // The key of that row.
    fn key(self, i: usize) -> Value {
        let turn = match self {
            Keys::InRuns => i as u64 / 1_000,
            // `scattered` alone goes up by one step a row, and a processor learns to tell the next key.
            Keys::Scattered => scattered(i.wrapping_mul(scattered(i) as usize)),
        };
        Value::Int(i128::from(turn % 3))
    }
}

/// So many rows of a number for each name, numbers and nulls. Each of a row's numbers is the first
/// one of the next row.
pub fn numbers(alloc: Global, names: FieldNames, rows: usize) -> VortexResult<Column> {
    let mut values = Vec::with_capacity(alloc, rows)?;
    for i in 0..rows {
        values.push(Value::Struct(numbers_from(alloc, i, names.len())?))?;
    }
    numeric(alloc, names, values)
}

/// So many rows `{x, y, z, k}`: three numbers as above, and a key.
pub fn keyed(alloc: Global, keys: Keys, rows: usize) -> VortexResult<Column> {
    let mut values = Vec::with_capacity(alloc, rows)?;
    for i in 0..rows {
        values.push(keyed_row(alloc, keys, i)?)?;
    }
    numeric(alloc, fields::names(alloc, &["x", "y", "z", "k"])?, values)
}

/// So many rows `{s: text}`, short texts and nulls.
pub fn texts(alloc: Global, rows: usize) -> VortexResult<Column> {
    let mut values = Vec::with_capacity(alloc, rows)?;
    for i in 0..rows {
        values.push(Value::Struct(vec![in alloc; text(alloc, i)?]?))?;
    }
    let types = vec![in alloc; DType::Utf8(Nullability::Nullable)]?;
    column(fields(alloc, fields::names(alloc, &["s"])?, types)?, values)
}

// The column of structs of numbers by these names.
fn numeric(alloc: Global, names: FieldNames, rows: Vec<Value>) -> VortexResult<Column> {
    column(fields::numbers(alloc, names, Nullability::Nullable)?, rows)
}

// The column of structs.
fn column(fields: StructFields, rows: Vec<Value>) -> VortexResult<Column> {
    Column::try_new(DType::Struct(fields, Nullability::NonNullable), rows)
}

// The numbers of a row: those of its place and of the next ones.
fn numbers_from(alloc: Global, first: usize, count: usize) -> VortexResult<Vec<Value>> {
    let mut numbers = Vec::with_capacity(alloc, count)?;
    for i in 0..count {
        numbers.push(number(first.wrapping_add(i)))?;
    }
    Ok(numbers)
}

// The struct of three numbers and a key of that row.
fn keyed_row(alloc: Global, keys: Keys, i: usize) -> VortexResult<Value> {
    let (second, third) = (number(i.wrapping_add(1)), number(i.wrapping_add(2)));
    let items = vec![in alloc; number(i), second, third, keys.key(i)]?;
    Ok(Value::Struct(items))
}

// A number below a million that looks like chance.
fn scattered(i: usize) -> u64
    ensures { result < 1_000_000 }
{
    (i as u64).wrapping_mul(2_654_435_761) % 1_000_000
}

// From -100,000 to 899,999, and null in a tenth of the rows.
fn number(i: usize) -> Value {
    let n = scattered(i);
    if n % 10 == 7 {
        Value::Null
    } else {
        Value::Int(i128::from(n) - 100_000)
    }
}

// Eight letters from `a` to `e`, and null in a tenth of the rows.
fn text(alloc: Global, i: usize) -> VortexResult<Value> {
    let mut n = scattered(i);
    if n % 10 == 7 {
        return Ok(Value::Null);
    }
    let mut letters = String::with_capacity(alloc, 8)?;
    for _ in 0..8 {
        letters.push(letter(n % 5))?;
        n /= 5;
    }
    Ok(Value::Utf8(letters))
}

fn letter(n: u64) -> char {
    match n {
        0 => 'a',
        1 => 'b',
        2 => 'c',
        3 => 'd',
        _ => 'e',
    }
}

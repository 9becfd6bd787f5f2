// What the row `cases` shows: a CASE of two conditions, of which the first that is true wins.
ghost use Rattle.std.specs.Prelude.{◌≡◌, Ok, IfOk, IfErr};
ghost use Rattle.vx_dtype.specs.declared.error.VortexError.TheVariants.{OutOfMemory};
ghost use Rattle.vx_dtype.specs.Returns.{ReturnsOrOom};
ghost use Rattle.vx_value.specs.Types.{int};
ghost use Rattle.vx_fn.specs.Functions.{compares, greater};
ghost use Rattle.vx_tree.specs.Examples.{i32, x, lit, operated};
ghost use Rattle.vx_tree.specs.Views.{tree_of};
ghost use Rattle.vx_run.specs.Cases.{cases};

use crate::examples::{number, row_of, with_x, x_compared};
use std::alloc::Global;
use vx_build::nested_case_when;
use vx_dtype::{DType, Nullability, PType, VortexResult};
use vx_tree::{Expression, Operator};
use vx_value::{Column, Value};

/// `CASE WHEN $.x > 0 THEN 10 WHEN $.x > 3 THEN 20 ELSE 30 END`.
pub fn source(alloc: Global) -> VortexResult<Expression>
    ensures { ReturnsOrOom tree_of result (Ok cases.source) }
{
    let mut cases = Vec::with_capacity(alloc, 2)?;
    cases.push(case(alloc, 0, 10)?)?;
    cases.push(case(alloc, 3, 20)?)?;
    let otherwise = number(alloc, 30)?;
    nested_case_when(alloc, cases, Some(otherwise))
}

// The condition that x is above the bound, and the value beside it.
fn case(alloc: Global, bound: i32, value: i32) -> VortexResult<(Expression, Expression)>
    ensures condition { IfOk result (λ c. tree_of c.0 ≡ operated (compares greater) x (lit i32 (int bound))) }
    ensures value { IfOk result (λ c. tree_of c.1 ≡ lit i32 (int value)) }
    ensures memory { IfErr result (λ e. e ≡ OutOfMemory) }
{
    let condition = x_compared(alloc, Operator::Gt, number(alloc, bound)?)?;
    let value = number(alloc, value)?;
    Ok((condition, value))
}

/// The rows `{x: 1}`, `{x: 5}` and `{x: null}`.
pub fn batch(alloc: Global) -> VortexResult<Column>
    ensures { ReturnsOrOom (λ c. c) result (Ok cases.batch) }
{
    let mut rows = Vec::with_capacity(alloc, 3)?;
    rows.push(row_of(alloc, Value::Int(1))?)?;
    rows.push(row_of(alloc, Value::Int(5))?)?;
    rows.push(row_of(alloc, Value::Null)?)?;
    let dtype = DType::Primitive(PType::I32, Nullability::Nullable);
    Column::try_new(with_x(alloc, dtype)?, rows)
}

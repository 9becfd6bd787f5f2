// What the row `coalesce` shows: a CASE that gives 0 for null.
ghost use Rattle.std.specs.Prelude.{Ok};
ghost use Rattle.vx_dtype.specs.Returns.{ReturnsOrOom};
ghost use Rattle.vx_tree.specs.Views.{tree_of};
ghost use Rattle.vx_run.specs.Coalesce.{coalesce};

use crate::examples::{field_x, number, row_of, with_x};
use std::alloc::Global;
use vx_build::{case_when, is_null};
use vx_dtype::{DType, Nullability, PType, VortexResult};
use vx_tree::Expression;
use vx_value::{Column, Value};

/// `CASE WHEN $.x is null THEN 0 ELSE $.x END`.
pub fn source(alloc: Global) -> VortexResult<Expression>
    ensures { ReturnsOrOom tree_of result (Ok coalesce.source) }
{
    let condition = is_null(alloc, field_x(alloc)?)?;
    let zero = number(alloc, 0)?;
    let x = field_x(alloc)?;
    case_when(alloc, condition, zero, x)
}

/// The rows `{x: null}` and `{x: 4}`.
pub fn batch(alloc: Global) -> VortexResult<Column>
    ensures { ReturnsOrOom (λ c. c) result (Ok coalesce.batch) }
{
    let mut rows = Vec::with_capacity(alloc, 2)?;
    rows.push(row_of(alloc, Value::Null)?)?;
    rows.push(row_of(alloc, Value::Int(4))?)?;
    let dtype = DType::Primitive(PType::I32, Nullability::Nullable);
    Column::try_new(with_x(alloc, dtype)?, rows)
}

// What the row `kleene` shows: two bounds of one field, of which one is null.
ghost use Rattle.std.specs.Prelude.{Ok};
ghost use Rattle.vx_dtype.specs.Returns.{ReturnsOrOom};
ghost use Rattle.vx_tree.specs.Views.{tree_of};
ghost use Rattle.vx_run.specs.Kleene.{kleene};

use crate::examples::{number, row_of, with_x, x_compared};
use std::alloc::Global;
use vx_build::{and, lit};
use vx_dtype::{DType, Nullability, PType, VortexResult};
use vx_tree::{Expression, Operator};
use vx_value::{Column, Scalar, Value};

/// `$.x >= null and $.x <= 5`.
pub fn source(alloc: Global) -> VortexResult<Expression>
    ensures { ReturnsOrOom tree_of result (Ok kleene.source) }
{
    let null = Scalar::null(DType::Primitive(PType::I32, Nullability::Nullable));
    let lower = x_compared(alloc, Operator::Gte, lit(alloc, null)?)?;
    let upper = x_compared(alloc, Operator::Lte, number(alloc, 5)?)?;
    and(alloc, lower, upper)
}

/// The rows `{x: 10}` and `{x: 1}`.
pub fn batch(alloc: Global) -> VortexResult<Column>
    ensures { ReturnsOrOom (λ c. c) result (Ok kleene.batch) }
{
    let mut rows = Vec::with_capacity(alloc, 2)?;
    rows.push(row_of(alloc, Value::Int(10))?)?;
    rows.push(row_of(alloc, Value::Int(1))?)?;
    let dtype = DType::Primitive(PType::I32, Nullability::NonNullable);
    Column::try_new(with_x(alloc, dtype)?, rows)
}

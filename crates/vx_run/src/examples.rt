// Small expressions, types and values over one field x, of which the rows are made.
ghost use Rattle.std.specs.Prelude.{Ok};
ghost use Rattle.vx_dtype.specs.Returns.{ReturnsOrOom};
ghost use Rattle.vx_value.specs.Views.{type_of, value_of};
ghost use Rattle.vx_tree.specs.Examples.{i32, with_x, row_of, x, lit, operated};
ghost use Rattle.vx_value.specs.Types.{int};
ghost use Rattle.vx_fn.specs.Views.{operation_of};
ghost use Rattle.vx_tree.specs.Views.{tree_of};

use std::alloc::Global;
use vx_build::{binary, col, lit};
use vx_dtype::{DType, FieldName, FieldNames, Nullability, StructFields, VortexResult};
use vx_tree::{Expression, Operator};
use vx_value::{Scalar, Value};

// The struct type with the one field x.
pub fn with_x(alloc: Global, dtype: DType) -> VortexResult<DType>
    ensures { ReturnsOrOom type_of result (Ok (with_x (type_of dtype))) }
{
    let types = vec![in alloc; dtype]?;
    let names = vec![in alloc; FieldName::new(alloc, "x")?]?;
    let fields = StructFields::new(alloc, FieldNames::new(alloc, names)?, types)?;
    Ok(DType::Struct(fields, Nullability::NonNullable))
}

// The struct value of one field.
pub fn row_of(alloc: Global, value: Value) -> VortexResult<Value>
    ensures { ReturnsOrOom value_of result (Ok (row_of (value_of value))) }
{
    Ok(Value::Struct(vec![in alloc; value]?))
}

// `$.x`.
pub fn field_x(alloc: Global) -> VortexResult<Expression>
    ensures { ReturnsOrOom tree_of result (Ok x) }
{
    col(alloc, FieldName::new(alloc, "x")?)
}

// The number as an expression.
pub fn number(alloc: Global, n: i32) -> VortexResult<Expression>
    ensures { ReturnsOrOom tree_of result (Ok (lit i32 (int n))) }
{
    lit(alloc, Scalar::from_i32(n))
}

// `$.x` compared with the other operand.
pub fn x_compared(alloc: Global, operator: Operator, other: Expression) -> VortexResult<Expression>
    ensures { ReturnsOrOom tree_of result (Ok (operated (operation_of operator) x (tree_of other))) }
{
    let x = field_x(alloc)?;
    binary(alloc, operator, x, other)
}

// What the row `scan` shows: conditions on two fields, over what a plan of them reads.
ghost use Rattle.std.specs.Prelude.{◌≡◌, Ok, IfOk, IfErr, [], ◌∷◌};
ghost use Rattle.vx_dtype.specs.Returns.{ReturnsOrOom};
ghost use Rattle.vx_dtype.specs.declared.error.VortexError.TheVariants.{OutOfMemory};
ghost use Rattle.vx_value.specs.Types.{int};
ghost use Rattle.vx_value.specs.Views.{type_of, value_of};
ghost use Rattle.vx_fn.specs.Views.{operation_of};
ghost use Rattle.vx_eval.specs.Evaluation.{evaluation};
ghost use Rattle.vx_tree.specs.Binding.{binding};
ghost use Rattle.vx_tree.specs.Examples.{i32, lit, operated};
ghost use Rattle.vx_tree.specs.Views.{bound_of, tree_of};
ghost use Rattle.vx_run.specs.Scan.{pair_or_null, scan, scanned_row, scanned_type, x_of_a};

use crate::examples::number;
use std::alloc::Global;
use vx_build::{and, binary, col, get_item};
use vx_dtype::{DType, FieldName, FieldNames, Nullability, PType, StructFields, VortexResult};
use vx_scan::{ScanPlan, plan};
use vx_tree::{Expression, Operator};
use vx_value::{Column, Value};

/// The plan of `$.a.x >= 1 and $.b < 5` over a scope of that type. Asks the type of the rows of
/// [`batch`].
pub fn planned(alloc: Global, scope: &DType) -> VortexResult<ScanPlan>
    requires { type_of scope.now ≡ scan.batch.type }
    ensures tree { IfOk result (λ p. binding scan.source scan.batch.type ≡ Ok (bound_of p.tree)) }
    ensures scope { IfOk result (λ p. type_of p.scope ≡ scan.batch.type) }
    ensures memory { IfErr result (λ e. e ≡ OutOfMemory) }
{
    let conditions = source(alloc)?;
    plan(alloc, &conditions, scope)
}

/// What a scan by the plan gives over the batch. Asks a plan of the conditions, and a batch of its
/// type.
pub fn result(alloc: Global, plan: &ScanPlan, batch: &Column) -> VortexResult<Column>
    requires tree { binding scan.source scan.batch.type ≡ Ok (bound_of plan.now.tree) }
    requires scope { type_of plan.now.scope ≡ scan.batch.type }
    requires batch { batch.now.type ≡ scan.batch.type }
    ensures { ReturnsOrOom (λ c. c) result (evaluation (bound_of plan.now.tree) batch.now) }
{
    let reader = plan.reader_of(batch.clone()?);
    let answer = vx_scan::scan(alloc, &reader, plan);
    drop(reader);
    answer
}

// `$.a.x >= 1 and $.b < 5`.
fn source(alloc: Global) -> VortexResult<Expression>
    ensures { ReturnsOrOom tree_of result (Ok scan.source) }
{
    let x = x_of_a(alloc)?;
    let from_one = compared(alloc, Operator::Gte, x, 1)?;
    let b = col(alloc, FieldName::new(alloc, "b")?)?;
    let below_five = compared(alloc, Operator::Lt, b, 5)?;
    and(alloc, from_one, below_five)
}

// `$.a.x`.
fn x_of_a(alloc: Global) -> VortexResult<Expression>
    ensures { ReturnsOrOom tree_of result (Ok x_of_a) }
{
    let a = col(alloc, FieldName::new(alloc, "a")?)?;
    let x = FieldName::new(alloc, "x")?;
    get_item(alloc, x, a)
}

// The item compared with the number.
fn compared(alloc: Global, operator: Operator, item: Expression, n: i32) -> VortexResult<Expression>
    ensures { ReturnsOrOom tree_of result (Ok (operated (operation_of operator) (tree_of item) (lit i32 (int n)))) }
{
    let number = number(alloc, n)?;
    binary(alloc, operator, item, number)
}

/// The rows `{a: {x: 1, y: 7}, b: 4, c: "q"}` and `{a: null, b: 9, c: "r"}`.
pub fn batch(alloc: Global) -> VortexResult<Column>
    ensures { ReturnsOrOom (λ c. c) result (Ok scan.batch) }
{
    let mut rows = Vec::with_capacity(alloc, 2)?;
    let pair = Value::Struct(vec![in alloc; Value::Int(1), Value::Int(7)]?);
    rows.push(row(alloc, pair, 4, "q")?)?;
    rows.push(row(alloc, Value::Null, 9, "r")?)?;
    Column::try_new(dtype(alloc)?, rows)
}

// A row of the three fields.
fn row(alloc: Global, a: Value, b: i32, c: &str) -> VortexResult<Value>
    ensures { ReturnsOrOom value_of result (Ok (scanned_row (value_of a) (int b) c.now)) }
{
    let c = String::from_str(alloc, c)?;
    let row = vec![in alloc; a, Value::Int(i128::from(b)), Value::Utf8(c)]?;
    Ok(Value::Struct(row))
}

// `{a={x=i32, y=i32}?, b=i32, c=utf8}`.
fn dtype(alloc: Global) -> VortexResult<DType>
    ensures { ReturnsOrOom type_of result (Ok scanned_type) }
{
    let names = vec![in alloc;
        FieldName::new(alloc, "a")?,
        FieldName::new(alloc, "b")?,
        FieldName::new(alloc, "c")?,
    ]?;
    let types = vec![in alloc;
        pair_or_null(alloc)?,
        DType::Primitive(PType::I32, Nullability::NonNullable),
        DType::Utf8(Nullability::NonNullable),
    ]?;
    let fields = StructFields::new(alloc, FieldNames::new(alloc, names)?, types)?;
    Ok(DType::Struct(fields, Nullability::NonNullable))
}

// `{x=i32, y=i32}?`.
fn pair_or_null(alloc: Global) -> VortexResult<DType>
    ensures { ReturnsOrOom type_of result (Ok pair_or_null) }
{
    let names = vec![in alloc; FieldName::new(alloc, "x")?, FieldName::new(alloc, "y")?]?;
    let x = DType::Primitive(PType::I32, Nullability::NonNullable);
    let y = DType::Primitive(PType::I32, Nullability::NonNullable);
    let types = vec![in alloc; x, y]?;
    let fields = StructFields::new(alloc, FieldNames::new(alloc, names)?, types)?;
    Ok(DType::Struct(fields, Nullability::Nullable))
}

// A node over structs of its children's values: each child is a hole, which takes its value out.
ghost use Rattle.std.specs.Prelude.{◌≡◌, ◌<◌, ◌^◌, length, Ok, Some, MatchResult};
ghost use Rattle.std.specs.Fmt.{decimal};
ghost use Rattle.vx_dtype.specs.Returns.{ReturnsOrOom};
ghost use Rattle.vx_dtype.specs.declared.error.VortexError.TheVariants.{OutOfMemory};
ghost use Rattle.vx_value.specs.Views.{type_of};
ghost use Rattle.vx_fn.specs.Views.{function_of};
ghost use Rattle.vx_tree.specs.Nodes.{bound_children_of};
ghost use Rattle.vx_tree.specs.Trees.{WellTyped, EachWellTyped, Over, EachOver, node, node_type, node_types};
ghost use Rattle.vx_tree.specs.Views.{bound_of, bounds_of};
ghost use Rattle.vx_places.specs.Holes.{names_from, structs_of, hole, holes};
ghost use Rattle.vx_places.specs.Walked.{AreSeen, IsSeen, SaysOrFaults, column_of, columns_of};

use std::alloc::Global;
use vx_dtype::{DType, FieldName, FieldNames, Nullability, VortexResult};
use vx_eval::apply_bound;
use vx_fn::ScalarFnRef;
use vx_tree::BoundExpression;
use vx_value::Column;

/// The column of the node's values, of which `scalar_fn` is the function, or its fault. Asks for what
/// is seen of its children, of which none is evaluated again that has a column.
pub fn value_over_holes(
    alloc: Global,
    b: &BoundExpression,
    scalar_fn: &ScalarFnRef,
    batch: &Column,
    below: Vec<Option<Column>>,
) -> VortexResult<Column>
    requires typed { WellTyped (bound_of b.now) }
    requires over { Over (bound_of b.now) batch.now.type }
    requires seen { AreSeen batch.now.rows (bound_children_of (bound_of b.now)) below.items }
    requires function { bound_of b.now ≡ node (node_type (bound_of b.now)) (function_of scalar_fn.now) (bound_children_of (bound_of b.now)) }
    ensures { SaysOrFaults (λ column. IsSeen batch.now.rows (bound_of b.now) (Some column)) batch.now.rows (bound_of b.now) result }
{
    let names = indices(alloc, b.children().len())?;
    let structs = structs(alloc, b.children(), &names, batch, below)?;
    let node = node_over_holes(alloc, b, scalar_fn, &names, structs.dtype())?;
    let column = apply_bound(alloc, &structs, &node);
    // By `drop`: to let go of a tree in place takes the proof far longer.
    drop(node);
    column
}

// The struct of the children's values in each row of the batch, by their indices.
fn structs(
    alloc: Global,
    children: &[BoundExpression],
    names: &FieldNames,
    batch: &Column,
    below: Vec<Option<Column>>,
) -> VortexResult<Column>
    requires typed { EachWellTyped (bounds_of children.now) }
    requires over { EachOver (bounds_of children.now) batch.now.type }
    requires seen { AreSeen batch.now.rows (bounds_of children.now) below.items }
    requires named { names.now ≡ names_from 0 (length children.now) }
    ensures { MatchResult result (λ structs. structs ≡ structs_of (bounds_of children.now) batch.now.rows) (λ e. e ≡ OutOfMemory) }
{
    let columns = columns_of(alloc, children, batch, below)?;
    let names = names.clone()?;
    Column::struct_of(alloc, names, columns, batch.len(), Nullability::NonNullable)
}

// A column for each child: the one that is there, or else its values.
fn columns_of(
    alloc: Global,
    children: &[BoundExpression],
    batch: &Column,
    below: Vec<Option<Column>>,
) -> VortexResult<Vec<Column>>
    requires typed { EachWellTyped (bounds_of children.now) }
    requires over { EachOver (bounds_of children.now) batch.now.type }
    requires seen { AreSeen batch.now.rows (bounds_of children.now) below.items }
    ensures { MatchResult result (λ columns. columns.items ≡ columns_of (bounds_of children.now) batch.now.rows) (λ e. e ≡ OutOfMemory) }
{
    let mut columns = Vec::with_capacity(alloc, children.len())?;
    for column in below {
        let number = columns.len();
        let child = &children[number];
        columns.push(column_or_values(alloc, child, batch, column)?)?;
    }
    Ok(columns)
}

// The column that is there, or else that of the tree's values.
fn column_or_values(
    alloc: Global,
    b: &BoundExpression,
    batch: &Column,
    column: Option<Column>,
) -> VortexResult<Column>
    requires typed { WellTyped (bound_of b.now) }
    requires over { Over (bound_of b.now) batch.now.type }
    requires seen { IsSeen batch.now.rows (bound_of b.now) column }
    ensures { MatchResult result (λ column. column ≡ column_of (bound_of b.now) batch.now.rows) (λ e. e ≡ OutOfMemory) }
{
    match column {
        Some(column) => Ok(column),
        None => apply_bound(alloc, batch, b),
    }
}

// So many indices as names.
fn indices(alloc: Global, count: usize) -> VortexResult<FieldNames>
    ensures names { ReturnsOrOom (λ names. names) result (Ok (names_from 0 count)) }
    ensures few { count < 2 ^ 64 }
{
    let mut names = Vec::with_capacity(alloc, count)?;
    for i in 0..count {
        names.push(index_name(alloc, i)?)?;
    }
    FieldNames::new(alloc, names)
}

// The index as a name.
fn index_name(alloc: Global, index: usize) -> VortexResult<FieldName>
    ensures { ReturnsOrOom (λ name. name) result (Ok (decimal index)) }
{
    let text = format!(in alloc; "{index}")?;
    FieldName::new(alloc, text.as_str())
}

// The node over a hole for each of its children, which takes the child's value out of a struct of that
// type.
fn node_over_holes(
    alloc: Global,
    b: &BoundExpression,
    scalar_fn: &ScalarFnRef,
    names: &FieldNames,
    scope: &DType,
) -> VortexResult<BoundExpression>
    requires { length names.now ≡ length (node_types (bound_children_of (bound_of b.now))) }
    ensures { ReturnsOrOom bound_of result (Ok (node (node_type (bound_of b.now)) (function_of scalar_fn.now) (holes (type_of scope.now) names.now (node_types (bound_children_of (bound_of b.now)))))) }
{
    let holes = holes(alloc, scope, names.as_slice(), b.children())?;
    let dtype = b.dtype().clone()?;
    BoundExpression::new_typed(alloc, dtype, scalar_fn.clone()?, holes)
}

// A hole for each child.
fn holes(
    alloc: Global,
    scope: &DType,
    names: &[FieldName],
    children: &[BoundExpression],
) -> VortexResult<Vec<BoundExpression>>
    requires { length names.now ≡ length children.now }
    ensures { ReturnsOrOom (λ nodes. bounds_of nodes.items) result (Ok (holes (type_of scope.now) names.now (node_types (bounds_of children.now)))) }
{
    let mut nodes = Vec::with_capacity(alloc, children.len())?;
    for i in 0..children.len() {
        nodes.push(hole(alloc, scope, &names[i], children[i].dtype())?)?;
    }
    Ok(nodes)
}

// The field of that name of a scope of that type, where the field's type is known.
fn hole(
    alloc: Global,
    scope: &DType,
    name: &FieldName,
    dtype: &DType,
) -> VortexResult<BoundExpression>
    ensures { ReturnsOrOom bound_of result (Ok (hole (type_of scope.now) name.now (type_of dtype.now))) }
{
    let mut children = Vec::with_capacity(alloc, 1)?;
    children.push(BoundExpression::new_root(scope.clone()?))?;
    let get_item = ScalarFnRef::GetItem(name.clone()?);
    BoundExpression::new_typed(alloc, dtype.clone()?, get_item, children)
}

// Trees that were settled, and their types.
ghost use Rattle.std.specs.Prelude.{◌≡◌, ◌++◌, [], IfOk, IfErr, OnOk, map, option_map};
ghost use Rattle.std.specs.Result.{result_ok};
ghost use Rattle.vx_fn.specs.Functions.{fn_type};
ghost use Rattle.vx_fn.specs.Views.{function_of};
ghost use Rattle.vx_tree.specs.Trees.{root, call, no_tree};
ghost use Rattle.vx_tree.specs.Views.{tree_of, trees_of};
ghost use Rattle.vx_value.specs.Types.{LogicalType};
ghost use Rattle.vx_value.specs.Views.{type_of};
ghost use Rattle.vx_source_over.specs.Settling.{first_type, type_over};
ghost use Rattle.vx_source_over.specs.Views.{IsTyped, AreTyped, EachTyped, dtype_in, literal_with, none_of, own_trees, put_type, settled_tree, settled_trees, type_of_all, types_of};
ghost use Rattle.vx_source_over.specs.declared.error.OverError.TheVariants.{OutOfMemory};

use crate::OverError;
use std::alloc::{AllocError, Global};
use std::sync::Arc;
use vx_dtype::{DType, VortexError};
use vx_fn::ScalarFnRef;
use vx_tree::Expression;
use vx_value::Scalar;

// A tree, and its type over the scope if it has one.
#[derive(Drop)]
pub(crate) struct Settled {
    pub tree: Expression,
    pub dtype: Option<DType>,
}

// The row of the scope.
#[inline(never)]
pub(crate) fn scope_root(scope: &DType) -> Result<Settled, OverError>
    ensures tree { IfOk result (λ x. settled_tree x ≡ root) }
    ensures typed { IfOk result (IsTyped (type_of scope.now)) }
    ensures memory { IfErr result (λ e. e ≡ OutOfMemory) }
{
    Ok(Settled {
        tree: Expression::Root,
        dtype: Some(scope.clone()?),
    })
}

// The node of the function over the trees.
#[inline(never)]
pub(crate) fn node_over(
    alloc: Global,
    scalar_fn: &ScalarFnRef,
    below: Vec<Settled>,
) -> Result<Settled, OverError>
    ensures tree { IfOk result (λ x. settled_tree x ≡ call (function_of scalar_fn.now) (settled_trees below.items)) }
    ensures typed { (s : LogicalType) → EachTyped s below.items → IfOk result (IsTyped s) }
    ensures memory { IfErr result (λ e. e ≡ OutOfMemory) }
{
    let (trees, types) = taken_apart(alloc, below)?;
    let dtype = type_of_all(alloc, scalar_fn, types.as_slice(), trees.len())?;
    let tree = node_of(alloc, scalar_fn, trees)?;
    Ok(Settled { tree, dtype })
}

// The node of the function over the trees.
fn node_of(
    alloc: Global,
    scalar_fn: &ScalarFnRef,
    trees: Vec<Expression>,
) -> Result<Expression, AllocError>
    ensures { IfOk result (λ e. tree_of e ≡ call (function_of scalar_fn.now) (trees_of trees.items)) }
{
    Ok(Expression::Scalar {
        scalar_fn: scalar_fn.clone()?,
        children: Arc::new(alloc, trees)?,
    })
}

// The trees, and the types of those that have one.
fn taken_apart(
    alloc: Global,
    below: Vec<Settled>,
) -> Result<(Vec<Expression>, Vec<DType>), AllocError>
    ensures trees { IfOk result (λ apart. map tree_of apart.0.items ≡ map settled_tree below.items) }
    ensures types { IfOk result (λ apart. map type_of apart.1.items ≡ types_of below.items) }
{
    let mut trees = Vec::with_capacity(alloc, below.len())?;
    let mut types = Vec::with_capacity(alloc, below.len())?;
    for settled in below {
        trees.push(settled.tree)?;
        push_type(settled.dtype, &mut types)?;
    }
    Ok((trees, types))
}

// Adds the type, if there is one.
fn push_type(dtype: Option<DType>, types: &mut Vec<DType>) -> Result<(), AllocError>
    ensures { OnOk result (map type_of types.new.items ≡ map type_of types.old.items ++ put_type (option_map type_of dtype) []) }
{
    if let Some(dtype) = dtype {
        types.push(dtype)?;
    }
    Ok(())
}

// The type of the function over so many types, if they are all there and it has one.
fn type_of_all(
    alloc: Global,
    scalar_fn: &ScalarFnRef,
    types: &[DType],
    count: usize,
) -> Result<Option<DType>, OverError>
    ensures answer { IfOk result (λ t. option_map type_of t ≡ type_of_all (function_of scalar_fn.now) (map type_of types.now) count) }
    ensures memory { IfErr result (λ e. e ≡ OutOfMemory) }
{
    if types.len() != count {
        return Ok(None);
    }
    type_over(alloc, scalar_fn, types)
}

// The type of the function over those types, if it has one.
fn type_over(
    alloc: Global,
    scalar_fn: &ScalarFnRef,
    types: &[DType],
) -> Result<Option<DType>, OverError>
    ensures answer { IfOk result (λ t. option_map type_of t ≡ result_ok (fn_type (function_of scalar_fn.now) (map type_of types.now))) }
    ensures memory { IfErr result (λ e. e ≡ OutOfMemory) }
{
    match scalar_fn.return_dtype(alloc, types) {
        Ok(dtype) => Ok(Some(dtype)),
        Err(VortexError::OutOfMemory) => Err(OverError::OutOfMemory),
        Err(_) => Ok(None),
    }
}

// The node of a literal with another type.
#[inline(never)]
pub(crate) fn retyped(scalar: Scalar, children: &Arc<Vec<Expression>>) -> Result<Settled, OverError>
    ensures tree { IfOk result (λ x. settled_tree x ≡ call (literal_with scalar) (trees_of children.now.value.items)) }
    ensures typed { (s : LogicalType) → IfOk result (IsTyped s) }
    ensures memory { IfErr result (λ e. e ≡ OutOfMemory) }
{
    let dtype = literal_dtype(&scalar, children.as_slice())?;
    let tree = literal_node(scalar, children.clone()?);
    Ok(Settled { tree, dtype })
}

// The literal of the scalar.
pub(crate) fn literal_alone(alloc: Global, scalar: Scalar) -> Result<Settled, AllocError>
    ensures tree { IfOk result (λ x. settled_tree x ≡ call (literal_with scalar) no_tree) }
    ensures typed { (s : LogicalType) → IfOk result (IsTyped s) }
{
    let dtype = scalar.dtype().clone()?;
    let children = Arc::new(alloc, Vec::new(alloc))?;
    Ok(Settled {
        tree: literal_node(scalar, children),
        dtype: Some(dtype),
    })
}

// The type of a literal that has no children.
fn literal_dtype(scalar: &Scalar, children: &[Expression]) -> Result<Option<DType>, AllocError>
    ensures { (s : LogicalType) → IfOk result (λ t. option_map type_of t ≡ type_over s (call (literal_with scalar.now) (trees_of children.now))) }
{
    if children.is_empty() {
        Ok(Some(scalar.dtype().clone()?))
    } else {
        Ok(None)
    }
}

// The node of a literal.
fn literal_node(scalar: Scalar, children: Arc<Vec<Expression>>) -> Expression
    ensures { tree_of result ≡ call (literal_with scalar) (trees_of children.value.items) }
{
    Expression::Scalar {
        scalar_fn: ScalarFnRef::Literal(scalar),
        children,
    }
}

// The first type of those that are there.
pub(crate) fn first_type(own: &[Option<Settled>]) -> Option<&DType>
    ensures { (s : LogicalType) → AreTyped s own.now → option_map (λ t. type_of t.now) result ≡ first_type s (own_trees own.now) }
{
    for begun in own {
        if let Some(dtype) = dtype_in(begun) {
            return Some(dtype);
        }
    }
    None
}

// The type that is known of it, if it is there.
fn dtype_in(begun: &Option<Settled>) -> Option<&DType>
    ensures { option_map (λ t. t.now) result ≡ dtype_in begun.now }
{
    match begun {
        Some(settled) => settled.dtype.as_ref(),
        None => None,
    }
}

// Whether none is there.
pub(crate) fn are_none(own: &[Option<Settled>]) -> bool
    ensures { result ≡ none_of (own_trees own.now) }
{
    for begun in own {
        if begun.is_some() {
            return false;
        }
    }
    true
}

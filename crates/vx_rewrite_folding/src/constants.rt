// Literals, and nodes over them.
ghost use Rattle.std.specs.Prelude.{◌≡◌, ◌⊎◌, ◌<◌, None, Ok, Option, get_or, length, true};
ghost use Rattle.std.specs.Option.{option_map};
ghost use Rattle.vx_dtype.specs.declared.error.VortexError.TheVariants.{OutOfMemory};
ghost use Rattle.vx_value.specs.Returns.{ReturnsOrOom};
ghost use Rattle.vx_value.specs.Columns.{batch};
ghost use Rattle.vx_value.specs.Types.{null};
ghost use Rattle.vx_fn.specs.Functions.{truth_type};
ghost use Rattle.vx_fn.specs.Views.{function_of};
ghost use Rattle.vx_rewrite_folding.specs.Constants.{is_constant};
ghost use Rattle.vx_rewrite_rule_laws.specs.Folding.{are_literals, constant_given, is_computed, one_row, truth_literal};
ghost use Rattle.vx_rewrite_core.specs.Nodes.{literal_node};
ghost use Rattle.vx_tree.specs.Trees.{BoundTree, WellTyped};
ghost use Rattle.vx_tree.specs.Views.{bound_of, bounds_of};

use std::alloc::Global;
use vx_dtype::{DType, Nullability, VortexError};
use vx_eval::apply_bound;
use vx_fn::ScalarFnRef;
use vx_rewrite_core::literal_value;
use vx_tree::{BoundExpression, VortexResult};
use vx_value::{Column, Scalar, Value};

// Whether the function is computed where all children are literals.
fn is_computed(scalar_fn: &ScalarFnRef) -> bool
    ensures { result ≡ is_computed (function_of scalar_fn.now) }
{
    match scalar_fn {
        ScalarFnRef::Binary(_) | ScalarFnRef::Not(_) | ScalarFnRef::Between(_) => true,
        ScalarFnRef::IsNull(_) | ScalarFnRef::IsNotNull(_) | ScalarFnRef::FillNull(_) => true,
        ScalarFnRef::Like(_) | ScalarFnRef::Mask(_) | ScalarFnRef::Cast(_) => true,
        ScalarFnRef::StartsWith(_) | ScalarFnRef::ByteLength(_) => true,
        ScalarFnRef::ListContains(_) => true,
        ScalarFnRef::CaseWhen(_) | ScalarFnRef::Zip(_) | ScalarFnRef::Literal(_) => false,
        ScalarFnRef::GetItem(_) | ScalarFnRef::Pack(_) | ScalarFnRef::Select(_) => false,
    }
}

// What is given at a node over literals: the literal of its type and value, unless it faults.
pub(crate) fn constant_given(
    alloc: Global,
    node: &BoundExpression,
) -> VortexResult<Option<BoundExpression>>
    requires { WellTyped (bound_of node.now) }
    ensures { ReturnsOrOom (option_map bound_of) result (Ok (constant_given (bound_of node.now))) }
{
    if !is_constant(node) {
        return Ok(None);
    }
    let row = one_row(alloc)?;
    match apply_bound(alloc, &row, node) {
        Ok(column) => Ok(Some(first_row(alloc, &column)?)),
        Err(fault) => unless_memory(&fault),
    }
}

// Nothing, where a node faults; but want of memory is handed on.
fn unless_memory(fault: &VortexError) -> VortexResult<Option<BoundExpression>>
    ensures { (said : Option BoundTree) → (fault.now ≡ OutOfMemory) ⊎ (said ≡ None) → ReturnsOrOom (option_map bound_of) result (Ok said) }
{
    match fault {
        VortexError::OutOfMemory => Err(VortexError::OutOfMemory),
        _ => Ok(None),
    }
}

// Whether the node's function is computed, and all children are literals.
pub(crate) fn is_constant(node: &BoundExpression) -> bool
    ensures { result ≡ is_constant (bound_of node.now) }
{
    match node {
        BoundExpression::Scalar {
            scalar_fn,
            children,
            ..
        } => is_computed(scalar_fn) && are_literals(children.as_slice()),
        BoundExpression::Root { .. } => false,
    }
}

// Whether each of the trees is a literal: of the children of a function that is computed, which are
// three at most.
fn are_literals(trees: &[BoundExpression]) -> bool
    ensures { result ≡ are_literals (bounds_of trees.now) }
{
    match trees {
        [] => true,
        [first, rest @ ..] => literal_value(first).is_some() && are_literals(rest),
    }
}

// A batch of one row: a node over literals gives the same in each.
fn one_row(alloc: Global) -> VortexResult<Column>
    ensures { ReturnsOrOom (λ c. c) result (Ok (batch (truth_type true) one_row)) }
{
    let rows = vec![in alloc; Value::Null]?;
    Column::try_new(DType::Bool(Nullability::Nullable), rows)
}

// The literal of the first row.
fn first_row(alloc: Global, column: &Column) -> VortexResult<BoundExpression>
    requires { 0 < length column.now.rows }
    ensures { ReturnsOrOom bound_of result (Ok (literal_node column.now.type (get_or column.now.rows 0 null))) }
{
    let value = column.row(0).clone()?;
    literal(alloc, Scalar::try_new(column.dtype().clone()?, value)?)
}

// The literal of that truth value, of the type without null.
pub(crate) fn truth_literal(alloc: Global, b: bool) -> VortexResult<BoundExpression>
    ensures { ReturnsOrOom bound_of result (Ok (truth_literal b)) }
{
    literal(alloc, Scalar::from_bool(b))
}

// The literal of the scalar.
pub(crate) fn literal(alloc: Global, scalar: Scalar) -> VortexResult<BoundExpression>
    ensures { ReturnsOrOom bound_of result (Ok (literal_node scalar.type scalar.value)) }
{
    let dtype = scalar.dtype().clone()?;
    BoundExpression::new_typed(alloc, dtype, ScalarFnRef::Literal(scalar), Vec::new(alloc))
}

// The tree that is true exactly where another isn't null.
ghost use Rattle.std.specs.Prelude.{◌≡◌, IfOk, Ok, false};
ghost use Rattle.vx_value.specs.Returns.{ReturnsOrOom};
ghost use Rattle.vx_fn.specs.Functions.{truth_type};
ghost use Rattle.vx_fn.specs.Views.{function_of};
ghost use Rattle.vx_tree.specs.Trees.{WellTyped, node};
ghost use Rattle.vx_tree.specs.Validity.{truth_literal, not_null_of, fill_of_node, validity_of, TellsValidity};
ghost use Rattle.vx_tree.specs.Views.{bound_of, bounds_of};

use crate::BoundExpression;
use std::alloc::Global;
use vx_dtype::{DType, Nullability, VortexResult};
use vx_fn::{EmptyOptions, ScalarFnRef};
use vx_value::{Scalar, Value};

impl BoundExpression {
    /// The tree of type `bool`, never null, that is true exactly in the rows in which this one isn't
    /// null, and faults on no batch on which this one doesn't: for a literal a truth literal, for
    /// `Pack` the literal `true`, for `FillNull` `is_not_null` of its fill, and for all else
    /// `is_not_null` of the node. Asks a well-typed tree. Refuses with `OutOfMemory` (1) alone.
    pub fn validity(&self, alloc: Global) -> VortexResult<BoundExpression>
        requires { WellTyped (bound_of self.now) }
        ensures node { ReturnsOrOom bound_of result (Ok (validity_of (bound_of self.now))) }
        ensures tells { IfOk result (λ u. TellsValidity (bound_of self.now) (bound_of u)) }
    {
        validity_of(alloc, self)
    }
}

fn validity_of(alloc: Global, node: &BoundExpression) -> VortexResult<BoundExpression>
    ensures { ReturnsOrOom bound_of result (Ok (validity_of (bound_of node.now))) }
{
    match node {
        BoundExpression::Root { .. } => not_null(alloc, node),
        BoundExpression::Scalar {
            scalar_fn,
            children,
            ..
        } => match scalar_fn {
            ScalarFnRef::Literal(scalar) => truth(alloc, !scalar.is_null()),
            ScalarFnRef::Pack(_) => truth(alloc, true),
            ScalarFnRef::FillNull(_) => not_null(alloc, fill_of(node, children.as_slice())),
            _ => not_null(alloc, node),
        },
    }
}

// The second of two children, or the node.
fn fill_of<'a>(node: &'a BoundExpression, children: &'a [BoundExpression]) -> &'a BoundExpression
    ensures { bound_of result.now ≡ fill_of_node (bound_of node.now) (bounds_of children.now) }
{
    match children {
        [_, fill] => fill,
        _ => node,
    }
}

// A literal truth value.
fn truth(alloc: Global, value: bool) -> VortexResult<BoundExpression>
    ensures { ReturnsOrOom bound_of result (Ok (truth_literal value)) }
{
    let scalar_fn = ScalarFnRef::Literal(Scalar::from_bool(value));
    truth_node(alloc, scalar_fn, Vec::new(alloc))
}

// The test that the node isn't null.
fn not_null(alloc: Global, node: &BoundExpression) -> VortexResult<BoundExpression>
    ensures { ReturnsOrOom bound_of result (Ok (not_null_of (bound_of node.now))) }
{
    let children = vec![in alloc; node.clone()?]?;
    truth_node(alloc, ScalarFnRef::IsNotNull(EmptyOptions), children)
}

// A node of type `bool`, never null.
fn truth_node(
    alloc: Global,
    scalar_fn: ScalarFnRef,
    children: Vec<BoundExpression>,
) -> VortexResult<BoundExpression>
    ensures { ReturnsOrOom bound_of result (Ok (node (truth_type false) (function_of scalar_fn) (bounds_of children.items))) }
{
    let dtype = DType::Bool(Nullability::NonNullable);
    BoundExpression::new_typed(alloc, dtype, scalar_fn, children)
}

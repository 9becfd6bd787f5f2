// The test that a bound tree is well typed.
ghost use Rattle.std.specs.Prelude.{◌≡◌, ◌↔◌, IfOk, IsTrue, MatchResult, Ok, map};
ghost use Rattle.vx_value.specs.Returns.{ReturnsOrOom};
ghost use Rattle.vx_dtype.specs.declared.error.VortexError.TheVariants.{OutOfMemory};
ghost use Rattle.vx_value.specs.Views.{type_of};
ghost use Rattle.vx_fn.specs.Functions.{fn_type};
ghost use Rattle.vx_fn.specs.Views.{function_of};
ghost use Rattle.vx_tree.specs.Checked.{is_given, has_fitting_literal, is_well_typed, are_well_typed};
ghost use Rattle.vx_tree.specs.Trees.{WellTyped, node_types};
ghost use Rattle.vx_tree.specs.Views.{bound_of, bounds_of};

use crate::BoundExpression;
use crate::bound::dtype_over;
use std::alloc::Global;
use vx_dtype::{DType, VortexError, VortexResult};
use vx_fn::ScalarFnRef;

impl BoundExpression {
    /// Whether each node has the type that its function gives over its children's types. What
    /// [`BoundExpression::try_new`], `with_children` and `bind` give is well typed where their
    /// children are; a node that is put together by its fields need not be. Each node is typed
    /// once. Refuses with `OutOfMemory` (1) alone.
    pub fn is_well_typed(&self, alloc: Global) -> VortexResult<bool>
        ensures { MatchResult result (λ told. IsTrue told ↔ WellTyped (bound_of self.now)) (λ e. e ≡ OutOfMemory) }
    {
        is_well_typed(alloc, self)
    }
}

#[cycle(checked)]
fn is_well_typed(alloc: Global, b: &BoundExpression) -> VortexResult<bool>
    ensures { ReturnsOrOom (λ told. told) result (Ok (is_well_typed (bound_of b.now))) }
{
    match b {
        BoundExpression::Root { .. } => Ok(true),
        BoundExpression::Scalar {
            dtype,
            scalar_fn,
            children,
        } => {
            let children = children.as_slice();
            if !is_given(alloc, scalar_fn, children, dtype)? {
                return Ok(false);
            }
            are_well_typed(alloc, children)
        }
    }
}

#[cycle(checked)]
fn are_well_typed(alloc: Global, bs: &[BoundExpression]) -> VortexResult<bool>
    ensures { ReturnsOrOom (λ told. told) result (Ok (are_well_typed (bounds_of bs.now))) }
{
    for b in bs {
        if !is_well_typed(alloc, b)? {
            return Ok(false);
        }
    }
    Ok(true)
}

// Whether the function gives that type over the children's types.
fn is_given(
    alloc: Global,
    scalar_fn: &ScalarFnRef,
    children: &[BoundExpression],
    dtype: &DType,
) -> VortexResult<bool>
    ensures given { ReturnsOrOom (λ told. told) result (Ok (is_given (fn_type (function_of scalar_fn.now) (node_types (bounds_of children.now))) (type_of dtype.now))) }
    ensures literal { IfOk result (λ told. IsTrue told → IsTrue (has_fitting_literal (function_of scalar_fn.now))) }
{
    match dtype_over(alloc, scalar_fn, children) {
        Ok(given) => Ok(given == *dtype),
        Err(VortexError::OutOfMemory) => Err(VortexError::OutOfMemory),
        Err(_) => Ok(false),
    }
}

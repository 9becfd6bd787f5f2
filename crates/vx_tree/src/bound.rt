// Expressions bound to a scope: each node has its type.
ghost use Rattle.std.specs.Prelude.{◌≡◌, ◌≢◌, length, IfOk, IfSome, IsErrOf, IsTrue, Ok, map};
ghost use Rattle.vx_value.specs.Returns.{ReturnsOrOom, Returns};
ghost use Rattle.vx_value.specs.Views.{type_of};
ghost use Rattle.vx_dtype.specs.declared.error.VortexError.TheVariants.{ArityMismatch};
ghost use Rattle.vx_fn.specs.Functions.{arity_of, fn_type, HasFittingLiteral};
ghost use Rattle.vx_fn.specs.Views.{function_of};
ghost use Rattle.vx_tree.specs.Binding.{node_over};
ghost use Rattle.vx_tree.specs.Nodes.{bound_over, bound_children_of, is_root, number_refusal};
ghost use Rattle.vx_tree.specs.Trees.{scope, node, unbound, node_type, node_types, WellTyped, EachWellTyped};
ghost use Rattle.vx_tree.specs.Views.{bound_of, bounds_of};

use std::alloc::{AllocError, Global};
use std::sync::Arc;
use vx_dtype::{DType, VortexError, VortexResult};
use vx_fn::{ScalarFnRef, Typed};

/// A tree of functions over the row of a scope whose type is known, with the type of each node;
/// clones share their children.
#[derive(Debug)]
pub enum BoundExpression {
    /// A function over children. Where it is made without [`BoundExpression::try_new`], nothing
    /// says that the type is the one that the function gives.
    Scalar {
        dtype: DType,
        scalar_fn: ScalarFnRef,
        children: Arc<Vec<BoundExpression>>,
    },
    /// The row of the scope.
    Root {
        dtype: DType,
    },
}

impl Drop for BoundExpression {
    fn drop(self) {
        match self {
            BoundExpression::Scalar {
                dtype,
                scalar_fn,
                children,
            } => {
                drop(dtype);
                drop(scalar_fn);
                drop(children);
            }
            BoundExpression::Root { dtype } => drop(dtype),
        }
    }
}

impl Clone for BoundExpression {
    ghost is_clone = { λ b copy. bound_of copy ≡ bound_of b };

    fn clone(&self) -> Result<BoundExpression, AllocError> {
        match self {
            BoundExpression::Scalar {
                dtype,
                scalar_fn,
                children,
            } => Ok(BoundExpression::Scalar {
                dtype: dtype.clone()?,
                scalar_fn: scalar_fn.clone()?,
                children: children.clone()?,
            }),
            BoundExpression::Root { dtype } => Ok(BoundExpression::Root {
                dtype: dtype.clone()?,
            }),
        }
    }
}

impl BoundExpression {
    /// The row of a scope of that type.
    pub fn new_root(scope_dtype: DType) -> BoundExpression
        ensures { bound_of result ≡ scope (type_of scope_dtype) }
    {
        BoundExpression::Root { dtype: scope_dtype }
    }

    /// The type of the node.
    pub fn dtype(&self) -> &DType
        ensures { type_of result.now ≡ node_type (bound_of self.now) }
    {
        match self {
            BoundExpression::Scalar { dtype, .. } => dtype,
            BoundExpression::Root { dtype } => dtype,
        }
    }

    /// The node of the function over the children, with the type that the function gives over
    /// theirs. It is well typed where they are.
    ///
    /// Refuses with `ArityMismatch` (2) exactly where the number of children isn't the arity, which
    /// takes no memory, and else as the function does over the children's types (4 to 11).
    pub fn try_new(
        alloc: Global,
        scalar_fn: ScalarFnRef,
        children: Vec<BoundExpression>,
    ) -> VortexResult<BoundExpression>
        ensures node { ReturnsOrOom bound_of result (node_over (function_of scalar_fn) (bounds_of children.items)) }
        ensures mismatch { length children.items ≢ arity_of (function_of scalar_fn) →
            IsErrOf result (ArityMismatch (arity_of (function_of scalar_fn)) (length children.items)) }
        ensures well_typed { EachWellTyped (bounds_of children.items) → IfOk result (λ b. WellTyped (bound_of b)) }
    {
        let dtype = dtype_over(alloc, &scalar_fn, children.as_slice())?;
        BoundExpression::new_typed(alloc, dtype, scalar_fn, children)
    }

    /// The node of that type and function over the children, as they are: that the function gives
    /// that type over theirs is for the caller to know. Refuses with `OutOfMemory` (1) alone.
    pub fn new_typed(
        alloc: Global,
        dtype: DType,
        scalar_fn: ScalarFnRef,
        children: Vec<BoundExpression>,
    ) -> VortexResult<BoundExpression>
        ensures { ReturnsOrOom bound_of result (Ok (node (type_of dtype) (function_of scalar_fn) (bounds_of children.items))) }
    {
        Ok(BoundExpression::Scalar {
            dtype,
            scalar_fn,
            children: Arc::new(alloc, children)?,
        })
    }

    /// The node over other children, with the type that the function gives over theirs.
    ///
    /// It is well typed where the children are. A well-typed node over children equal to its own is
    /// an equal node.
    ///
    /// Refuses with `RootChildren` (3) exactly where the scope root is given children, with
    /// `ArityMismatch` (2) exactly where their number isn't the function's arity, and else as the
    /// function does over the children's types (4 to 11). The first two take no memory, and neither
    /// does the scope root over none, which stays itself.
    pub fn with_children(
        self,
        alloc: Global,
        children: Vec<BoundExpression>,
    ) -> VortexResult<BoundExpression>
        ensures node { ReturnsOrOom bound_of result (bound_over (bound_of self) (bounds_of children.items)) }
        ensures well_typed { EachWellTyped (bounds_of children.items) → IfOk result (λ b. WellTyped (bound_of b)) }
        ensures same { WellTyped (bound_of self) → bounds_of children.items ≡ bound_children_of (bound_of self) →
            ReturnsOrOom bound_of result (Ok (bound_of self)) }
        ensures number { IfSome (number_refusal (bound_of self) (bounds_of children.items)) (λ e. result ≡ Err e) }
        ensures root { IsTrue (is_root (unbound (bound_of self))) →
            Returns bound_of result (bound_over (bound_of self) (bounds_of children.items)) }
    {
        match self {
            BoundExpression::Root { dtype } => {
                if children.is_empty() {
                    return Ok(BoundExpression::Root { dtype });
                }
                Err(VortexError::RootChildren {
                    got: children.len(),
                })
            }
            BoundExpression::Scalar {
                dtype: _,
                scalar_fn,
                children: _,
            } => BoundExpression::try_new(alloc, scalar_fn, children),
        }
    }
}

impl Typed for BoundExpression {
    ghost dtype_of = { λ b. node_type (bound_of b) };

    fn as_dtype(&self) -> &DType {
        self.dtype()
    }
}

// The type of a node of the function over the children.
#[inline(never)]
#[tactic(auto, using(crate::proofs::Nodes::types_seen))]
pub(crate) fn dtype_over(
    alloc: Global,
    scalar_fn: &ScalarFnRef,
    children: &[BoundExpression],
) -> VortexResult<DType>
    ensures typed { ReturnsOrOom type_of result (fn_type (function_of scalar_fn.now) (node_types (bounds_of children.now))) }
    ensures literal { IfOk result (λ _. HasFittingLiteral (function_of scalar_fn.now)) }
    ensures arity { length children.now ≢ arity_of (function_of scalar_fn.now) →
        IsErrOf result (ArityMismatch (arity_of (function_of scalar_fn.now)) (length children.now)) }
{
    scalar_fn.dtype_over(alloc, children)
}

/// Copies of the types of the nodes, from left to right. Fails for want of memory alone.
#[tactic(auto, using(crate::proofs::Nodes::types_seen))]
pub fn dtypes_of(alloc: Global, nodes: &[BoundExpression]) -> Result<Vec<DType>, AllocError>
    ensures types { IfOk result (λ types. map type_of types.items ≡ node_types (bounds_of nodes.now)) }
    ensures count { IfOk result (λ types. length types.items ≡ length nodes.now) }
{
    vx_fn::dtypes_of(alloc, nodes)
}

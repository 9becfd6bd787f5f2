// Expressions that aren't bound to a scope.
ghost use Rattle.std.specs.Prelude.{◌≡◌, ℕ, IfOk, IsErr, Ok};
ghost use Rattle.vx_value.specs.Returns.{ReturnsOrOom, Returns};
ghost use Rattle.vx_fn.specs.Views.{function_of};
ghost use Rattle.vx_tree.specs.Nodes.{call_over, tree_over};
ghost use Rattle.vx_tree.specs.Trees.{root};
ghost use Rattle.vx_tree.specs.Views.{tree_of, trees_of};

use std::alloc::{AllocError, Global};
use std::sync::Arc;
use vx_dtype::{VortexError, VortexResult};
use vx_fn::ScalarFnRef;

/// A tree of functions over the row of a scope that isn't known yet; clones share their children.
#[derive(Debug)]
pub enum Expression {
    /// A function over children. Its number of children may differ from its arity where it is made
    /// without [`Expression::try_new`]; binding then refuses it.
    Scalar {
        scalar_fn: ScalarFnRef,
        children: Arc<Vec<Expression>>,
    },
    /// The row of the scope.
    Root,
}

impl Drop for Expression {
    fn drop(self) {
        match self {
            Expression::Scalar {
                scalar_fn,
                children,
            } => {
                drop(scalar_fn);
                drop(children);
            }
            Expression::Root => {}
        }
    }
}

impl Clone for Expression {
    ghost is_clone = { λ e copy. tree_of copy ≡ tree_of e };

    fn clone(&self) -> Result<Expression, AllocError> {
        match self {
            Expression::Scalar {
                scalar_fn,
                children,
            } => Ok(Expression::Scalar {
                scalar_fn: scalar_fn.clone()?,
                children: children.clone()?,
            }),
            Expression::Root => Ok(Expression::Root),
        }
    }
}

impl Expression {
    /// The node of the function over the children.
    ///
    /// Refuses with `ArityMismatch` (2) exactly where the number of children isn't the arity; that
    /// refusal takes no memory.
    pub fn try_new(
        alloc: Global,
        scalar_fn: ScalarFnRef,
        children: Vec<Expression>,
    ) -> VortexResult<Expression>
        ensures node { ReturnsOrOom tree_of result (call_over (function_of scalar_fn) (trees_of children.items)) }
        ensures refusal { IsErr (call_over (function_of scalar_fn) (trees_of children.items)) →
            Returns tree_of result (call_over (function_of scalar_fn) (trees_of children.items)) }
    {
        let expected = scalar_fn.arity();
        let got = children.len();
        if got != expected {
            return Err(VortexError::ArityMismatch { expected, got });
        }
        Ok(Expression::Scalar {
            scalar_fn,
            children: Arc::new(alloc, children)?,
        })
    }

    /// The node over other children.
    ///
    /// Refuses with `ArityMismatch` (2) exactly where their number isn't the function's arity, and
    /// with `RootChildren` (3) exactly where the scope root is given some; these refusals take no
    /// memory, and neither does the scope root over none, which stays itself.
    pub fn with_children(self, alloc: Global, children: Vec<Expression>) -> VortexResult<Expression>
        ensures node { ReturnsOrOom tree_of result (tree_over (tree_of self) (trees_of children.items)) }
        ensures refusal { IsErr (tree_over (tree_of self) (trees_of children.items)) →
            Returns tree_of result (tree_over (tree_of self) (trees_of children.items)) }
        ensures root { tree_of self ≡ root → Returns tree_of result (tree_over (tree_of self) (trees_of children.items)) }
    {
        match self {
            Expression::Root => {
                if children.is_empty() {
                    return Ok(Expression::Root);
                }
                Err(VortexError::RootChildren {
                    got: children.len(),
                })
            }
            Expression::Scalar {
                scalar_fn,
                children: _,
            } => Expression::try_new(alloc, scalar_fn, children),
        }
    }
}

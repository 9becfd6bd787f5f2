// Trees of either kind, as code that serves both sees them.
ghost use Rattle.std.specs.Prelude.{◌≡◌, List, length, map, option_map, Result, Ok, Err};
ghost use Rattle.std.proofs.Common.{inl, refl};
ghost use Rattle.vx_dtype.specs.declared.error.VortexError.{VortexError};
ghost use Rattle.vx_dtype.specs.declared.error.VortexError.TheVariants.{OutOfMemory};
ghost use Rattle.vx_value.specs.Returns.{ReturnsOrOom};
ghost use Rattle.vx_fn.specs.Functions.{Function, arity_of};
ghost use Rattle.vx_fn.specs.Views.{function_of};
ghost use Rattle.vx_tree.specs.Binding.{node_over};
ghost use Rattle.vx_tree.specs.Built.{GivesNode, GivesBoundNode};
ghost use Rattle.vx_tree.specs.Nodes.{function_at, children_of};
ghost use Rattle.vx_tree.specs.Trees.{Tree, call, BoundTree, unbound};
ghost use Rattle.vx_tree.specs.Views.{tree_of, trees_from, trees_of, bound_of, bounds_from, bounds_of};

use crate::{BoundExpression, Expression};
use std::alloc::Global;
use vx_dtype::VortexResult;
use vx_fn::ScalarFnRef;

/// A tree of either kind: what is at its first node, and how a node is made over others. Code that
/// is generic over it serves sources and bound trees alike.
pub trait TreeNode: Drop + Sized {
    /// What a tree stands for.
    ghost Seen: { Type 0 };

    ghost seen: { Self → Seen };

    /// The tree without types.
    ghost tree: { Self → Tree };

    /// The node of a function over as many children as it takes, or its refusal.
    ghost over: { Function → List Seen → Result Seen VortexError };

    /// What a call that makes that node answers.
    ghost gives: { Function → List Self → Result Self VortexError → Type 0 };

    /// The children from left to right, none at a scope root.
    fn node_children(&self) -> &[Self]
        ensures { trees_from (map tree result.now) ≡ children_of (tree self.now) };

    /// The function of a function node, None at a scope root.
    fn node_function(&self) -> Option<&ScalarFnRef>
        ensures { option_map (λ f. function_of f.now) result ≡ function_at (tree self.now) };

    /// The node of the function over the children. Asks for as many as the function takes.
    ///
    /// Over sources it refuses with `OutOfMemory` (1) alone, over bound trees as the function does
    /// over the children's types (4 to 11).
    fn of_function(alloc: Global, scalar_fn: ScalarFnRef, children: Vec<Self>) -> VortexResult<Self>
        requires { length children.items ≡ arity_of (function_of scalar_fn) }
        ensures { gives (function_of scalar_fn) children.items result };

    /// What is answered is the node over what the children stand for, or its refusal.
    ghost given_is_over: { (f : Function) (xs : List Self) (r : Result Self VortexError) → gives f xs r → ReturnsOrOom seen r (over f (map seen xs)) };

    /// Want of memory may always be answered.
    ghost memory_may_end: { (f : Function) (xs : List Self) → gives f xs (Err OutOfMemory) };
}

impl TreeNode for Expression {
    ghost Seen = { Tree };

    ghost seen = { tree_of };

    ghost tree = { tree_of };

    ghost over = { λ f es. Ok (call f (trees_from es)) };

    ghost gives = { λ f es result. GivesNode f (trees_of es) result };

    ghost given_is_over = { λ f es r given. given };

    ghost memory_may_end = { λ f es. inl refl };

    fn node_children(&self) -> &[Expression] {
        self.children()
    }

    fn node_function(&self) -> Option<&ScalarFnRef> {
        self.as_scalar()
    }

    #[tactic(auto, using(crate::proofs::Built::gives_node))]
    fn of_function(
        alloc: Global,
        scalar_fn: ScalarFnRef,
        children: Vec<Expression>,
    ) -> VortexResult<Expression>
        requires { length children.items ≡ arity_of (function_of scalar_fn) }
        ensures { GivesNode (function_of scalar_fn) (trees_of children.items) result }
    {
        Expression::try_new(alloc, scalar_fn, children)
    }
}

impl TreeNode for BoundExpression {
    ghost Seen = { BoundTree };

    ghost seen = { bound_of };

    ghost tree = { λ b. unbound (bound_of b) };

    ghost over = { λ f bs. node_over f (bounds_from bs) };

    ghost gives = { λ f bs result. GivesBoundNode f (bounds_of bs) result };

    ghost given_is_over = { λ f bs r given. given.node };

    ghost memory_may_end = { λ f bs. record { node = inl refl; stands = tt } };

    fn node_children(&self) -> &[BoundExpression] {
        self.children()
    }

    fn node_function(&self) -> Option<&ScalarFnRef> {
        self.as_scalar()
    }

    #[tactic(auto, using(crate::proofs::Built::gives_bound_node))]
    fn of_function(
        alloc: Global,
        scalar_fn: ScalarFnRef,
        children: Vec<BoundExpression>,
    ) -> VortexResult<BoundExpression>
        requires { length children.items ≡ arity_of (function_of scalar_fn) }
        ensures { GivesBoundNode (function_of scalar_fn) (bounds_of children.items) result }
    {
        BoundExpression::try_new(alloc, scalar_fn, children)
    }
}

// Sets of rules.
ghost use Rattle.std.specs.Prelude.{◌≡◌, IfOk, IfErr, IsFalse, MatchOption};
ghost use Rattle.vx_dtype.specs.declared.error.VortexError.TheVariants.{OutOfMemory};
ghost use Rattle.vx_tree.specs.Trees.{BoundTree, WellTyped};
ghost use Rattle.vx_tree.specs.Views.{bound_of};
ghost use Rattle.vx_rewrite_core.specs.Lawful.{Lawful};
ghost use Rattle.vx_rewrite_core.specs.Steps.{GivesNothing};

use std::alloc::Global;
use vx_tree::{BoundExpression, VortexResult};

/// A lawful set of rules: what it gives at a node keeps the tree there, is lighter, and leaves what
/// no rule fits below the root as it is. The optimizer takes any such set, and its promises hold for
/// each.
pub trait Rule {
    /// What the rules give at the root of a tree.
    ghost gives: { Self → BoundTree → BoundTree → Type 0 };

    /// Whether a rule may fit at the root: where this answers false, none does. Asks a well-typed
    /// tree.
    ///
    /// It is asked at each node before [`Rule::apply_at`], so it should look at little. A set that
    /// doesn't say is asked for its rules everywhere.
    fn may_fit(&self, node: &BoundExpression) -> bool
        requires { WellTyped (bound_of node.now) }
        ensures none { IsFalse result → GivesNothing (gives self.now) (bound_of node.now) }
    {
        let _any = node;
        true
    }

    /// The tree that a rule gives at the root, None exactly where no rule fits. Asks a well-typed
    /// tree.
    ///
    /// Refuses with `OutOfMemory` (1) alone.
    fn apply_at(
        &self,
        alloc: Global,
        node: &BoundExpression,
    ) -> VortexResult<Option<BoundExpression>>
        requires { WellTyped (bound_of node.now) }
        ensures gives { IfOk result (λ o. MatchOption o (GivesNothing (gives self.now) (bound_of node.now)) (λ u. gives self.now (bound_of node.now) (bound_of u))) }
        ensures memory { IfErr result (λ e. e ≡ OutOfMemory) };

    /// What the rules give keeps the tree, is lighter, and stays normal below the root.
    ghost lawful: { (rules : Self) → Lawful (gives rules) };
}

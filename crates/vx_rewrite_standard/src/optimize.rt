// Trees optimized by the standard rules.
ghost use Rattle.std.specs.Prelude.{◌≡◌, ◌↔◌, IfOk, IfErr, IfSome, IsNone};
ghost use Rattle.vx_dtype.specs.declared.error.VortexError.TheVariants.{OutOfMemory};
ghost use Rattle.vx_tree.specs.Trees.{BoundTree, WellTyped};
ghost use Rattle.vx_tree.specs.Views.{bound_of};
ghost use Rattle.vx_rewrite_core.specs.Steps.{GivesNothing, Normal};
ghost use Rattle.vx_rewrite_core.specs.NormalForms.{NormalForm, RootNormalForm};
ghost use Rattle.vx_rewrite_rule_laws.specs.Rules.{RuleAt};

use crate::standard::StandardRules;
use std::alloc::Global;
use vx_rewrite_core::{optimize_with, optimized, optimized_root};
use vx_tree::{BoundExpression, VortexResult};

/// What the standard rules leave of a tree. Each call asks a well-typed tree and refuses with
/// `OutOfMemory` (1) alone, however many steps there are. What it gives keeps the tree: it is well
/// typed, over the same scopes, of a type that is no wider, and on a batch on which the tree doesn't
/// fault it doesn't either and has the same meaning in every row.
pub trait Optimize {
    /// The tree.
    ghost seen: { Self → BoundTree };

    /// The tree with the rules applied at its root until none fits there; the tree itself where none
    /// fits at first. So what was optimized is optimized to an equal tree.
    fn optimize(&self, alloc: Global) -> VortexResult<BoundExpression>
        requires { WellTyped (seen self.now) }
        ensures form { IfOk result (λ u. RootNormalForm RuleAt (seen self.now) (bound_of u)) }
        ensures same { GivesNothing RuleAt (seen self.now) → IfOk result (λ u. bound_of u ≡ seen self.now) }
        ensures memory { IfErr result (λ e. e ≡ OutOfMemory) };

    /// The tree with the rules applied at every node until none fits at any, the root before its
    /// children and again where one of them changed; the tree itself where none fits at first. So
    /// what was optimized is optimized to an equal tree.
    fn optimize_recursive(&self, alloc: Global) -> VortexResult<BoundExpression>
        requires { WellTyped (seen self.now) }
        ensures form { IfOk result (λ u. NormalForm RuleAt (seen self.now) (bound_of u)) }
        ensures same { Normal RuleAt (seen self.now) → IfOk result (λ u. bound_of u ≡ seen self.now) }
        ensures memory { IfErr result (λ e. e ≡ OutOfMemory) };

    /// The same, None exactly where no rule fits at any node.
    fn try_optimize_recursive(&self, alloc: Global) -> VortexResult<Option<BoundExpression>>
        requires { WellTyped (seen self.now) }
        ensures form { IfOk result (λ o. IfSome o (λ u. NormalForm RuleAt (seen self.now) (bound_of u))) }
        ensures none { IfOk result (λ o. IsNone o ↔ Normal RuleAt (seen self.now)) }
        ensures memory { IfErr result (λ e. e ≡ OutOfMemory) };
}

impl Optimize for BoundExpression {
    ghost seen = { bound_of };

    fn optimize(&self, alloc: Global) -> VortexResult<BoundExpression> {
        optimized_root(alloc, &StandardRules, self)
    }

    fn optimize_recursive(&self, alloc: Global) -> VortexResult<BoundExpression> {
        optimized(alloc, &StandardRules, self)
    }

    fn try_optimize_recursive(&self, alloc: Global) -> VortexResult<Option<BoundExpression>> {
        optimize_with(alloc, &StandardRules, self)
    }
}

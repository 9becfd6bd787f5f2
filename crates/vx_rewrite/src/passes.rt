// Passes over bound trees, one after another.
ghost use Rattle.std.specs.Prelude.{◌≡◌, IfOk, IfErr};
ghost use Rattle.vx_dtype.specs.declared.error.VortexError.TheVariants.{OutOfMemory};
ghost use Rattle.vx_rewrite_core.specs.Keeps.{Keeps};
ghost use Rattle.vx_rewrite.specs.Passes.{Gives, Passed};
ghost use Rattle.vx_tree.specs.Trees.{WellTyped};
ghost use Rattle.vx_tree.specs.Views.{bound_of};

use std::alloc::Global;
use vx_rewrite_core::optimized;
use vx_rewrite_folding::FoldingRules;
use vx_rewrite_fusing::find_between;
use vx_rewrite_standard::{BranchRules, Optimize};
use vx_tree::{BoundExpression, VortexResult};

/// A pass over a bound tree.
#[derive(Clone, Copy, Debug, PartialEq, Eq)]
pub enum Pass {
    /// The standard rules at the root alone: [`Optimize::optimize`].
    Optimize,
    /// The standard rules at every node: [`Optimize::optimize_recursive`].
    OptimizeRecursive,
    /// Comparisons of one item as one `Between`: [`find_between`].
    FindBetween,
    /// The branch rules at every node: [`optimize_with`](vx_rewrite_core::optimize_with) of
    /// [`BranchRules`], the tree itself on None.
    Branches,
    /// The folding rules at every node: [`optimize_with`](vx_rewrite_core::optimize_with) of
    /// [`FoldingRules`], the tree itself on None.
    Fold,
}

/// The tree after these passes, in their order; for an empty list the tree itself. It keeps the
/// tree: it is well typed, over the same scopes, of a type that is no wider, and on a batch on which
/// the tree doesn't fault it doesn't either and has the same meaning in every row.
///
/// Asks a well-typed tree. Refuses with `OutOfMemory` (1) alone.
pub fn run_passes(
    alloc: Global,
    tree: BoundExpression,
    passes: &[Pass],
) -> VortexResult<BoundExpression>
    requires { WellTyped (bound_of tree) }
    ensures passed { IfOk result (λ u. Passed passes.now (bound_of tree) (bound_of u)) }
    ensures keeps { IfOk result (λ u. Keeps (bound_of tree) (bound_of u)) }
    ensures memory { IfErr result (λ e. e ≡ OutOfMemory) }
{
    let mut tree = tree;
    for pass in passes {
        tree = run_pass(alloc, tree, *pass)?;
    }
    Ok(tree)
}

// The tree after one pass.
fn run_pass(alloc: Global, tree: BoundExpression, pass: Pass) -> VortexResult<BoundExpression>
    requires { WellTyped (bound_of tree) }
    ensures gives { IfOk result (λ u. Gives pass (bound_of tree) (bound_of u)) }
    ensures keeps { IfOk result (λ u. Keeps (bound_of tree) (bound_of u)) }
    ensures memory { IfErr result (λ e. e ≡ OutOfMemory) }
{
    match pass {
        Pass::Optimize => tree.optimize(alloc),
        Pass::OptimizeRecursive => tree.optimize_recursive(alloc),
        Pass::FindBetween => find_between(alloc, tree),
        Pass::Branches => optimized(alloc, &BranchRules, &tree),
        Pass::Fold => optimized(alloc, &FoldingRules, &tree),
    }
}

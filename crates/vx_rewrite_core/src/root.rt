// The rules at the root of a tree, until none fits there.
ghost use Rattle.std.specs.Prelude.{◌≡◌, ◌↔◌, IfOk, IfErr, IfSome, IsNone, MatchOption};
ghost use Rattle.vx_dtype.specs.declared.error.VortexError.TheVariants.{OutOfMemory};
ghost use Rattle.vx_tree.specs.Trees.{WellTyped};
ghost use Rattle.vx_tree.specs.Views.{bound_of};
ghost use Rattle.vx_rewrite_core.specs.Steps.{GivesNothing};
ghost use Rattle.vx_rewrite_core.specs.NormalForms.{RootNormalForm};

use crate::rule::Rule;
use std::alloc::Global;
use vx_tree::{BoundExpression, VortexResult};

/// What the rules give at the root, one after another until none fits there; None exactly where none
/// fits at first. It keeps the tree, so its type is no wider. Asks a well-typed tree.
///
/// Refuses with `OutOfMemory` (1) alone, however many steps there are.
pub fn optimize_root<R: Rule>(
    alloc: Global,
    rules: &R,
    tree: &BoundExpression,
) -> VortexResult<Option<BoundExpression>>
    requires { WellTyped (bound_of tree.now) }
    ensures form { IfOk result (λ o. IfSome o (λ u. RootNormalForm (R.gives rules.now) (bound_of tree.now) (bound_of u))) }
    ensures none { IfOk result (λ o. IsNone o ↔ GivesNothing (R.gives rules.now) (bound_of tree.now)) }
    ensures memory { IfErr result (λ e. e ≡ OutOfMemory) }
{
    match root_form(alloc, rules, tree)? {
        Some(form) => Ok(Some(Box::into_inner(form))),
        None => Ok(None),
    }
}

/// What the rules leave at the root, as [`optimize_root`] gives it, the tree itself where none fits
/// there. Asks a well-typed tree.
///
/// Refuses with `OutOfMemory` (1) alone.
pub fn optimized_root<R: Rule>(
    alloc: Global,
    rules: &R,
    tree: &BoundExpression,
) -> VortexResult<BoundExpression>
    requires { WellTyped (bound_of tree.now) }
    ensures form { IfOk result (λ u. RootNormalForm (R.gives rules.now) (bound_of tree.now) (bound_of u)) }
    ensures same { GivesNothing (R.gives rules.now) (bound_of tree.now) → IfOk result (λ u. bound_of u ≡ bound_of tree.now) }
    ensures memory { IfErr result (λ e. e ≡ OutOfMemory) }
{
    match optimize_root(alloc, rules, tree)? {
        Some(form) => Ok(form),
        None => Ok(tree.clone()?),
    }
}

// What [`optimize_root`] gives, in a box and with no node in the caller's frame. Nothing is made
// where no rule may fit.
pub(crate) fn root_form<R: Rule>(
    alloc: Global,
    rules: &R,
    tree: &BoundExpression,
) -> VortexResult<Option<Box<BoundExpression>>>
    requires { WellTyped (bound_of tree.now) }
    ensures form { IfOk result (λ o. IfSome o (λ u. RootNormalForm (R.gives rules.now) (bound_of tree.now) (bound_of u.value))) }
    ensures none { IfOk result (λ o. IsNone o ↔ GivesNothing (R.gives rules.now) (bound_of tree.now)) }
    ensures memory { IfErr result (λ e. e ≡ OutOfMemory) }
{
    if !rules.may_fit(tree) {
        return Ok(None);
    }
    match one_step(alloc, rules, tree)? {
        Some(lighter) => Ok(Some(rest_of_steps(alloc, rules, lighter)?)),
        None => Ok(None),
    }
}

// What the rules leave at the root of a tree that one of them gave.
#[inline(never)]
fn rest_of_steps<R: Rule>(
    alloc: Global,
    rules: &R,
    first: Box<BoundExpression>,
) -> VortexResult<Box<BoundExpression>>
    requires { WellTyped (bound_of first.value) }
    ensures form { IfOk result (λ u. RootNormalForm (R.gives rules.now) (bound_of first.value) (bound_of u.value)) }
    ensures memory { IfErr result (λ e. e ≡ OutOfMemory) }
{
    let mut current = first;
    while let Some(lighter) = one_step(alloc, rules, &current)? {
        current = lighter;
    }
    Ok(current)
}

// What the rules give at the root, in a box and with no node in the caller's frame.
#[inline(never)]
fn one_step<R: Rule>(
    alloc: Global,
    rules: &R,
    tree: &BoundExpression,
) -> VortexResult<Option<Box<BoundExpression>>>
    requires { WellTyped (bound_of tree.now) }
    ensures gives { IfOk result (λ o. MatchOption o (GivesNothing (R.gives rules.now) (bound_of tree.now)) (λ u. R.gives rules.now (bound_of tree.now) (bound_of u.value))) }
    ensures memory { IfErr result (λ e. e ≡ OutOfMemory) }
{
    match rules.apply_at(alloc, tree)? {
        Some(lighter) => Ok(Some(Box::new(alloc, lighter)?)),
        None => Ok(None),
    }
}

// The rules at every node of a tree, until none fits at any.
ghost use Rattle.std.specs.Prelude.{◌≡◌, ◌↔◌, ◌<◌, [], ◌∷◌, ◌++◌, length, map, take, IfOk, IfErr, IfSome, IsNone, MatchOption, unwrap_or};
ghost use Rattle.std.specs.Option.{option_map};
ghost use Rattle.std.specs.Result.{ForOk, IsOkAnd};
ghost use Rattle.vx_dtype.specs.declared.error.VortexError.TheVariants.{OutOfMemory};
ghost use Rattle.vx_fn.specs.Views.{function_of};
ghost use Rattle.vx_tree.specs.Binding.{node_over};
ghost use Rattle.vx_tree.specs.Trees.{WellTyped, EachWellTyped};
ghost use Rattle.vx_tree.specs.Views.{bound_of, bounds_of};
ghost use Rattle.vx_rewrite_core.specs.Steps.{GivesNothing, Normal, EachNormal};
ghost use Rattle.vx_rewrite_core.specs.NormalForms.{NormalForm, RootNormalForm, SomeNormalForms, NormalFormsBehind};

use crate::root::root_form;
use crate::rule::Rule;
use std::alloc::{AllocError, Global};
use vx_fn::ScalarFnRef;
use vx_tree::{BoundExpression, VortexResult};

/// A normal form of the tree: the rules at the root until none fits there, then the same for the
/// children from left to right, and where one of them changed at the root again; None exactly where
/// no rule fits at any node. It keeps the tree, so its type is no wider. Asks a well-typed tree.
///
/// A node is made anew only where a child of it changed. Refuses with `OutOfMemory` (1) alone, however
/// many steps there are.
pub fn optimize_with<R: Rule>(
    alloc: Global,
    rules: &R,
    tree: &BoundExpression,
) -> VortexResult<Option<BoundExpression>>
    requires { WellTyped (bound_of tree.now) }
    ensures form { IfOk result (λ o. IfSome o (λ u. NormalForm (R.gives rules.now) (bound_of tree.now) (bound_of u))) }
    ensures none { IfOk result (λ o. IsNone o ↔ Normal (R.gives rules.now) (bound_of tree.now)) }
    ensures memory { IfErr result (λ e. e ≡ OutOfMemory) }
{
    match normal_form(alloc, rules, tree)? {
        Some(form) => Ok(Some(Box::into_inner(form))),
        None => Ok(None),
    }
}

/// A normal form of the tree, as [`optimize_with`] gives it, the tree itself where no rule fits at any
/// node. Asks a well-typed tree.
///
/// Refuses with `OutOfMemory` (1) alone.
pub fn optimized<R: Rule>(
    alloc: Global,
    rules: &R,
    tree: &BoundExpression,
) -> VortexResult<BoundExpression>
    requires { WellTyped (bound_of tree.now) }
    ensures form { IfOk result (λ u. NormalForm (R.gives rules.now) (bound_of tree.now) (bound_of u)) }
    ensures same { Normal (R.gives rules.now) (bound_of tree.now) → IfOk result (λ u. bound_of u ≡ bound_of tree.now) }
    ensures memory { IfErr result (λ e. e ≡ OutOfMemory) }
{
    match optimize_with(alloc, rules, tree)? {
        Some(form) => Ok(form),
        None => Ok(tree.clone()?),
    }
}

// What [`optimize_with`] gives, in a box. A node is large, and a frame has a place for each that its
// function handles: so what makes, copies or stores one isn't inlined into this recursion.
#[cycle(optimizer)]
fn normal_form<R: Rule>(
    alloc: Global,
    rules: &R,
    tree: &BoundExpression,
) -> VortexResult<Option<Box<BoundExpression>>>
    requires { WellTyped (bound_of tree.now) }
    ensures form { IfOk result (λ o. IfSome o (λ u. NormalForm (R.gives rules.now) (bound_of tree.now) (bound_of u.value))) }
    ensures none { IfOk result (λ o. IsNone o ↔ Normal (R.gives rules.now) (bound_of tree.now)) }
    ensures memory { IfErr result (λ e. e ≡ OutOfMemory) }
{
    let Some(current) = root_form(alloc, rules, tree)? else {
        return optimize_below(alloc, rules, tree);
    };
    Ok(Some(optimize_current(alloc, rules, current)?))
}

// A normal form of a tree that the rules left at its root.
#[cycle(optimizer)]
#[inline(never)]
fn optimize_current<R: Rule>(
    alloc: Global,
    rules: &R,
    current: Box<BoundExpression>,
) -> VortexResult<Box<BoundExpression>>
    requires typed { WellTyped (bound_of current.value) }
    requires at_root { GivesNothing (R.gives rules.now) (bound_of current.value) }
    ensures form { IfOk result (λ u. NormalForm (R.gives rules.now) (bound_of current.value) (bound_of u.value)) }
    ensures memory { IfErr result (λ e. e ≡ OutOfMemory) }
{
    let below = optimize_below(alloc, rules, &current)?;
    Ok(below.unwrap_or(current))
}

// The same for a tree at whose root no rule fits.
#[cycle(optimizer)]
fn optimize_below<R: Rule>(
    alloc: Global,
    rules: &R,
    tree: &BoundExpression,
) -> VortexResult<Option<Box<BoundExpression>>>
    requires typed { WellTyped (bound_of tree.now) }
    requires at_root { GivesNothing (R.gives rules.now) (bound_of tree.now) }
    ensures form { IfOk result (λ o. IfSome o (λ u. NormalForm (R.gives rules.now) (bound_of tree.now) (bound_of u.value))) }
    ensures none { IfOk result (λ o. IsNone o ↔ Normal (R.gives rules.now) (bound_of tree.now)) }
    ensures memory { IfErr result (λ e. e ≡ OutOfMemory) }
{
    let Some(function) = tree.as_scalar() else {
        return Ok(None);
    };
    let Some(children) = optimize_children(alloc, rules, tree.children())? else {
        return Ok(None);
    };
    Ok(Some(rebuilt(alloc, rules, function, children)?))
}

// The node of the function over the children, and then the rules at its root.
#[inline(never)]
fn rebuilt<R: Rule>(
    alloc: Global,
    rules: &R,
    function: &ScalarFnRef,
    children: Vec<BoundExpression>,
) -> VortexResult<Box<BoundExpression>>
    requires { IsOkAnd (node_over (function_of function.now) (bounds_of children.items)) WellTyped }
    ensures form { IfOk result (λ u. ForOk (node_over (function_of function.now) (bounds_of children.items)) (λ b. RootNormalForm (R.gives rules.now) b (bound_of u.value))) }
    ensures memory { IfErr result (λ e. e ≡ OutOfMemory) }
{
    let node = BoundExpression::try_new(alloc, function.clone()?, children)?;
    match root_form(alloc, rules, &node)? {
        Some(again) => Ok(again),
        None => Ok(Box::new(alloc, node)?),
    }
}

// A normal form of each child; None where no rule fits in any. Nothing is kept of those before the
// first that changes.
#[cycle(optimizer)]
fn optimize_children<R: Rule>(
    alloc: Global,
    rules: &R,
    children: &[BoundExpression],
) -> VortexResult<Option<Vec<BoundExpression>>>
    requires { EachWellTyped (bounds_of children.now) }
    ensures forms { IfOk result (λ o. MatchOption o (EachNormal (R.gives rules.now) (bounds_of children.now)) (λ v. SomeNormalForms (R.gives rules.now) (bounds_of children.now) (bounds_of v.items))) }
    ensures memory { IfErr result (λ e. e ≡ OutOfMemory) }
{
    for (i, child) in children.iter().enumerate() {
        if let Some(form) = normal_form(alloc, rules, child)? {
            let forms = first_forms(alloc, children, i, form)?;
            return Ok(Some(optimize_rest(alloc, rules, forms, &children[i + 1..])?));
        }
    }
    Ok(None)
}

// The forms of the children so far, and behind them those of the rest.
#[cycle(optimizer)]
fn optimize_rest<R: Rule>(
    alloc: Global,
    rules: &R,
    mut forms: Vec<BoundExpression>,
    rest: &[BoundExpression],
) -> VortexResult<Vec<BoundExpression>>
    requires { EachWellTyped (bounds_of rest.now) }
    ensures forms { IfOk result (λ v. NormalFormsBehind (R.gives rules.now) (map bound_of forms.items) (bounds_of rest.now) (map bound_of v.items)) }
    ensures memory { IfErr result (λ e. e ≡ OutOfMemory) }
{
    for child in rest {
        let form = normal_form(alloc, rules, child)?;
        push_form(&mut forms, child, form)?;
    }
    Ok(forms)
}

// So many of the children from the left, and the form of the next, in a list with room for all.
#[inline(never)]
fn first_forms(
    alloc: Global,
    children: &[BoundExpression],
    count: usize,
    form: Box<BoundExpression>,
) -> Result<Vec<BoundExpression>, AllocError>
    requires { count < length children.now }
    ensures { IfOk result (λ v. map bound_of v.items ≡ map bound_of (take count children.now) ++ bound_of form.value ∷ []) }
{
    let mut first = Vec::with_capacity(alloc, children.len())?;
    for child in &children[..count] {
        first.push(child.clone()?)?;
    }
    first.push(Box::into_inner(form))?;
    Ok(first)
}

// The form of the child behind the others, the child itself where it has no other.
#[inline(never)]
fn push_form(
    forms: &mut Vec<BoundExpression>,
    child: &BoundExpression,
    form: Option<Box<BoundExpression>>,
) -> Result<(), AllocError>
    ensures { IfOk result (λ _. map bound_of forms.new.items ≡ map bound_of forms.old.items ++ unwrap_or (option_map (λ u. bound_of u.value) form) (bound_of child.now) ∷ []) }
{
    let form = match form {
        Some(form) => Box::into_inner(form),
        None => child.clone()?,
    };
    forms.push(form)?;
    Ok(())
}

// Nodes of two children, and nodes that give truth values.
ghost use Rattle.std.specs.Prelude.{◌≡◌, ◌≤◌, ◌∷◌, [], IsFalse, IfErr, IfOk, MatchOption, option_map};
ghost use Rattle.vx_dtype.specs.declared.error.VortexError.TheVariants.{OutOfMemory};
ghost use Rattle.vx_fn.specs.Functions.{and_also, truth_type};
ghost use Rattle.vx_fn.specs.Views.{function_of, operation_of};
ghost use Rattle.vx_tree.specs.Trees.{node};
ghost use Rattle.vx_tree.specs.Views.{bound_of, bounds_of};
ghost use Rattle.vx_rewrite_fusing.specs.Conjuncts.{and_of, is_and, conjoined, tree_in, IsBinary};
ghost use Rattle.vx_rewrite_fusing.specs.Finding.{IsOther};

use std::alloc::{AllocError, Global};
use vx_tree::{BoundExpression, DType, Nullability, Operator, ScalarFnRef, VortexResult};

// The operator and the operands of a binary node, if it has two.
pub(crate) fn as_binary(
    b: &BoundExpression,
) -> Option<(Operator, &BoundExpression, &BoundExpression)>
    ensures { MatchOption result (IsOther (bound_of b.now)) (λ p. IsBinary (operation_of p.0) (bound_of p.1.now) (bound_of p.2.now) (bound_of b.now)) }
{
    let BoundExpression::Scalar {
        scalar_fn,
        children,
        ..
    } = b
    else {
        return None;
    };
    let ScalarFnRef::Binary(op) = scalar_fn else {
        return None;
    };
    match children.as_slice() {
        [x, y] => Some((*op, x, y)),
        _ => None,
    }
}

/// The children of an And.
pub fn as_and(b: &BoundExpression) -> Option<(&BoundExpression, &BoundExpression)>
    ensures { MatchOption result (IsFalse (is_and (bound_of b.now))) (λ p. IsBinary and_also (bound_of p.0.now) (bound_of p.1.now) (bound_of b.now)) }
{
    let (op, l, r) = as_binary(b)?;
    let Operator::And = op else {
        return None;
    };
    Some((l, r))
}

// How many conjuncts the tree has, up to a limit. Each conjunct that is counted costs two looks at
// most, however deep the tree is: an And has one on either side.
pub(crate) fn conjuncts_in(b: &BoundExpression, limit: usize) -> usize
    ensures { result ≤ limit }
{
    if limit <= 1 {
        return limit;
    }
    let Some((first, second)) = as_and(b) else {
        return 1;
    };
    let before = conjuncts_in(first, limit - 1);
    before + conjuncts_in(second, limit - before)
}

// A node of a function that gives truth values, which the caller knows to be of that type.
pub(crate) fn truth_node(
    alloc: Global,
    scalar_fn: ScalarFnRef,
    nullable: bool,
    children: Vec<BoundExpression>,
) -> VortexResult<Box<BoundExpression>>
    ensures node { IfOk result (λ b. bound_of b.value ≡ node (truth_type nullable) (function_of scalar_fn) (bounds_of children.items)) }
    ensures memory { IfErr result (λ e. e ≡ OutOfMemory) }
{
    let dtype = DType::Bool(Nullability::of(nullable));
    let made = BoundExpression::new_typed(alloc, dtype, scalar_fn, children)?;
    Ok(Box::new(alloc, made)?)
}

// The And of the two.
#[inline(never)]
pub(crate) fn and_of(
    alloc: Global,
    l: BoundExpression,
    r: BoundExpression,
) -> VortexResult<Box<BoundExpression>>
    ensures node { IfOk result (λ b. bound_of b.value ≡ and_of (bound_of l) (bound_of r)) }
    ensures memory { IfErr result (λ e. e ≡ OutOfMemory) }
{
    let nullable = l.dtype().is_nullable() || r.dtype().is_nullable();
    let and = ScalarFnRef::Binary(Operator::And);
    truth_node(alloc, and, nullable, vec![in alloc; l, r]?)
}

// The And of a new left child and the old right one.
#[inline(never)]
pub(crate) fn with_left(
    alloc: Global,
    left: Box<BoundExpression>,
    right: &BoundExpression,
) -> VortexResult<Box<BoundExpression>>
    ensures node { IfOk result (λ b. bound_of b.value ≡ and_of (bound_of left.value) (bound_of right.now)) }
    ensures memory { IfErr result (λ e. e ≡ OutOfMemory) }
{
    let (left, right) = right.clone().map(|right| (left, right))?;
    and_of(alloc, Box::into_inner(left), right)
}

// The And of the old left child and a new right one.
#[inline(never)]
pub(crate) fn with_right(
    alloc: Global,
    left: &BoundExpression,
    right: Box<BoundExpression>,
) -> VortexResult<Box<BoundExpression>>
    ensures node { IfOk result (λ b. bound_of b.value ≡ and_of (bound_of left.now) (bound_of right.value)) }
    ensures memory { IfErr result (λ e. e ≡ OutOfMemory) }
{
    let (left, right) = left.clone().map(|left| (left, right))?;
    and_of(alloc, left, Box::into_inner(right))
}

/// The And of what is left of two trees, or the one of which something is. Refuses with `OutOfMemory`
/// alone.
pub fn conjoined(
    alloc: Global,
    l: Option<Box<BoundExpression>>,
    r: Option<Box<BoundExpression>>,
) -> VortexResult<Option<Box<BoundExpression>>>
    ensures conjoined { IfOk result (λ o. option_map tree_in o ≡ conjoined (option_map tree_in l) (option_map tree_in r)) }
    ensures memory { IfErr result (λ e. e ≡ OutOfMemory) }
{
    match (l, r) {
        (Some(l), Some(r)) => Ok(Some(and_of(alloc, Box::into_inner(l), Box::into_inner(r))?)),
        (Some(l), None) => Ok(Some(l)),
        (None, r) => Ok(r),
    }
}

// A copy of the tree, in a box.
#[inline(never)]
pub(crate) fn boxed(
    alloc: Global,
    tree: &BoundExpression,
) -> Result<Box<BoundExpression>, AllocError>
    ensures { IfOk result (λ b. bound_of b.value ≡ bound_of tree.now) }
{
    Ok(Box::new(alloc, tree.clone()?)?)
}

// Range fusing at every node: children first, since what they become decides which pairs the node has.
ghost use Rattle.std.specs.Prelude.{◌≡◌, ℕ, IsSome, List, ◌∷◌, ◌++◌, [], None, Ok, Some, IfErr, IfOk, MatchOption, option_map};
ghost use Rattle.vx_dtype.specs.declared.error.VortexError.TheVariants.{OutOfMemory};
ghost use Rattle.vx_rewrite_core.specs.Keeps.{Keeps};
ghost use Rattle.vx_tree.specs.Nodes.{bound_children_of};
ghost use Rattle.vx_tree.specs.Trees.{node_type, BoundTree, EachWellTyped, WellTyped};
ghost use Rattle.vx_tree.specs.Views.{bound_of, bounds_of};
ghost use Rattle.vx_tree.specs.declared.bound.BoundExpression.{BoundExpression};
ghost use Rattle.vx_rewrite_fusing.specs.Conjuncts.{tree_in, Fused, FusedBelow};
ghost use Rattle.vx_rewrite_fusing.specs.Conjuncts as spec;
ghost use Rattle.vx_rewrite_fusing.specs.Finding.{over_children, tree_or, ConjunctsFused, EachFusedOf, Finds, FirstChanged, IsFusedApart};
ghost use Rattle.vx_rewrite_fusing.specs.Merging.{IsFusedOf, Merges};

use crate::conjunction::{is_bounded, is_wide, merge_conjuncts};
use crate::merge::merge_root;
use crate::nodes::{and_of, as_and, with_left, with_right};
use crate::ranges::Side;
use std::alloc::{AllocError, Global};
use vx_tree::{BoundExpression, VortexError, VortexResult};

/// The tree with each two range comparisons of one item in a conjunction as one `Between`.
///
/// A range comparison bounds a field of a struct by a literal, on either side, by `>`, `>=`, `<` or
/// `<=`. Children come first, from left to right. At an And the conjuncts of its right child are
/// taken in order, and for each one those of its left child: the first two that bound equal fields
/// from opposite sides become a `Between` in the place of the left one, the right one goes, and its
/// And becomes its other child; and so on until there is no such pair. A range that no value can
/// meet is merged, too. The type stays, and so does the meaning wherever the tree doesn't fault.
///
/// Asks a well-typed tree. Refuses with `OutOfMemory` (1) alone. A tree without a pair is answered
/// as it is, however little memory there is; so is what a first call answered.
///
/// A conjunction of twelve conjuncts or more is fused at once, however its Ands are nested: each
/// range's item is looked up once, which visits the nodes of the item, and has a number from then on,
/// by which the first range of an item on either side is found. At each And the conjuncts of the side
/// that has fewer are gone through, by these numbers, and the Ands above what is merged are made anew
/// once. So the look-ups grow with the number of ranges, whatever the shape; the steps between them
/// grow with the number of conjuncts in a chain to either side, and at most with that times its
/// logarithm, as in a balanced tree. Where no two ranges bound from opposite sides that is found
/// first, and takes no memory.
///
/// In a conjunction with fewer conjuncts, and where there is no memory for an index, every right
/// conjunct is compared with the left ones until one fits: their sides first, then their names, then
/// their trees; and each merge makes the Ands above its two conjuncts anew. That takes no memory
/// before there is a pair. Everything else is shared.
pub fn find_between(alloc: Global, tree: BoundExpression) -> VortexResult<BoundExpression>
    requires { WellTyped (bound_of tree) }
    ensures merges { IfOk result (λ u. (n : ℕ) × Merges (bound_of tree) n (bound_of u)) }
    ensures fused { IfOk result (λ u. Fused (bound_of u)) }
    ensures well_typed { IfOk result (λ u. WellTyped (bound_of u)) }
    ensures keeps { IfOk result (λ u. Keeps (bound_of tree) (bound_of u)) }
    ensures dtype { IfOk result (λ u. node_type (bound_of u) ≡ node_type (bound_of tree)) }
    ensures stays { Fused (bound_of tree) → result ≡ Ok tree }
    ensures memory { IfErr result (λ e. e ≡ OutOfMemory) }
{
    // Trees are let go of by `drop`: in place that takes the proof far longer.
    match fused(alloc, &tree) {
        Ok(Some(u)) => {
            drop(tree);
            Ok(Box::into_inner(u))
        }
        Ok(None) => Ok(tree),
        Err(e) => {
            drop(tree);
            Err(e)
        }
    }
}

// The same, None where nothing is merged.
//
// Trees may be deep, so the frame of a level is kept small: what is merged goes up in a box, and
// what a node takes that changes is done in functions that aren't inlined.
#[cycle(fusing)]
fn fused(alloc: Global, b: &BoundExpression) -> VortexResult<Option<Box<BoundExpression>>>
    requires { WellTyped (bound_of b.now) }
    ensures { Finds (Fused (bound_of b.now)) (λ u. IsFusedOf (bound_of b.now) (bound_of u.value)) result }
{
    if is_wide(b) {
        fused_wide(alloc, b)
    } else {
        fused_node(alloc, b)
    }
}

// The same for a conjunction: its conjuncts first, then the pairs of all its Ands.
#[cycle(fusing)]
#[inline(never)]
fn fused_wide(alloc: Global, b: &BoundExpression) -> VortexResult<Option<Box<BoundExpression>>>
    requires { WellTyped (bound_of b.now) }
    ensures { Finds (Fused (bound_of b.now)) (λ u. IsFusedOf (bound_of b.now) (bound_of u.value)) result }
{
    match conjuncts_fused(alloc, b)? {
        Some(over) => Ok(Some(merged_over(alloc, over)?)),
        None => merged_conjuncts(alloc, b),
    }
}

// The tree with each of its conjuncts fused, None where each is. The pairs of its Ands stay.
#[cycle(fusing)]
fn conjuncts_fused(alloc: Global, b: &BoundExpression) -> VortexResult<Option<Box<BoundExpression>>>
    requires { WellTyped (bound_of b.now) }
    ensures { Finds (ConjunctsFused (bound_of b.now)) (λ u. IsFusedApart (bound_of b.now) (bound_of u.value)) result }
{
    let Some((l, r)) = as_and(b) else {
        return fused_node(alloc, b);
    };
    let left = conjuncts_fused(alloc, l)?;
    let right = conjuncts_fused(alloc, r)?;
    and_over(alloc, l, left, r, right)
}

// The tree, whose conjuncts are fused, with the pairs of its Ands merged, if there are any.
fn merged_over(alloc: Global, tree: Box<BoundExpression>) -> VortexResult<Box<BoundExpression>>
    requires typed { WellTyped (bound_of tree.value) }
    requires apart { ConjunctsFused (bound_of tree.value) }
    ensures fused { IfOk result (λ u. IsFusedOf (bound_of tree.value) (bound_of u.value)) }
    ensures memory { IfErr result (λ e. e ≡ OutOfMemory) }
{
    match merged_conjuncts(alloc, &tree) {
        Ok(Some(merged)) => {
            drop(tree);
            Ok(merged)
        }
        Ok(None) => Ok(tree),
        Err(e) => {
            drop(tree);
            Err(e)
        }
    }
}

// The same, None where nothing is merged: by the items of ranges if there are some from both sides,
// and by a search where there is no memory for that, so that a tree without a pair is never refused.
#[inline(never)]
fn merged_conjuncts(
    alloc: Global,
    b: &BoundExpression,
) -> VortexResult<Option<Box<BoundExpression>>>
    requires typed { WellTyped (bound_of b.now) }
    requires apart { ConjunctsFused (bound_of b.now) }
    ensures { Finds (Fused (bound_of b.now)) (λ u. IsFusedOf (bound_of b.now) (bound_of u.value)) result }
{
    if !is_bounded(b, Side::Below) || !is_bounded(b, Side::Above) {
        return Ok(None);
    }
    match merge_conjuncts(alloc, b) {
        Ok(merged) => Ok(merged),
        Err(_) => searched(alloc, b),
    }
}

// The same by a search at each of the Ands.
fn searched(alloc: Global, b: &BoundExpression) -> VortexResult<Option<Box<BoundExpression>>>
    requires typed { WellTyped (bound_of b.now) }
    requires apart { ConjunctsFused (bound_of b.now) }
    ensures { Finds (Fused (bound_of b.now)) (λ u. IsFusedOf (bound_of b.now) (bound_of u.value)) result }
{
    let Some((l, r)) = as_and(b) else {
        return Ok(None);
    };
    let left = searched(alloc, l)?;
    let right = searched(alloc, r)?;
    match and_over(alloc, l, left, r, right)? {
        Some(over) => Ok(Some(root_fused(alloc, Box::into_inner(over))?)),
        None => merge_root(alloc, b),
    }
}

// The And over what its children became, None where both stay.
fn and_over(
    alloc: Global,
    l: &BoundExpression,
    left: Option<Box<BoundExpression>>,
    r: &BoundExpression,
    right: Option<Box<BoundExpression>>,
) -> VortexResult<Option<Box<BoundExpression>>>
    ensures over { IfOk result (λ o. IsSome o → option_map tree_in o ≡ Some (spec.and_of (tree_or (bound_of l.now) left) (tree_or (bound_of r.now) right))) }
    ensures stays { result ≡ Ok None → (left ≡ None) × (right ≡ None) }
    ensures whole { left ≡ None → right ≡ None → result ≡ Ok None }
    ensures memory { IfErr result (λ e. e ≡ OutOfMemory) }
{
    match (left, right) {
        (Some(left), Some(right)) => {
            let over = and_of(alloc, Box::into_inner(left), Box::into_inner(right))?;
            Ok(Some(over))
        }
        (Some(left), None) => Ok(Some(with_left(alloc, left, r)?)),
        (None, Some(right)) => Ok(Some(with_right(alloc, l, right)?)),
        (None, None) => Ok(None),
    }
}

// The same for a node by its children, one after another.
#[cycle(fusing)]
fn fused_node(alloc: Global, b: &BoundExpression) -> VortexResult<Option<Box<BoundExpression>>>
    requires { WellTyped (bound_of b.now) }
    ensures { Finds (Fused (bound_of b.now)) (λ u. IsFusedOf (bound_of b.now) (bound_of u.value)) result }
{
    let children = b.children();
    for (i, child) in children.iter().enumerate() {
        if let Some(changed) = fused(alloc, child)? {
            return fused_from(alloc, b, i, changed);
        }
    }
    merge_root(alloc, b)
}

// The same where the child at that index is the first in which something is merged.
#[cycle(fusing)]
#[inline(never)]
fn fused_from(
    alloc: Global,
    b: &BoundExpression,
    i: usize,
    changed: Box<BoundExpression>,
) -> VortexResult<Option<Box<BoundExpression>>>
    requires typed { WellTyped (bound_of b.now) }
    requires first { FirstChanged (bound_children_of (bound_of b.now)) i (bound_of changed.value) }
    ensures { Finds (Fused (bound_of b.now)) (λ u. IsFusedOf (bound_of b.now) (bound_of u.value)) result }
{
    let children = b.children();
    let front = copies_and(alloc, &children[..i], changed)?;
    let all = fused_rest(alloc, front, &children[i + 1..])?;
    Ok(Some(fused_over(alloc, b, all)?))
}

// The list, and behind it the rest of the children, each of them fused.
#[cycle(fusing)]
#[inline(never)]
fn fused_rest(
    alloc: Global,
    mut list: Vec<BoundExpression>,
    rest: &[BoundExpression],
) -> VortexResult<Vec<BoundExpression>>
    requires { EachWellTyped (bounds_of rest.now) }
    ensures fused { IfOk result (λ v. (us : List BoundExpression) × (v.items ≡ list.items ++ us) × EachFusedOf (bounds_of rest.now) (bounds_of us)) }
    ensures memory { IfErr result (λ e. e ≡ OutOfMemory) }
{
    for child in rest {
        let changed = fused(alloc, child)?;
        push_fused(&mut list, child, changed)?;
    }
    Ok(list)
}

// Puts what is fused of the tree at the end of the list, a copy of it where nothing is merged.
#[inline(never)]
fn push_fused(
    list: &mut Vec<BoundExpression>,
    tree: &BoundExpression,
    changed: Option<Box<BoundExpression>>,
) -> Result<(), AllocError>
    ensures { IfOk result (λ _. (u : BoundExpression) × (list.new.items ≡ list.old.items ++ u ∷ [])
        × MatchOption changed (bound_of u ≡ bound_of tree.now) (λ c. u ≡ c.value)) }
{
    match changed {
        Some(changed) => Ok(list.push(Box::into_inner(changed))?),
        None => Ok(list.push(tree.clone()?)?),
    }
}

// The node over its fused children, with the pairs at its root merged.
#[inline(never)]
fn fused_over(
    alloc: Global,
    b: &BoundExpression,
    children: Vec<BoundExpression>,
) -> VortexResult<Box<BoundExpression>>
    requires typed { WellTyped (bound_of b.now) }
    requires each { EachFusedOf (bound_children_of (bound_of b.now)) (bounds_of children.items) }
    ensures fused { IfOk result (λ u. IsFusedOf (bound_of b.now) (bound_of u.value)) }
    ensures memory { IfErr result (λ e. e ≡ OutOfMemory) }
{
    let over = with_fused(alloc, b, children)?;
    root_fused(alloc, over)
}

// The tree with the pairs at its root merged, if there are any.
fn root_fused(alloc: Global, tree: BoundExpression) -> VortexResult<Box<BoundExpression>>
    requires { FusedBelow (bound_of tree) }
    ensures fused { IfOk result (λ u. IsFusedOf (bound_of tree) (bound_of u.value)) }
    ensures memory { IfErr result (λ e. e ≡ OutOfMemory) }
{
    match merge_root(alloc, &tree) {
        Ok(Some(merged)) => {
            drop(tree);
            Ok(merged)
        }
        Ok(None) => Ok(Box::new(alloc, tree)?),
        Err(e) => {
            drop(tree);
            Err(e)
        }
    }
}

// The node over fused children, which have the types of the old ones: so its own stays.
fn with_fused(
    alloc: Global,
    b: &BoundExpression,
    children: Vec<BoundExpression>,
) -> VortexResult<BoundExpression>
    ensures node { IfOk result (λ u. bound_of u ≡ over_children (bound_of b.now) (bounds_of children.items)) }
    ensures memory { IfErr result (λ e. e ≡ OutOfMemory) }
{
    match b {
        BoundExpression::Scalar {
            dtype,
            scalar_fn,
            ..
        } => {
            let dtype = dtype.clone()?;
            let scalar_fn = scalar_fn.clone()?;
            BoundExpression::new_typed(alloc, dtype, scalar_fn, children)
        }
        BoundExpression::Root { dtype } => Ok(BoundExpression::Root {
            dtype: dtype.clone()?,
        }),
    }
}

// The list with one more at its end.
fn pushed<T: Drop>(mut list: Vec<T>, item: T) -> VortexResult<Vec<T>>
    ensures items { IfOk result (λ v. v.items ≡ list.items ++ item ∷ []) }
    ensures memory { IfErr result (λ e. e ≡ OutOfMemory) }
{
    list.push(item)?;
    Ok(list)
}

// The same trees, and one more at their end.
#[inline(never)]
fn copies_and(
    alloc: Global,
    list: &[BoundExpression],
    last: Box<BoundExpression>,
) -> VortexResult<Vec<BoundExpression>>
    ensures trees { IfOk result (λ v. bounds_of v.items ≡ bounds_of (list.now ++ last.value ∷ [])) }
    ensures memory { IfErr result (λ e. e ≡ OutOfMemory) }
{
    match copies(alloc, list) {
        Ok(copied) => pushed(copied, Box::into_inner(last)),
        Err(AllocError) => {
            drop(last);
            Err(VortexError::OutOfMemory)
        }
    }
}

// The same trees.
fn copies(alloc: Global, list: &[BoundExpression]) -> Result<Vec<BoundExpression>, AllocError>
    ensures { IfOk result (λ v. bounds_of v.items ≡ bounds_of list.now) }
{
    let mut copied = Vec::new(alloc);
    for b in list {
        copied.push(b.clone()?)?;
    }
    Ok(copied)
}

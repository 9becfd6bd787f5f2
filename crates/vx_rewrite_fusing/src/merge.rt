// Merges of two conjunctions, conjunct by conjunct. Nothing is copied before a pair is found; then
// the Ands above its two conjuncts are made anew, and share all that is beside them. Conjunctions
// may be deep, so what is merged goes up in boxes.
ghost use Rattle.std.specs.Prelude.{◌≡◌, ◌∷◌, [], Some, IfErr, IfOk, IsFalse, option_map};
ghost use Rattle.vx_dtype.specs.declared.error.VortexError.TheVariants.{OutOfMemory};
ghost use Rattle.vx_fn.specs.Functions.{and_also};
ghost use Rattle.vx_tree.specs.Trees.{BoundTree};
ghost use Rattle.vx_tree.specs.Views.{bound_of};
ghost use Rattle.vx_rewrite_fusing.specs.Conjuncts.{conjuncts, is_and, range_of, conjoined, tree_in, Fused, FusedBelow, Mergeable, MergeTo, NoneMergeable, IsBinary};
ghost use Rattle.vx_rewrite_fusing.specs.Finding.{Finds, range_seen, LeftMerged, MergesSecond, PairsMerged};
ghost use Rattle.vx_rewrite_fusing.specs.Merging.{IsFusedOf};

use crate::nodes::{and_of, as_and, boxed, conjoined, with_left, with_right};
use crate::ranges::{RangeComparison, merged, range_of};
use std::alloc::Global;
use vx_tree::{BoundExpression, VortexResult};

// What two conjunctions are after merges: the right one may be gone.
#[derive(Drop)]
pub(crate) struct Merged {
    pub left: Box<BoundExpression>,
    pub right: Option<Box<BoundExpression>>,
}

// The Between of a conjunct and one of that range, None where they aren't mergeable.
fn merge_conjunct(
    alloc: Global,
    c: &BoundExpression,
    range: RangeComparison<'_>,
) -> VortexResult<Option<Box<BoundExpression>>>
    ensures { (d : BoundTree) → range_of d ≡ Some (range_seen range.entry) →
        Finds (Mergeable (bound_of c.now) d → ⊥) (λ m. MergeTo (bound_of c.now) d (bound_of m.value)) result }
{
    match range_of(c) {
        Some(other) => merged(alloc, other, range),
        None => Ok(None),
    }
}

// The left conjunction with its first conjunct that is mergeable with one of that range merged with
// it.
fn merge_left(
    alloc: Global,
    l: &BoundExpression,
    range: RangeComparison<'_>,
) -> VortexResult<Option<Box<BoundExpression>>>
    ensures { (d : BoundTree) → range_of d ≡ Some (range_seen range.entry) →
        Finds (NoneMergeable (conjuncts (bound_of l.now)) (d ∷ [])) (λ u. LeftMerged d (bound_of l.now) (bound_of u.value)) result }
{
    let Some((first, second)) = as_and(l) else {
        return merge_conjunct(alloc, l, range);
    };
    if let Some(u) = merge_left(alloc, first, range)? {
        return Ok(Some(with_left(alloc, u, second)?));
    }
    if let Some(u) = merge_left(alloc, second, range)? {
        return Ok(Some(with_right(alloc, first, u)?));
    }
    Ok(None)
}

// The two conjunctions with the first conjunct of the left one merged with the right one, which is
// a single conjunct.
fn merge_single(
    alloc: Global,
    l: &BoundExpression,
    d: &BoundExpression,
) -> VortexResult<Option<Merged>>
    requires { IsFalse (is_and (bound_of d.now)) }
    ensures { Finds (NoneMergeable (conjuncts (bound_of l.now)) (conjuncts (bound_of d.now))) (λ m. PairsMerged (bound_of l.now) (bound_of d.now) (bound_of m.left.value) (option_map tree_in m.right)) result }
{
    let Some(range) = range_of(d) else {
        return Ok(None);
    };
    match merge_left(alloc, l, range)? {
        Some(left) => Ok(Some(Merged { left, right: None })),
        None => Ok(None),
    }
}

// The two conjunctions with their pairs merged, one after another: the right conjuncts are taken in
// order, and for each one those of the left one. No earlier one finds a partner after a merge, since
// the left conjunction has one range less: so each right conjunct is looked at once.
#[cycle(merging)]
pub(crate) fn merge_pairs(
    alloc: Global,
    l: &BoundExpression,
    r: &BoundExpression,
) -> VortexResult<Option<Merged>>
    ensures { Finds (NoneMergeable (conjuncts (bound_of l.now)) (conjuncts (bound_of r.now))) (λ m. PairsMerged (bound_of l.now) (bound_of r.now) (bound_of m.left.value) (option_map tree_in m.right)) result }
{
    let Some((first, second)) = as_and(r) else {
        return merge_single(alloc, l, r);
    };
    match merge_pairs(alloc, l, first)? {
        Some(merged) => Ok(Some(merge_second(alloc, merged, second)?)),
        None => match merge_pairs(alloc, l, second)? {
            Some(merged) => Ok(Some(behind(alloc, first, merged)?)),
            None => Ok(None),
        },
    }
}

// The conjunctions after the merges of the right one's first child, with those of its second.
#[cycle(merging)]
fn merge_second(alloc: Global, before: Merged, second: &BoundExpression) -> VortexResult<Merged>
    ensures merged { IfOk result (λ m. MergesSecond (bound_of before.left.value) (option_map tree_in before.right) (bound_of second.now) (bound_of m.left.value) (option_map tree_in m.right)) }
    ensures memory { IfErr result (λ e. e ≡ OutOfMemory) }
{
    // Trees are let go of by `drop`: in place that takes the proof far longer.
    match merge_pairs(alloc, &before.left, second) {
        Ok(Some(later)) => {
            drop(before.left);
            rejoined(alloc, later.left, before.right, later.right)
        }
        Ok(None) => in_front(alloc, before, second),
        Err(e) => {
            drop(before);
            Err(e)
        }
    }
}

// The conjunctions where pairs of the right one's first child are merged and its second has none:
// what is left of the first stands in front of the second.
fn in_front(alloc: Global, merged: Merged, second: &BoundExpression) -> VortexResult<Merged>
    ensures left { IfOk result (λ m. bound_of m.left.value ≡ bound_of merged.left.value) }
    ensures right { IfOk result (λ m. option_map tree_in m.right ≡ conjoined (option_map tree_in merged.right) (Some (bound_of second.now))) }
    ensures memory { IfErr result (λ e. e ≡ OutOfMemory) }
{
    let (merged, second) = boxed(alloc, second).map(|second| (merged, second))?;
    rejoined(alloc, merged.left, merged.right, Some(second))
}

// The conjunctions where pairs of the right one's second child are merged and its first has none:
// what is left of the second stands behind the first.
fn behind(alloc: Global, first: &BoundExpression, merged: Merged) -> VortexResult<Merged>
    ensures left { IfOk result (λ m. bound_of m.left.value ≡ bound_of merged.left.value) }
    ensures right { IfOk result (λ m. option_map tree_in m.right ≡ conjoined (Some (bound_of first.now)) (option_map tree_in merged.right)) }
    ensures memory { IfErr result (λ e. e ≡ OutOfMemory) }
{
    let (first, merged) = boxed(alloc, first).map(|first| (first, merged))?;
    rejoined(alloc, merged.left, Some(first), merged.right)
}

// The left conjunction, and the right one of what is left of its two children.
fn rejoined(
    alloc: Global,
    left: Box<BoundExpression>,
    first: Option<Box<BoundExpression>>,
    second: Option<Box<BoundExpression>>,
) -> VortexResult<Merged>
    ensures left { IfOk result (λ m. bound_of m.left.value ≡ bound_of left.value) }
    ensures right { IfOk result (λ m. option_map tree_in m.right ≡ conjoined (option_map tree_in first) (option_map tree_in second)) }
    ensures memory { IfErr result (λ e. e ≡ OutOfMemory) }
{
    conjoined(alloc, first, second).map(|right| Merged { left, right })
}

// The tree with the pairs at its root merged, which are the only ones.
pub(crate) fn merge_root(
    alloc: Global,
    b: &BoundExpression,
) -> VortexResult<Option<Box<BoundExpression>>>
    requires { FusedBelow (bound_of b.now) }
    ensures { Finds (Fused (bound_of b.now)) (λ u. IsFusedOf (bound_of b.now) (bound_of u.value)) result }
{
    match as_and(b) {
        Some((l, r)) => merge_and(alloc, l, r),
        None => Ok(None),
    }
}

// The same for the And of the two. It stands apart, so that another node costs one look.
#[inline(never)]
fn merge_and(
    alloc: Global,
    l: &BoundExpression,
    r: &BoundExpression,
) -> VortexResult<Option<Box<BoundExpression>>>
    ensures { (b : BoundTree) → IsBinary and_also (bound_of l.now) (bound_of r.now) b → FusedBelow b →
        Finds (Fused b) (λ u. IsFusedOf b (bound_of u.value)) result }
{
    let Some(Merged { left, right }) = merge_pairs(alloc, l, r)? else {
        return Ok(None);
    };
    match right {
        Some(right) => Ok(Some(and_of(alloc, Box::into_inner(left), Box::into_inner(right))?)),
        None => Ok(Some(left)),
    }
}

// Conjunctions of many conjuncts: the pairs of each And merged by the items of their ranges. Conjuncts
// are noted from the last one to the first, and the pairs of an And are merged as soon as its own are
// noted: so these are the last ones then, and the first range of an item is one of them if any is.
ghost use Rattle.std.specs.Prelude.{◌≡◌, ◌+◌, ◌≤◌, IfOk, IsFalse, List, OnOk, length};
ghost use Rattle.vx_tree.specs.Trees.{WellTyped};
ghost use Rattle.vx_tree.specs.Views.{bound_of};
ghost use Rattle.vx_rewrite_fusing.specs.Conjuncts.{conjuncts, tree_in, Fused};
ghost use Rattle.vx_rewrite_fusing.specs.Finding.{ConjunctsFused, Finds, Unbounded};
ghost use Rattle.vx_rewrite_fusing.specs.Merging.{IsFusedOf};
ghost use Rattle.vx_rewrite_fusing.specs.Places.{IsLinked};
ghost use Rattle.vx_rewrite_fusing.specs.Sides.{CanStandLeft, CanStandRight, IsLeft, IsRight, MergedLeft, MergedRight, TreeMerged};
ghost use Rattle.vx_rewrite_fusing.specs.declared.places.Place.{Place};
ghost use Rattle.vx_rewrite_fusing.specs.declared.ranges.Side as side;

use crate::nodes::{as_and, conjuncts_in};
use crate::places::Places;
use crate::ranges::{Side, range_of};
use crate::rest::left_over;
use std::alloc::Global;
use vx_tree::{BoundExpression, VortexResult};

// From how many conjuncts on a conjunction is merged by items. Where there are fewer, a search takes
// less than so many comparisons for each conjunct, and no memory.
const WIDE: usize = 12;

// Whether the tree is a conjunction of many conjuncts.
pub(crate) fn is_wide(b: &BoundExpression) -> bool {
    conjuncts_in(b, WIDE) >= WIDE
}

// Whether some conjunct bounds an item from that side.
pub(crate) fn is_bounded(b: &BoundExpression, side: Side) -> bool
    ensures { IsFalse result → Unbounded side (bound_of b.now) }
{
    if let Some((l, r)) = as_and(b) {
        return is_bounded(l, side) || is_bounded(r, side);
    }
    match range_of(b) {
        Some(range) => range.side == side,
        None => false,
    }
}

// The tree, whose conjuncts are fused, with the pairs of each of its Ands merged, None where all stays.
// What it refuses for want of memory says nothing of the tree: the index takes some, too.
pub(crate) fn merge_conjuncts(
    alloc: Global,
    b: &BoundExpression,
) -> VortexResult<Option<Box<BoundExpression>>>
    requires typed { WellTyped (bound_of b.now) }
    requires apart { ConjunctsFused (bound_of b.now) }
    ensures { OnOk result (Finds (Fused (bound_of b.now)) (λ u. IsFusedOf (bound_of b.now) (tree_in u)) result) }
{
    let mut places = Places::new(alloc);
    merge_tree(alloc, &mut places, b)?;
    let left = left_over(alloc, b, &mut places.list)?;
    Ok(left.flatten())
}

// Notes the conjuncts of the tree, in front of those that are there, and merges the pairs of each of
// its Ands. The side with fewer conjuncts is gone through: at each And of a chain that is a single
// one, and in any tree a conjunct is gone through again only at an And that has at least twice as many
// as the last one.
fn merge_tree<'a>(
    alloc: Global,
    places: &mut Places<'a>,
    b: &'a BoundExpression,
) -> VortexResult<()>
    requires linked { IsLinked places.old }
    requires typed { WellTyped (bound_of b.now) }
    requires apart { ConjunctsFused (bound_of b.now) }
    ensures linked { OnOk result (IsLinked places.new) }
    ensures merged { OnOk result (TreeMerged places.new.list.items places.old.list.items (bound_of b.now)) }
{
    let Some((l, r)) = as_and(b) else {
        return Ok(places.push(range_of(b))?);
    };
    let begin = places.list.len();
    merge_tree(alloc, places, r)?;
    let start = places.list.len();
    merge_tree(alloc, places, l)?;
    let end = places.list.len();
    if end - start < start - begin {
        merge_lefts(alloc, places, l, end, begin)?;
        return Ok(());
    }
    merge_rights(alloc, places, r, start, start)?;
    Ok(())
}

// Merges the conjuncts of a right tree, whose places end before `at`, in order, each with the first one
// from `start` on that bounds its item from the other side. Answers where they begin.
fn merge_rights(
    alloc: Global,
    places: &mut Places<'_>,
    r: &BoundExpression,
    at: usize,
    start: usize,
) -> VortexResult<usize>
    requires linked { IsLinked places.old }
    requires stands { CanStandRight places.old.list.items (bound_of r.now) at start }
    ensures linked { OnOk result (IsLinked places.new) }
    ensures start { IfOk result (λ begin. begin + length (conjuncts (bound_of r.now)) ≡ at) }
    ensures merged { (back rs mid ls : List Place) → IsRight places.old.list.items back rs mid ls (bound_of r.now) at start → OnOk result (MergedRight places.new.list.items back rs mid ls (bound_of r.now)) }
{
    let Some((first, second)) = as_and(r) else {
        let at = at - 1;
        let Some(left) = places.partner(at, start) else {
            return Ok(at);
        };
        places.merge(alloc, left, at)?;
        return Ok(at);
    };
    let at = merge_rights(alloc, places, first, at, start)?;
    merge_rights(alloc, places, second, at, start)
}

// Merges the conjuncts of a left tree, whose places end before `at`, in order, each with the first one
// from `begin` on that bounds its item from the other side, which is one of the right tree. Answers
// where they begin.
fn merge_lefts(
    alloc: Global,
    places: &mut Places<'_>,
    l: &BoundExpression,
    at: usize,
    begin: usize,
) -> VortexResult<usize>
    requires linked { IsLinked places.old }
    requires stands { CanStandLeft places.old.list.items (bound_of l.now) at begin }
    ensures linked { OnOk result (IsLinked places.new) }
    ensures start { IfOk result (λ start. start + length (conjuncts (bound_of l.now)) ≡ at) }
    ensures merged { (back rs mid ls front : List Place) → IsLeft places.old.list.items back rs mid ls front (bound_of l.now) at begin → OnOk result (MergedLeft places.new.list.items back rs mid ls front (bound_of l.now)) }
{
    let Some((first, second)) = as_and(l) else {
        let at = at - 1;
        let Some(right) = places.partner(at, begin) else {
            return Ok(at);
        };
        places.merge(alloc, at, right)?;
        return Ok(at);
    };
    let at = merge_lefts(alloc, places, first, at, begin)?;
    merge_lefts(alloc, places, second, at, begin)
}

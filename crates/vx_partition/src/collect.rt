// The walk that collects the pieces of a tree.
ghost use Rattle.std.specs.Prelude.{◌≡◌, ◌++◌, ◌∷◌, List, Option, map, IfOk, IfErr, None};
ghost use Rattle.std.specs.Option.{option_copied};
ghost use Rattle.std.specs.Slice.Iter.{iter_rest};
ghost use Rattle.vx_dtype.specs.declared.error.VortexError.TheVariants.{OutOfMemory};
ghost use Rattle.vx_partition_laws.specs.Pieces.{Piece, pieces, each_pieces};
ghost use Rattle.vx_tree.specs.Trees.{BoundTree};
ghost use Rattle.vx_tree.specs.Views.{bound_of, bounds_of};
ghost use Rattle.vx_partition.specs.Only.{annotations_met, annotations_met_in};
ghost use Rattle.vx_partition.specs.Collecting.{groups_in, collected, SameGroups, marked, marks_of, marks_of_each, IsWalked};

use crate::groups::{Groups, add_piece};
use crate::mark::Mark;
use std::alloc::Global;
use std::slice::Iter;
use vx_rewrite_analysis::Annotation;
use vx_tree::{BoundExpression, VortexResult};

// Puts the pieces of the tree, as the next annotations that are met say, behind those that there are,
// and the tree's marks behind theirs. Answers whether there were any.
#[cycle(collect)]
pub(crate) fn collect<A: Annotation + Drop>(
    alloc: Global,
    e: &BoundExpression,
    met: &mut Iter<'_, Option<&A>>,
    groups: &mut Groups<A>,
    marks: &mut Vec<Mark>,
) -> VortexResult<bool>
    ensures left { IfOk result (λ some. (only : BoundTree → Option A) (rest : List (Option A)) → map option_copied (iter_rest met.old) ≡ annotations_met only (bound_of e.now) ++ rest → map option_copied (iter_rest met.new) ≡ rest) }
    ensures walked { IfOk result (λ some. (only : BoundTree → Option A) (rest : List (Option A)) → map option_copied (iter_rest met.old) ≡ annotations_met only (bound_of e.now) ++ rest → (before : List (Piece A)) → SameGroups A.eq (groups_in groups.old) (collected A.eq before) →
        IsWalked A.eq before (pieces only (bound_of e.now)) (marks_of A.eq only before (bound_of e.now)) some marks.old.items marks.new.items (groups_in groups.new)) }
    ensures memory { IfErr result (λ y. y ≡ OutOfMemory) }
{
    if let Some(annotation) = next_met(met) {
        let mark = add_piece(alloc, groups, annotation, e.clone()?)?;
        marks.push(mark)?;
        return Ok(true);
    }
    match e {
        BoundExpression::Root { .. } => {
            marks.push(Mark::Kept)?;
            Ok(false)
        }
        BoundExpression::Scalar { children, .. } => {
            collect_below(alloc, children.as_slice(), met, groups, marks)
        }
    }
}

// The same of a node that is no piece, over its children.
#[cycle(collect)]
fn collect_below<A: Annotation + Drop>(
    alloc: Global,
    children: &[BoundExpression],
    met: &mut Iter<'_, Option<&A>>,
    groups: &mut Groups<A>,
    marks: &mut Vec<Mark>,
) -> VortexResult<bool>
    ensures left { IfOk result (λ some. (only : BoundTree → Option A) (rest : List (Option A)) → map option_copied (iter_rest met.old) ≡ annotations_met_in only (bounds_of children.now) ++ rest → map option_copied (iter_rest met.new) ≡ rest) }
    ensures walked { IfOk result (λ some. (only : BoundTree → Option A) (rest : List (Option A)) → map option_copied (iter_rest met.old) ≡ annotations_met_in only (bounds_of children.now) ++ rest → (before : List (Piece A)) → SameGroups A.eq (groups_in groups.old) (collected A.eq before) →
        IsWalked A.eq before (each_pieces only (bounds_of children.now)) (marked A.eq None before (each_pieces only (bounds_of children.now)) (marks_of_each A.eq only before (bounds_of children.now))) some marks.old.items marks.new.items (groups_in groups.new)) }
    ensures memory { IfErr result (λ y. y ≡ OutOfMemory) }
{
    let here = marks.len();
    marks.push(Mark::Above)?;
    let mut some = false;
    for child in children {
        let found = collect(alloc, child, met, groups, marks)?;
        some = some | found;
    }
    if !some {
        marks.truncate(here);
        marks.push(Mark::Kept)?;
    }
    Ok(some)
}

// The next annotation, if there is one at the next node.
fn next_met<'a, A: Annotation>(met: &mut Iter<'_, Option<&'a A>>) -> Option<&'a A>
    ensures { (only : Option A) (rest : List (Option A)) → map option_copied (iter_rest met.old) ≡ only ∷ rest → (option_copied result ≡ only) × (map option_copied (iter_rest met.new) ≡ rest) }
{
    match met.next() {
        Some(only) => *only,
        None => None,
    }
}

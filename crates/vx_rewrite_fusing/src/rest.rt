// What is left of a conjunction, told from the places of its conjuncts.
ghost use Rattle.std.specs.Prelude.{◌≡◌, ◌∷◌, ◌++◌, [], IfErr, IfOk, List, MatchOption, None, Ok, Some, false, option_map};
ghost use Rattle.vx_dtype.specs.declared.error.VortexError.TheVariants.{OutOfMemory};
ghost use Rattle.vx_tree.specs.Views.{bound_of};
ghost use Rattle.vx_rewrite_fusing.specs.Conjuncts as spec;
ghost use Rattle.vx_rewrite_fusing.specs.Conjuncts.{tree_in};
ghost use Rattle.vx_rewrite_fusing.specs.Places.{became_place, has_merged, rest_of, rests, Holds, IsLeftOver};
ghost use Rattle.vx_rewrite_fusing.specs.declared.places.Place.{Place};

use crate::nodes::{as_and, boxed, conjoined};
use crate::places::Place;
use std::alloc::Global;
use vx_tree::{BoundExpression, VortexResult};

// What is left of a tree, None where all stays.
pub(crate) fn left_over(
    alloc: Global,
    tree: &BoundExpression,
    list: &mut Vec<Place<'_>>,
) -> VortexResult<Option<Option<Box<BoundExpression>>>>
    ensures left { (front ps : List Place) (o : _) → list.old.items ≡ front ++ ps → Holds (bound_of tree.now) ps o →
        IsLeftOver (has_merged ps) list.new.items front (bound_of tree.now) o result }
{
    let Some((first, second)) = as_and(tree) else {
        return Ok(became(list.pop()));
    };
    let before = left_over(alloc, first, list)?;
    let after = left_over(alloc, second, list)?;
    rest_after(alloc, first, before, second, after)
}

// What a conjunct became, None where it stays.
fn became(place: Option<Place<'_>>) -> Option<Option<Box<BoundExpression>>>
    ensures { (p : Place) → place.entry ≡ Some p → MatchOption result (has_merged (p ∷ []) ≡ false) (λ o. p ≡ became_place o) }
{
    match place {
        Some(Place::Merged(merged)) => Some(Some(merged)),
        Some(Place::Gone) => Some(None),
        Some(Place::Other) | Some(Place::Open { .. }) | None => None,
    }
}

// What is left of a conjunction by what is left of its two children, None where all is.
fn rest_after(
    alloc: Global,
    first: &BoundExpression,
    before: Option<Option<Box<BoundExpression>>>,
    second: &BoundExpression,
    after: Option<Option<Box<BoundExpression>>>,
) -> VortexResult<Option<Option<Box<BoundExpression>>>>
    ensures rest { IfOk result (λ o. rests o ≡ rest_of (bound_of first.now) (rests before) (bound_of second.now) (rests after)) }
    ensures whole { before ≡ None → after ≡ None → result ≡ Ok None }
    ensures memory { IfErr result (λ e. e ≡ OutOfMemory) }
{
    match (before, after) {
        (Some(before), Some(after)) => Ok(Some(conjoined(alloc, before, after)?)),
        (Some(before), None) => Ok(Some(in_front(alloc, before, second)?)),
        (None, Some(after)) => Ok(Some(behind(alloc, first, after)?)),
        (None, None) => Ok(None),
    }
}

// What is left of a first child, and the whole second one.
fn in_front(
    alloc: Global,
    before: Option<Box<BoundExpression>>,
    second: &BoundExpression,
) -> VortexResult<Option<Box<BoundExpression>>>
    ensures rest { IfOk result (λ o. option_map tree_in o ≡ spec.conjoined (option_map tree_in before) (Some (bound_of second.now))) }
    ensures memory { IfErr result (λ e. e ≡ OutOfMemory) }
{
    let (before, second) = boxed(alloc, second).map(|second| (before, second))?;
    conjoined(alloc, before, Some(second))
}

// The whole first child, and what is left of the second one.
fn behind(
    alloc: Global,
    first: &BoundExpression,
    after: Option<Box<BoundExpression>>,
) -> VortexResult<Option<Box<BoundExpression>>>
    ensures rest { IfOk result (λ o. option_map tree_in o ≡ spec.conjoined (Some (bound_of first.now)) (option_map tree_in after)) }
    ensures memory { IfErr result (λ e. e ≡ OutOfMemory) }
{
    let (first, after) = boxed(alloc, first).map(|first| (first, after))?;
    conjoined(alloc, Some(first), after)
}

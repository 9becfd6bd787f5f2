// The first fault of evaluation, and the node that it is of.
ghost use Rattle.std.specs.Prelude.{◌≡◌, ◌↔◌, ℕ, Err, IfOk, IfErr, IfSome, IsSome, IsErr, IsErrOf, OnOk};
ghost use Rattle.vx_dtype.specs.declared.error.VortexError.TheVariants.{OutOfMemory, ScopeMismatch};
ghost use Rattle.vx_tree.specs.Faults.{each_fault};
ghost use Rattle.vx_tree.specs.Trees.{WellTyped, EachWellTyped, Over, EachOver, unbound};
ghost use Rattle.vx_tree.specs.Views.{bound_of, bounds_of};
ghost use Rattle.vx_eval.specs.Evaluation.{evaluation};
ghost use Rattle.vx_places.specs.Nodes.{node_at};
ghost use Rattle.vx_places.specs.Faults.{IsFirstFault, IsFirstFaultIn};
ghost use Rattle.vx_places.specs.Walked.{AreSeen, AddsSeen, LeadsToNode, LeadsBelow};

use crate::place::{Place, placed};
use crate::values::{push_none, push_value};
use std::alloc::Global;
use vx_dtype::{VortexError, VortexResult};
use vx_tree::BoundExpression;
use vx_value::Column;

/// The place of the first fault of the tree on the batch, None exactly where `vx_eval::apply_bound`
/// gives a column. Asks a well-typed tree.
///
/// The first fault is the children's from left to right, then the node's: the node at the place
/// faults, no node below it does, and none below a child to the left of the way down to it.
/// [`Place::row`] is the lowest row of the fault.
///
/// Each node is evaluated at most once, so that the cost is linear in the nodes. A tree without sums,
/// casts and fills never faults, and isn't evaluated; one that has them below its first node alone is
/// evaluated as it is. Any other node is evaluated over structs of its children's values, one for
/// each row.
///
/// Refuses with `ScopeMismatch` (12) exactly where some scope root has another type than the batch,
/// before it takes any memory, and with `OutOfMemory` (1).
pub fn first_fault_at(
    alloc: Global,
    b: &BoundExpression,
    batch: &Column,
) -> VortexResult<Option<Place>>
    requires { WellTyped (bound_of b.now) }
    ensures mismatch { (Over (bound_of b.now) batch.now.type → ⊥) → IsErrOf result ScopeMismatch }
    ensures found { IfOk result (λ place. IsSome place ↔ IsErr (evaluation (bound_of b.now) batch.now)) }
    ensures fault { IfOk result (λ place. IfSome place (λ p. evaluation (bound_of b.now) batch.now ≡ Err p.refusal)) }
    ensures first { IfOk result (λ place. IfSome place (λ p. IsFirstFault batch.now.rows (bound_of b.now) p.path.items p.refusal)) }
    ensures node { IfOk result (λ place. IfSome place (λ p. IsSome (node_at p.path.items (unbound (bound_of b.now))))) }
    ensures memory { Over (bound_of b.now) batch.now.type → IfErr result (λ refusal. refusal ≡ OutOfMemory) }
{
    if !b.is_root_bound_to(batch.dtype()) {
        return Err(VortexError::ScopeMismatch);
    }
    let mut path = Vec::new(alloc);
    let mut columns = Vec::new(alloc);
    match push_seen(alloc, b, batch, &mut path, &mut columns) {
        Ok(()) => Ok(None),
        Err(refusal) => placed(path, refusal),
    }
}

// For each tree the column of its values, none where it never faults and no column is needed yet; or
// the first fault, and then the path leads to its node. The recursion handles no column: its frame
// has a place for each that a function handles.
#[cycle(fault)]
fn see_all(
    alloc: Global,
    trees: &[BoundExpression],
    batch: &Column,
    path: &mut Vec<usize>,
) -> VortexResult<Vec<Option<Column>>>
    requires typed { EachWellTyped (bounds_of trees.now) }
    requires over { EachOver (bounds_of trees.now) batch.now.type }
    ensures seen { IfOk result (λ columns. AreSeen batch.now.rows (bounds_of trees.now) columns.items) }
    ensures place { LeadsBelow (IsFirstFaultIn batch.now.rows (bounds_of trees.now)) path.old.items result path.new.items }
{
    let mut columns = Vec::with_capacity(alloc, trees.len())?;
    for i in 0..trees.len() {
        path.push(i)?;
        push_seen(alloc, &trees[i], batch, path, &mut columns)?;
        path.pop();
    }
    Ok(columns)
}

// Adds the column of the tree's values, or none.
#[cycle(fault)]
fn push_seen(
    alloc: Global,
    b: &BoundExpression,
    batch: &Column,
    path: &mut Vec<usize>,
    columns: &mut Vec<Option<Column>>,
) -> VortexResult<()>
    requires typed { WellTyped (bound_of b.now) }
    requires over { Over (bound_of b.now) batch.now.type }
    ensures seen { OnOk result (AddsSeen batch.now.rows (bound_of b.now) columns.old.items columns.new.items) }
    ensures place { LeadsToNode (IsFirstFault batch.now.rows (bound_of b.now)) path.old.items result path.new.items }
{
    match b {
        BoundExpression::Root { .. } => push_none(columns),
        BoundExpression::Scalar { children, .. } => {
            let below = see_all(alloc, children.as_slice(), batch, path)?;
            push_value(alloc, b, batch, below, columns)
        }
    }
}

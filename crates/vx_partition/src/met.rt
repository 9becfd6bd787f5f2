// The annotations that a walk of a tree meets: those of nodes that have exactly one.
ghost use Rattle.std.specs.Prelude.{◌≡◌, ◌++◌, map, IfOk, OnOk};
ghost use Rattle.std.specs.Option.{option_copied};
ghost use Rattle.vx_tree.specs.Views.{bound_of, bounds_of};
ghost use Rattle.vx_partition.specs.Only.{annotations_met, annotations_met_in, only_annotation, only_key};

use std::alloc::AllocError;
use std::collections::HashSet;
use vx_rewrite_analysis::{Annotation, BoundAnnotations};
use vx_tree::{BoundExpression, ExactBoundExpr};

// Puts the annotations that the map has of the tree's nodes behind those that there are. Each look-up
// hashes the node's tree, and compares it where the map has it.
#[cycle(meet)]
pub(crate) fn meet<'a, A: Annotation>(
    e: &BoundExpression,
    annotations: &'a BoundAnnotations<A>,
    met: &mut Vec<Option<&'a A>>,
) -> Result<(), AllocError>
    ensures { OnOk result (map option_copied met.new.items ≡ map option_copied met.old.items ++ annotations_met (only_annotation annotations.now) (bound_of e.now)) }
{
    let only = only_annotation(annotations, e)?;
    met.push(only)?;
    if only.is_some() {
        return Ok(());
    }
    match e {
        BoundExpression::Root { .. } => Ok(()),
        BoundExpression::Scalar { children, .. } => {
            meet_below(children.as_slice(), annotations, met)
        }
    }
}

// The same of a node's children.
#[cycle(meet)]
fn meet_below<'a, A: Annotation>(
    children: &[BoundExpression],
    annotations: &'a BoundAnnotations<A>,
    met: &mut Vec<Option<&'a A>>,
) -> Result<(), AllocError>
    ensures { OnOk result (map option_copied met.new.items ≡ map option_copied met.old.items ++ annotations_met_in (only_annotation annotations.now) (bounds_of children.now)) }
{
    for child in children {
        meet(child, annotations, met)?;
    }
    Ok(())
}

// The annotation of the node, if it has exactly one.
fn only_annotation<'a, A: Annotation>(
    annotations: &'a BoundAnnotations<A>,
    e: &BoundExpression,
) -> Result<Option<&'a A>, AllocError>
    ensures { IfOk result (λ a. option_copied a ≡ only_annotation annotations.now (bound_of e.now)) }
{
    let key = ExactBoundExpr::new(e.clone()?);
    let only = only_key(annotations.get(&key));
    // By `drop`: to let go of a tree in place takes the proof far longer.
    drop(key);
    Ok(only)
}

// The annotation of the set, if it has exactly one.
fn only_key<A: Annotation>(set: Option<&HashSet<A>>) -> Option<&A>
    ensures { option_copied result ≡ only_key (option_copied set.entry) }
{
    let set = set?;
    if set.len() != 1 {
        return None;
    }
    set.iter().next()
}

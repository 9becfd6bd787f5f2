// Whether every scope root of a tree lies at or below a node with one annotation.
ghost use Rattle.std.specs.Prelude.{◌≡◌, ◌↔◌, IfOk, IsTrue, MatchResult};
ghost use Rattle.vx_dtype.specs.declared.error.VortexError.TheVariants.{OutOfMemory};
ghost use Rattle.vx_tree.specs.Views.{bound_of, bounds_of};
ghost use Rattle.vx_rewrite_analysis.specs.Covers.{has_single, Covered, is_covered, are_covered};

use crate::entries::entry;
use crate::{Annotation, BoundAnnotations};
use std::alloc::{AllocError, Global};
use vx_tree::{BoundExpression, VortexResult};

/// Whether every scope root of the tree lies at or below a node that has exactly one annotation in
/// the map. Nothing below such a node is looked at. Refuses with `OutOfMemory` (1) alone.
pub fn covers<A: Annotation>(
    _alloc: Global,
    e: &BoundExpression,
    annotations: &BoundAnnotations<A>,
) -> VortexResult<bool>
    ensures { MatchResult result (λ told. IsTrue told ↔ Covered (has_single annotations.now) (bound_of e.now)) (λ y. y ≡ OutOfMemory) }
{
    Ok(is_covered(e, annotations)?)
}

#[cycle(covers)]
fn is_covered<A: Annotation>(
    e: &BoundExpression,
    annotations: &BoundAnnotations<A>,
) -> Result<bool, AllocError>
    ensures { IfOk result (λ told. told ≡ is_covered (has_single annotations.now) (bound_of e.now)) }
{
    if has_single(e, annotations)? {
        return Ok(true);
    }
    match e {
        BoundExpression::Root { .. } => Ok(false),
        BoundExpression::Scalar { children, .. } => are_covered(children.as_slice(), annotations),
    }
}

#[cycle(covers)]
fn are_covered<A: Annotation>(
    bs: &[BoundExpression],
    annotations: &BoundAnnotations<A>,
) -> Result<bool, AllocError>
    ensures { IfOk result (λ told. told ≡ are_covered (has_single annotations.now) (bounds_of bs.now)) }
{
    for b in bs {
        if !is_covered(b, annotations)? {
            return Ok(false);
        }
    }
    Ok(true)
}

// Whether the node has exactly one annotation.
fn has_single<A: Annotation>(
    e: &BoundExpression,
    annotations: &BoundAnnotations<A>,
) -> Result<bool, AllocError>
    ensures { IfOk result (λ told. told ≡ has_single annotations.now (bound_of e.now)) }
{
    match entry(annotations, e)? {
        Some(set) => Ok(set.len() == 1),
        None => Ok(false),
    }
}

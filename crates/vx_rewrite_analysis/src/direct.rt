// The nodes of a bound tree that are annotated themselves.
ghost use Rattle.std.specs.Prelude.{◌≡◌, ◌||◌, is_some, List, IfErr, IfOk, OnOk, IsTrue};
ghost use Rattle.vx_dtype.specs.declared.error.VortexError.TheVariants.{OutOfMemory};
ghost use Rattle.vx_tree.specs.Trees.{BoundTree};
ghost use Rattle.vx_tree.specs.Views.{bound_of};
ghost use Rattle.vx_rewrite_analysis.specs.Annotated.{answered_from, IsAnnotatedBy};
ghost use Rattle.vx_rewrite_analysis.specs.Annotations.{answered, AnswersAlike, IsAnnotated};
ghost use Rattle.vx_rewrite_analysis.specs.Keys.{key_of, entry_at};
ghost use Rattle.vx_rewrite_analysis.specs.Reached.{occurs, IsNodeOf};
ghost use Rattle.vx_rewrite_analysis.specs.Refusals.{IsRefusalOf, IsFirstRefusal, MeetsNoRefusal};

use crate::annotations::set_of;
use crate::entries::put;
use crate::{Annotation, BoundAnnotations};
use std::alloc::Global;
use std::collections::HashMap;
use vx_tree::{BoundExpression, VortexResult};

/// The closure's answers at each node that is reached and has some. What lies below such a node
/// isn't reached through it. There is no other entry.
///
/// Takes time linear in the nodes, in expectation, beside that of the closure.
///
/// Refuses with what the closure refuses, the first that is met, and with `OutOfMemory` (1).
pub fn direct_bound_annotations<
    A: Annotation + Drop,
    F: Fn(&BoundExpression) -> VortexResult<Vec<A>> + Drop,
>(alloc: Global, e: &BoundExpression, annotate: F) -> VortexResult<BoundAnnotations<A>>
    requires { (x : _) → IsNodeOf (bound_of x.now) (bound_of e.now) → F.pre annotate x }
    ensures annotated { IfOk result (IsAnnotatedBy A.eq (F.post annotate) (answered_from (bound_of e.now))) }
    ensures refusal { IfErr result (IsRefusalOf (F.post annotate) (λ n. IsNodeOf n (bound_of e.now))) }
    ensures first { IfErr result (IsFirstRefusal A.eq (F.post annotate) (bound_of e.now)) }
    ensures unrefused { OnOk result (MeetsNoRefusal A.eq (F.post annotate) (bound_of e.now)) }
{
    let mut annotations = HashMap::new(alloc);
    annotate_into(alloc, e, &annotate, &mut annotations)?;
    Ok(annotations)
}

// Gives entries to the nodes with answers that are reached.
fn annotate_into<A: Annotation + Drop, F: Fn(&BoundExpression) -> VortexResult<Vec<A>>>(
    alloc: Global,
    e: &BoundExpression,
    annotate: &F,
    annotations: &mut BoundAnnotations<A>,
) -> VortexResult<()>
    requires { (x : _) → IsTrue (occurs (bound_of x.now) (bound_of e.now)) → F.pre annotate.now x }
    ensures annotated { OnOk result ((answers : BoundTree → List A) → AnswersAlike A.eq (F.post annotate.now) answers → IsAnnotated A.eq answers annotations.old
        → ((k : _) → is_some (entry_at (key_of k) annotations.new) ≡ (answered_from (bound_of e.now) (answered answers) (key_of k) || is_some (entry_at (key_of k) annotations.old)))
        × IsAnnotated A.eq answers annotations.new) }
    ensures refusal { IfErr result (IsRefusalOf (F.post annotate.now) (λ n. IsTrue (occurs n (bound_of e.now)))) }
    ensures first { IfErr result (IsFirstRefusal A.eq (F.post annotate.now) (bound_of e.now)) }
    ensures unrefused { OnOk result (MeetsNoRefusal A.eq (F.post annotate.now) (bound_of e.now)) }
{
    let answers = annotate(e)?;
    if !answers.is_empty() {
        let set = set_of(alloc, answers)?;
        put(annotations, e, set)?;
        return Ok(());
    }
    for child in e.children() {
        annotate_into(alloc, child, annotate, annotations)?;
    }
    Ok(())
}

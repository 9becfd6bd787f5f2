// Annotations of the nodes of a bound tree.
ghost use Rattle.std.specs.Prelude.{◌≡◌, ◌<◌, ◌||◌, All, is_some, None, Some, List, IfErr, IfOk, OnOk, get_or, length, if◌then◌else◌};
ghost use Rattle.std.specs.HashSet.{contains};
ghost use Rattle.std.specs.List.{list_any};
ghost use Rattle.vx_dtype.specs.declared.error.VortexError.TheVariants.{OutOfMemory};
ghost use Rattle.vx_tree.specs.Trees.{BoundTree};
ghost use Rattle.vx_tree.specs.Views.{bound_of};
ghost use Rattle.vx_rewrite_analysis.specs.Annotated.{reached_from, IsAnnotatedBy};
ghost use Rattle.vx_rewrite_analysis.specs.Annotations.{answered, is_some_item, SameAnnotations, IsAnnotationsOf, IsAnnotated};
ghost use Rattle.vx_rewrite_analysis.specs.ByNumber.{has_some, has_annotation, HasEach, HasReached};
ghost use Rattle.vx_rewrite_analysis.specs.Keys.{key_of, entry_at};
ghost use Rattle.vx_rewrite_analysis.specs.Numbers.{IsNumbered};
ghost use Rattle.vx_rewrite_analysis.specs.Reached.{IsNodeOf};
ghost use Rattle.vx_rewrite_analysis.specs.Refusals.{IsRefusalOf, IsFirstRefusal, MeetsNoRefusal};

use crate::Annotation;
use crate::entries::put_some;
use crate::keys::next_key;
use crate::numbers::{NumberedNode, number_of};
use crate::reached::{OwnAnswers, own_answers};
use indexmap::IndexSet;
use std::alloc::{AllocError, Global};
use std::collections::{HashMap, HashSet};
use vx_tree::{BoundExpression, ExactBoundExpr, VortexResult};

/// The annotations of nodes of a bound tree; equal nodes are one key.
pub type BoundAnnotations<A> = HashMap<ExactBoundExpr, HashSet<A>>;

/// The annotations of each node that is reached: the closure's answers at it, or, where there are
/// none, those of its children together. What lies below a node with answers isn't reached through
/// it. There is an entry for each node that is reached, and no other.
///
/// Equal nodes are annotated once. Takes time linear in the nodes, in expectation, beside that of the
/// closure and of copying annotations. Refuses with what the closure refuses, the first that is met,
/// and with `OutOfMemory` (1).
pub fn descendent_bound_annotations<
    A: Annotation + Drop,
    F: Fn(&BoundExpression) -> VortexResult<Vec<A>> + Drop,
>(alloc: Global, e: &BoundExpression, annotate: F) -> VortexResult<BoundAnnotations<A>>
    requires { (x : _) → IsNodeOf (bound_of x.now) (bound_of e.now) → F.pre annotate x }
    ensures annotated { IfOk result (IsAnnotatedBy A.eq (F.post annotate) (reached_from (bound_of e.now))) }
    ensures refusal { IfErr result (IsRefusalOf (F.post annotate) (λ n. IsNodeOf n (bound_of e.now))) }
    ensures first { IfErr result (IsFirstRefusal A.eq (F.post annotate) (bound_of e.now)) }
    ensures unrefused { OnOk result (MeetsNoRefusal A.eq (F.post annotate) (bound_of e.now)) }
{
    let mut nodes = IndexSet::new(alloc);
    let root = number_of(alloc, e, &mut nodes)?;
    let nodes = nodes.as_slice();
    let own = own_answers(alloc, nodes, root, &annotate)?;
    let sets = sets_of(alloc, nodes, own)?;
    Ok(sets_by_key(alloc, nodes, sets)?)
}

// The annotations of the nodes that are reached, by number.
type AnnotationSets<A> = Vec<Option<HashSet<A>>>;

// The annotations of the nodes with those answers, from the lowest number up: those of a node's
// children are there before its own.
fn sets_of<A: Annotation + Drop>(
    alloc: Global,
    nodes: &[NumberedNode<'_>],
    own: OwnAnswers<A>,
) -> VortexResult<AnnotationSets<A>>
    requires numbered { IsNumbered nodes.now }
    requires count { length own.items ≡ length nodes.now }
    ensures count { IfOk result (λ sets. length sets.items ≡ length nodes.now) }
    ensures annotations { IfOk result (λ sets. (answers : BoundTree → List A) (root : BoundTree) → HasEach (λ b v. SameAnnotations A.eq v.items (answers b)) nodes.now own.items → HasReached (answered answers) root nodes.now own.items
        → HasEach (IsAnnotationsOf A.eq answers) nodes.now sets.items × HasReached (answered answers) root nodes.now sets.items) }
    ensures refusal { IfErr result (λ y. y ≡ OutOfMemory) }
{
    let mut sets = Vec::with_capacity(alloc, nodes.len())?;
    for answers in own {
        let Some(answers) = answers else {
            sets.push(None)?;
            continue;
        };
        let number = sets.len();
        let node = &nodes[number];
        let set = set_at(alloc, node, answers, sets.as_slice())?;
        sets.push(Some(set))?;
    }
    Ok(sets)
}

// The node's answers, or, where there are none, its children's annotations together.
fn set_at<A: Annotation + Drop>(
    alloc: Global,
    node: &NumberedNode<'_>,
    answers: Vec<A>,
    sets: &[Option<HashSet<A>>],
) -> VortexResult<HashSet<A>>
    requires { All (λ k. k < length sets.now) node.now.children.items }
    ensures set { IfOk result (λ s. (a : A) → contains A.eq s a
        ≡ (if is_some_item answers.items then list_any (A.eq a) answers.items else list_any (λ k. has_annotation A.eq a (get_or sets.now k None)) node.now.children.items)) }
    ensures refusal { IfErr result (λ y. y ≡ OutOfMemory) }
{
    if !answers.is_empty() {
        return Ok(set_of(alloc, answers)?);
    }
    let mut set = HashSet::new(alloc);
    for child in node.children.as_slice() {
        let Some(below) = &sets[*child] else {
            continue;
        };
        add_all(alloc, &mut set, below)?;
    }
    Ok(set)
}

// The annotations by the keys of their nodes.
fn sets_by_key<A: Annotation + Drop>(
    alloc: Global,
    nodes: &[NumberedNode<'_>],
    sets: AnnotationSets<A>,
) -> Result<BoundAnnotations<A>, AllocError>
    requires numbered { IsNumbered nodes.now }
    requires count { length sets.items ≡ length nodes.now }
    ensures nodes { IfOk result (λ m. (k : _) → is_some (entry_at (key_of k) m) ≡ has_some (key_of k) nodes.now sets.items) }
    ensures annotations { IfOk result (λ m. (answers : BoundTree → List A) → HasEach (IsAnnotationsOf A.eq answers) nodes.now sets.items → IsAnnotated A.eq answers m) }
{
    let mut by_key = HashMap::with_capacity(alloc, nodes.len())?;
    let mut digests = Vec::with_capacity(alloc, nodes.len())?;
    for set in sets {
        let key = next_key(alloc, nodes, &mut digests)?;
        put_some(&mut by_key, key, set)?;
    }
    Ok(by_key)
}

// The set of those annotations.
pub(crate) fn set_of<A: Annotation + Drop>(
    alloc: Global,
    annotations: Vec<A>,
) -> Result<HashSet<A>, AllocError>
    ensures { IfOk result (λ s. (a : A) → contains A.eq s a ≡ list_any (A.eq a) annotations.items) }
{
    let mut set = HashSet::new(alloc);
    for annotation in annotations {
        set.insert(annotation)?;
    }
    Ok(set)
}

// Adds copies of all annotations of the other set.
fn add_all<A: Annotation + Drop>(
    alloc: Global,
    set: &mut HashSet<A>,
    others: &HashSet<A>,
) -> VortexResult<()>
    ensures added { OnOk result ((a : A) → contains A.eq set.new a ≡ (contains A.eq set.old a || contains A.eq others.now a)) }
    ensures refusal { IfErr result (λ y. y ≡ OutOfMemory) }
{
    for annotation in others.iter() {
        set.insert(annotation.copy(alloc)?)?;
    }
    Ok(())
}

// The answers of an annotating closure at the nodes that are reached, by number.
ghost use Rattle.std.specs.Prelude.{◌≡◌, ◌<◌, ◌++◌, ℕ, None, Some, List, Ok, IfErr, IfOk, OnOk, IsTrue, length, get_or, reverse, slice_set};
ghost use Rattle.vx_tree.specs.Trees.{BoundTree};
ghost use Rattle.vx_tree.specs.Views.{bound_of};
ghost use Rattle.vx_rewrite_analysis.specs.Annotations.{answered, AnswersAlike, SameAnnotations};
ghost use Rattle.vx_rewrite_analysis.specs.ByNumber.{HasEach, HasReached, looked_at_next};
ghost use Rattle.vx_rewrite_analysis.specs.Numbers.{node_tree, tree_at, has_node, IsNumbered};
ghost use Rattle.vx_rewrite_analysis.specs.Refusals.{IsRefusalOf, IsFirstRefusal, MeetsNoRefusal};

use crate::Annotation;
use crate::numbers::NumberedNode;
use std::alloc::{AllocError, Global};
use vx_tree::{BoundExpression, VortexResult};

// The answers at the nodes that are reached, by number.
pub(crate) type OwnAnswers<A> = Vec<Option<Vec<A>>>;

// The closure's answers at each node that is reached from the root, which is asked once. What is
// still to be looked at waits in a list, the next number last, so that no level of the tree takes
// stack.
pub(crate) fn own_answers<A: Annotation + Drop, F: Fn(&BoundExpression) -> VortexResult<Vec<A>>>(
    alloc: Global,
    nodes: &[NumberedNode<'_>],
    root: usize,
    annotate: &F,
) -> VortexResult<OwnAnswers<A>>
    requires numbered { IsNumbered nodes.now }
    requires within { root < length nodes.now }
    requires callable { (x : _) → IsTrue (has_node (bound_of x.now) nodes.now) → F.pre annotate.now x }
    ensures count { IfOk result (λ own. length own.items ≡ length nodes.now) }
    ensures answers { IfOk result (λ own. (answers : BoundTree → List A) → AnswersAlike A.eq (F.post annotate.now) answers
        → HasEach (λ b v. SameAnnotations A.eq v.items (answers b)) nodes.now own.items × HasReached (answered answers) (tree_at nodes.now root) nodes.now own.items) }
    ensures refusal { IfErr result (IsRefusalOf (F.post annotate.now) (λ n. IsTrue (has_node n nodes.now))) }
    ensures first { IfErr result (IsFirstRefusal A.eq (F.post annotate.now) (tree_at nodes.now root)) }
    ensures unrefused { OnOk result (MeetsNoRefusal A.eq (F.post annotate.now) (tree_at nodes.now root)) }
{
    let mut own = no_answers(alloc, nodes.len())?;
    let mut waiting = Vec::new(alloc);
    waiting.push(root)?;
    while let Some(number) = waiting.pop() {
        if own[number].is_some() {
            continue;
        }
        let node = &nodes[number];
        let answers = answers_at(node, annotate, &mut waiting)?;
        put_answers(&mut own, number, answers);
    }
    Ok(own)
}

// Places for so many nodes, of which none was reached.
fn no_answers<A: Drop>(alloc: Global, count: usize) -> Result<OwnAnswers<A>, AllocError>
    ensures count { IfOk result (λ own. length own.items ≡ count) }
    ensures none { IfOk result (λ own. (i : ℕ) → get_or own.items i None ≡ None) }
{
    let mut own = Vec::with_capacity(alloc, count)?;
    for _place in 0..count {
        own.push(None)?;
    }
    Ok(own)
}

// Puts the answers at the number.
fn put_answers<A: Drop>(own: &mut OwnAnswers<A>, number: usize, answers: Vec<A>)
    requires { number < length own.old.items }
    ensures { own.new.items ≡ slice_set own.old.items number (Some answers) }
{
    own[number] = Some(answers);
}

// The closure's answers at the node. Where there are none its children are looked at next.
fn answers_at<A: Drop, F: Fn(&BoundExpression) -> VortexResult<Vec<A>>>(
    node: &NumberedNode<'_>,
    annotate: &F,
    waiting: &mut Vec<usize>,
) -> VortexResult<Vec<A>>
    requires { F.pre annotate.now node.now.tree }
    ensures answers { IfOk result (λ v. (x : _) × (bound_of x.now ≡ node_tree node.now) × F.post annotate.now x (Ok v)) }
    ensures waiting { IfOk result (λ v. reverse waiting.new.items ≡ looked_at_next v.items node.now ++ reverse waiting.old.items) }
    ensures refusal { IfErr result (IsRefusalOf (F.post annotate.now) (λ n. n ≡ node_tree node.now)) }
{
    let answers = annotate(node.tree)?;
    if !answers.is_empty() {
        return Ok(answers);
    }
    put_next(waiting, node.children.as_slice())?;
    Ok(answers)
}

// Has the numbers looked at next, from left to right.
fn put_next(waiting: &mut Vec<usize>, numbers: &[usize]) -> Result<(), AllocError>
    ensures { OnOk result (reverse waiting.new.items ≡ numbers.now ++ reverse waiting.old.items) }
{
    for number in numbers.iter().rev() {
        waiting.push(*number)?;
    }
    Ok(())
}

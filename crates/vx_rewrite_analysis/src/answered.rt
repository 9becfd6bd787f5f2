// The answers of an annotating closure, as those who go by the numbers of nodes read them.
ghost use Rattle.std.specs.Prelude.{◌≡◌, ◌<◌, All, None, Some, List, IfErr, IfOk, OnOk, is_some};
ghost use Rattle.std.specs.Option.{option_map};
ghost use Rattle.vx_dtype.specs.declared.error.VortexError.TheVariants.{OutOfMemory};
ghost use Rattle.vx_tree.specs.Nodes.{bound_children_of};
ghost use Rattle.vx_tree.specs.Trees.{BoundTree};
ghost use Rattle.vx_tree.specs.Views.{bound_of};
ghost use Rattle.vx_rewrite_analysis.specs.Annotations.{answered, AnswersAlike, SameAnnotations};
ghost use Rattle.vx_rewrite_analysis.specs.Answered.{count_of, root_of, tree_of, trees_of, given_by, AreAnswered};
ghost use Rattle.vx_rewrite_analysis.specs.Reached.{is_reached, IsNodeOf};
ghost use Rattle.vx_rewrite_analysis.specs.Refusals.{IsRefusalOf, IsFirstRefusal, MeetsNoRefusal};

use crate::Annotation;
use crate::numbers::{NumberedNodes, number_of};
use crate::reached::{OwnAnswers, own_answers};
use indexmap::IndexSet;
use std::alloc::Global;
use vx_tree::{BoundExpression, VortexResult};

/// What an annotating closure answers at the nodes of a tree that are reached, by the numbers of the
/// nodes. Equal nodes have one number, which is above those of their children, and one answer.
#[derive(Drop)]
pub struct AnsweredNodes<'a, A> {
    nodes: NumberedNodes<'a>,
    answers: OwnAnswers<A>,
    root: usize,
}

impl<'a, A: Annotation + Drop> AnsweredNodes<'a, A> {
    /// The closure's answers at each node that is reached: the tree's first one, and the children of
    /// each that has none. The closure is asked once for each number.
    ///
    /// Takes time linear in the nodes, in expectation, beside that of the closure. Refuses with what
    /// the closure refuses, the first that is met, and with `OutOfMemory` (1).
    pub fn new<F: Fn(&BoundExpression) -> VortexResult<Vec<A>>>(
        alloc: Global,
        e: &'a BoundExpression,
        annotate: &F,
    ) -> VortexResult<AnsweredNodes<'a, A>>
        requires { (x : _) → IsNodeOf (bound_of x.now) (bound_of e.now) → F.pre annotate.now x }
        ensures numbered { IfOk result AreAnswered }
        ensures root { IfOk result (λ a. tree_of a (root_of a) ≡ bound_of e.now) }
        ensures nodes { IfOk result (λ a. (answers : BoundTree → List A) → AnswersAlike A.eq (F.post annotate.now) answers
            → (b : BoundTree) → is_some (given_by a b) ≡ is_reached (answered answers) b (bound_of e.now)) }
        ensures answers { IfOk result (λ a. (answers : BoundTree → List A) → AnswersAlike A.eq (F.post annotate.now) answers
            → (b : BoundTree) (own : List A) → given_by a b ≡ Some own → SameAnnotations A.eq own (answers b)) }
        ensures refusal { IfErr result (IsRefusalOf (F.post annotate.now) (λ n. IsNodeOf n (bound_of e.now))) }
        ensures first { IfErr result (IsFirstRefusal A.eq (F.post annotate.now) (bound_of e.now)) }
        ensures unrefused { OnOk result (MeetsNoRefusal A.eq (F.post annotate.now) (bound_of e.now)) }
    {
        let mut nodes = IndexSet::new(alloc);
        let root = number_of(alloc, e, &mut nodes)?;
        let answers = own_answers(alloc, nodes.as_slice(), root, annotate)?;
        Ok(AnsweredNodes {
            nodes,
            answers,
            root,
        })
    }

    /// How many numbers there are.
    pub fn count(&self) -> usize
        ensures { result ≡ count_of self.now }
    {
        self.nodes.len()
    }

    /// The number of the tree.
    pub fn root(&self) -> usize
        requires { AreAnswered self.now }
        ensures number { result ≡ root_of self.now }
        ensures within { result < count_of self.now }
    {
        self.root
    }

    /// The numbers of the node's children.
    pub fn children(&self, number: usize) -> &[usize]
        requires numbered { AreAnswered self.now }
        requires within { number < count_of self.now }
        ensures trees { trees_of self.now result.now ≡ bound_children_of (tree_of self.now number) }
        ensures below { All (λ k. k < number) result.now }
    {
        self.nodes.as_slice()[number].children.as_slice()
    }

    /// The closure's answers at the node, if it is reached.
    pub fn answers(&self, number: usize) -> Option<&[A]>
        requires numbered { AreAnswered self.now }
        requires within { number < count_of self.now }
        ensures { option_map (λ own. own.now) result ≡ given_by self.now (tree_of self.now number) }
    {
        match &self.answers[number] {
            Some(own) => Some(own.as_slice()),
            None => None,
        }
    }
}

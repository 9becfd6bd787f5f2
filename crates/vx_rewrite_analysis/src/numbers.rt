// Numbers of the nodes of a bound tree: equal nodes have one.
ghost use Rattle.std.specs.Prelude.{◌≡◌, ◌<◌, ◌||◌, All, IfOk, OnOk, length};
ghost use Rattle.std.specs.Cmp.{partial_equiv_from_equiv};
ghost use Rattle.vx_tree.specs.Equality.{equal_bound};
ghost use Rattle.vx_tree.specs.Nodes.{bound_children_of};
ghost use Rattle.vx_tree.specs.Views.{bound_of};
ghost use Rattle.vx_rewrite_analysis.specs.Numbers.{head_of, equal_numbered, equal_numbered_equiv, numbered_fed, numbered_alike, trees_at, has_node, IsNumberOf, IsNumbered, KeepsNumbers};
ghost use Rattle.vx_rewrite_analysis.specs.Reached.{occurs};

use indexmap::IndexSet;
use smallvec::SmallVec;
use std::alloc::{AllocError, Global};
use std::hash::{Hash, Hasher};
use vx_tree::BoundExpression;

// The nodes of a tree by their numbers, each behind those below it.
pub(crate) type NumberedNodes<'a> = IndexSet<NumberedNode<'a>>;

// The numbers of a node's children: most nodes have two at most, which take no block of their own.
pub(crate) type ChildNumbers = SmallVec<usize, 2>;

// A node, and the numbers of its children. Two are equal by what is at the nodes and by their
// children's numbers, so that no tree is compared, and they are hashed by the same.
#[derive(Drop)]
pub(crate) struct NumberedNode<'a> {
    pub(crate) tree: &'a BoundExpression,
    pub(crate) children: ChildNumbers,
}

impl<'a> PartialEq for NumberedNode<'a> {
    ghost eq = { equal_numbered };

    ghost laws = { partial_equiv_from_equiv equal_numbered_equiv };

    fn eq(&self, other: &NumberedNode<'a>) -> bool {
        self.children == other.children && is_like(self.tree, other.tree)
    }
}

impl<'a> Eq for NumberedNode<'a> {
    ghost laws = { equal_numbered_equiv };
}

impl<'a> Hash for NumberedNode<'a> {
    ghost hash_input = { numbered_fed };

    ghost respects_eq = { numbered_alike };

    fn hash<H: Hasher>(&self, state: &mut H) {
        self.children.hash(state);
        match self.tree {
            BoundExpression::Root { .. } => {}
            BoundExpression::Scalar { scalar_fn, .. } => scalar_fn.hash(state),
        }
    }
}

// Whether the nodes are equal but for their children.
fn is_like(b: &BoundExpression, c: &BoundExpression) -> bool
    ensures { result ≡ equal_bound (head_of (bound_of b.now)) (head_of (bound_of c.now)) }
{
    match (b, c) {
        (BoundExpression::Root { dtype: t }, BoundExpression::Root { dtype: u }) => t == u,
        (
            BoundExpression::Scalar {
                dtype: t,
                scalar_fn: f,
                ..
            },
            BoundExpression::Scalar {
                dtype: u,
                scalar_fn: g,
                ..
            },
        ) => t == u && f == g,
        _ => false,
    }
}

// The number of the tree, after those below it have theirs. Each node is visited once, and but for
// its children's numbers its function and its type alone are read. It calls itself at each level,
// so what puts a node among the others stands in a function that isn't inlined.
pub(crate) fn number_of<'a>(
    alloc: Global,
    e: &'a BoundExpression,
    nodes: &mut NumberedNodes<'a>,
) -> Result<usize, AllocError>
    requires numbered { IsNumbered nodes.old.keys }
    ensures number { IfOk result (λ i. IsNumberOf nodes.new.keys i (bound_of e.now)) }
    ensures numbered { OnOk result (IsNumbered nodes.new.keys) }
    ensures kept { OnOk result (KeepsNumbers nodes.old.keys nodes.new.keys) }
    ensures nodes { OnOk result ((n : _) → has_node n nodes.new.keys ≡ (occurs n (bound_of e.now) || has_node n nodes.old.keys)) }
{
    let mut children = SmallVec::new(alloc);
    for child in e.children() {
        let number = number_of(alloc, child, nodes)?;
        children.push(number)?;
    }
    number_over(e, children, nodes)
}

// The number of the tree, whose children have those numbers.
#[inline(never)]
fn number_over<'a>(
    e: &'a BoundExpression,
    children: ChildNumbers,
    nodes: &mut NumberedNodes<'a>,
) -> Result<usize, AllocError>
    requires numbered { IsNumbered nodes.old.keys }
    requires within { All (λ k. k < length nodes.old.keys) children.items }
    requires children { trees_at nodes.old.keys children.items ≡ bound_children_of (bound_of e.now) }
    ensures number { IfOk result (λ i. IsNumberOf nodes.new.keys i (bound_of e.now)) }
    ensures numbered { OnOk result (IsNumbered nodes.new.keys) }
    ensures kept { OnOk result (KeepsNumbers nodes.old.keys nodes.new.keys) }
    ensures nodes { OnOk result ((n : _) → has_node n nodes.new.keys ≡ (equal_bound n (bound_of e.now) || has_node n nodes.old.keys)) }
{
    let (number, _) = nodes.insert_full(NumberedNode { tree: e, children })?;
    Ok(number)
}

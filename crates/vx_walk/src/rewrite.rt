// Rewriters, and the rewrite of a tree.
ghost use Rattle.std.specs.Prelude.{◌≡◌, ◌+◌, ◌<◌, ◌≤◌, Ok, OnOk, vec_len, vec_capacity};
ghost use Rattle.vx_walk.specs.Begun.{Begins, BeginsAt, Finishes, FinishesAt};
ghost use Rattle.vx_walk.specs.Handed.{Back, seen};
ghost use Rattle.vx_walk.specs.Mapping.{AtOwned, MappedAll};
ghost use Rattle.vx_walk.specs.Rewrites.{RewritesTo, Rewritten};
ghost use Rattle.vx_walk.specs.Siblings.{row_seen, seen_siblings};
ghost use Rattle.vx_walk.specs.declared.order.TraversalOrder.TheVariants.{Continue};
ghost use Rattle.vx_walk.specs.declared.transformed.Transformed.{Transformed};

use crate::siblings::{Siblings, rebuild};
use crate::{Node, Transformed, TraversalOrder};
use std::alloc::Global;
use vx_tree::VortexResult;

/// What is handed the nodes of a tree, on the way down and on the way up, and hands nodes back. Both
/// calls say where the rewrite goes on, and whether the node was changed.
pub trait NodeRewriter: Sized {
    type NodeTy: Node;

    /// Where it may be called.
    ghost ready: { Self → Type 0 } = { λ _. Unit {0} };

    /// Its step on the way down: for a node it may give this answer, and becomes that.
    ghost down_gives: { Self → Self.NodeTy → Back Self.NodeTy → Self → Type 0 };

    /// Its step on the way up.
    ghost up_gives: { Self → Self.NodeTy → Back Self.NodeTy → Self → Type 0 };

    /// Called with a node before its children, which are those of the node handed back. Skip leaves
    /// them as they are, and Stop ends the rewrite.
    fn visit_down(&mut self, node: Self::NodeTy) -> VortexResult<Transformed<Self::NodeTy>>
        requires { ready self.old }
        ensures gives { down_gives self.old node result self.new }
        ensures ready { ready self.new };

    /// Called with a node after its children. Skip of a last child leaves out the way up of the node
    /// above it, and Stop ends the rewrite.
    fn visit_up(&mut self, node: Self::NodeTy) -> VortexResult<Transformed<Self::NodeTy>>
        requires { ready self.old }
        ensures gives { up_gives self.old node result self.new }
        ensures ready { ready self.new };

    /// Where `visit_down` answers Continue, the node that it hands back is no higher than the one it
    /// was handed: a rewrite ends.
    ghost no_higher: { (v w : Self) (n : Self.NodeTy) (t : Transformed Self.NodeTy) → ready v → down_gives v n (Ok t) w → t.order ≡ Continue → Self.NodeTy.height (Self.NodeTy.mirror t.value) ≤ Self.NodeTy.height (Self.NodeTy.mirror n) };
}

// The rewrite of a tree.
pub(crate) fn rewrite_node<N: Node, R: NodeRewriter<NodeTy = N>>(
    alloc: Global,
    node: N,
    rewriter: &mut R,
) -> VortexResult<Transformed<N>>
    requires { R.ready rewriter.old }
    ensures rewritten { Rewritten N.kids N.rebuild_gives (AtOwned N.mirror R.down_gives) (AtOwned N.mirror R.up_gives) (N.mirror node) rewriter.old rewriter.new (seen N.mirror result) }
    ensures ready { R.ready rewriter.new }
{
    match begin(node, rewriter)? {
        Begun::Whole(handed) => Ok(handed),
        Begun::Open(down) => {
            let below = rewrite_children(alloc, &down.value, rewriter)?;
            let up = finish(alloc, down.value, below, rewriter)?;
            Ok(up.marked(down.changed))
        }
    }
}

// The rewrites of the children, from left to right, until one answers Stop; later ones stay.
//
// The recursion handles no node: its frame has a place for each that a function handles. So a child
// waits as the last of its siblings while its own children are rewritten, and what hands nodes out,
// takes or makes them stands in functions that aren't inlined.
fn rewrite_children<N: Node, R: NodeRewriter<NodeTy = N>>(
    alloc: Global,
    parent: &N,
    rewriter: &mut R,
) -> VortexResult<Siblings<N>>
    requires { R.ready rewriter.old }
    ensures rewritten { MappedAll (RewritesTo N.kids N.rebuild_gives (AtOwned N.mirror R.down_gives) (AtOwned N.mirror R.up_gives)) Continue rewriter.old (N.kids (N.mirror parent.now)) (seen_siblings N.mirror result) rewriter.new }
    ensures ready { R.ready rewriter.new }
{
    let mut siblings = Siblings::with_capacity(alloc, parent.children_count())?;
    for child in parent.children_slice() {
        let is_open = begin_child(child, &mut siblings, rewriter)?;
        if !is_open {
            continue;
        }
        let below = rewrite_children(alloc, siblings.last(), rewriter)?;
        finish_child(alloc, below, &mut siblings, rewriter)?;
    }
    Ok(siblings)
}

// Puts a clone of the child behind its siblings, after its way down, and says whether its children
// come next. After Stop it stays.
#[inline(never)]
fn begin_child<N: Node, R: NodeRewriter<NodeTy = N>>(
    child: &N,
    siblings: &mut Siblings<N>,
    rewriter: &mut R,
) -> VortexResult<bool>
    requires ready { R.ready rewriter.old }
    requires room { vec_len siblings.old.handed_back < vec_capacity siblings.old.handed_back }
    ensures begun { BeginsAt N.mirror (RewritesTo N.kids N.rebuild_gives (AtOwned N.mirror R.down_gives) (AtOwned N.mirror R.up_gives)) (AtOwned N.mirror R.down_gives) siblings.old rewriter.old (N.mirror child.now) result siblings.new rewriter.new }
    ensures len { OnOk result (vec_len siblings.new.handed_back ≡ vec_len siblings.old.handed_back + 1) }
    ensures capacity { OnOk result (vec_capacity siblings.new.handed_back ≡ vec_capacity siblings.old.handed_back) }
    ensures ready { R.ready rewriter.new }
{
    let value = child.clone()?;
    if let TraversalOrder::Stop = siblings.order {
        siblings.push(Transformed {
            value,
            order: TraversalOrder::Stop,
            changed: false,
        });
        return Ok(false);
    }
    match begin(value, rewriter)? {
        Begun::Whole(handed) => {
            siblings.push(handed);
            Ok(false)
        }
        Begun::Open(down) => {
            siblings.push(down);
            Ok(true)
        }
    }
}

// Finishes the last of the siblings, over its children that were handed back.
#[inline(never)]
fn finish_child<N: Node, R: NodeRewriter<NodeTy = N>>(
    alloc: Global,
    below: Siblings<N>,
    siblings: &mut Siblings<N>,
    rewriter: &mut R,
) -> VortexResult<()>
    requires ready { R.ready rewriter.old }
    requires waits { 0 < vec_len siblings.old.handed_back }
    requires room { vec_len siblings.old.handed_back ≤ vec_capacity siblings.old.handed_back }
    ensures finished { FinishesAt N.mirror N.rebuild_gives (AtOwned N.mirror R.up_gives) below siblings.old rewriter.old result siblings.new rewriter.new }
    ensures len { OnOk result (vec_len siblings.new.handed_back ≡ vec_len siblings.old.handed_back) }
    ensures capacity { OnOk result (vec_capacity siblings.new.handed_back ≡ vec_capacity siblings.old.handed_back) }
    ensures ready { R.ready rewriter.new }
{
    let node = siblings.handed_back.take_last();
    let up = finish(alloc, node, below, rewriter)?;
    siblings.push(up);
    Ok(())
}

// A node after its way down.
#[derive(Drop)]
enum Begun<N> {
    // Its rewrite is over: the way down answered Stop, or Skip, and its way up followed.
    Whole(Transformed<N>),
    // Its children come next.
    Open(Transformed<N>),
}

// The rewrite of a node as far as its way down.
fn begin<N: Node, R: NodeRewriter<NodeTy = N>>(node: N, rewriter: &mut R) -> VortexResult<Begun<N>>
    requires { R.ready rewriter.old }
    ensures begun { Begins N.mirror (RewritesTo N.kids N.rebuild_gives (AtOwned N.mirror R.down_gives) (AtOwned N.mirror R.up_gives)) (AtOwned N.mirror R.down_gives) rewriter.old (N.mirror node) result rewriter.new }
    ensures ready { R.ready rewriter.new }
{
    let down = rewriter.visit_down(node)?;
    match down.order {
        TraversalOrder::Stop => Ok(Begun::Whole(down)),
        TraversalOrder::Skip => {
            let up = rewriter.visit_up(down.value)?;
            Ok(Begun::Whole(up.marked(down.changed)))
        }
        TraversalOrder::Continue => Ok(Begun::Open(down)),
    }
}

// The node over its children that were handed back, and after its way up if they answered Continue.
fn finish<N: Node, R: NodeRewriter<NodeTy = N>>(
    alloc: Global,
    node: N,
    below: Siblings<N>,
    rewriter: &mut R,
) -> VortexResult<Transformed<N>>
    requires { R.ready rewriter.old }
    ensures finished { Finishes N.rebuild_gives (AtOwned N.mirror R.up_gives) (N.mirror node) (row_seen N.mirror below) rewriter.old (seen N.mirror result) rewriter.new }
    ensures ready { R.ready rewriter.new }
{
    let handed = rebuild(alloc, node, below)?;
    match handed.order {
        TraversalOrder::Continue => {
            let up = rewriter.visit_up(handed.value)?;
            Ok(up.marked(handed.changed))
        }
        TraversalOrder::Skip | TraversalOrder::Stop => Ok(handed),
    }
}

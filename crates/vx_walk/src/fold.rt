// Folders, and the fold of a tree.
ghost use Rattle.std.specs.Prelude.{◌≡◌, List, Result};
ghost use Rattle.vx_dtype.specs.declared.error.VortexError.{VortexError};
ghost use Rattle.vx_walk.specs.Folds.{Folded, HandedUp};
ghost use Rattle.vx_walk.specs.declared.fold.FoldDownContext.{FoldDownContext};
ghost use Rattle.vx_walk.specs.declared.fold.FoldUp.{FoldUp};

use crate::Node;
use std::alloc::Global;
use vx_tree::VortexResult;

/// What a folder answers on the way down.
#[derive(Debug, Drop)]
pub enum FoldDownContext<C, R> {
    /// The children are folded with that context.
    Continue(C),
    /// That is the node's result; its children and its way up are left out.
    Skip(R),
    /// That is the result of the whole fold.
    Stop(R),
}

/// What a folder answers on the way up.
#[derive(Debug, Drop)]
pub enum FoldUp<R> {
    /// That is the node's result.
    Continue(R),
    /// That is the result of the whole fold.
    Stop(R),
}

/// What is called at the nodes of a tree: on the way down with a context, and on the way up with
/// the results of the children.
pub trait NodeFolderContext {
    type NodeTy: Node;

    type Result: Drop;

    type Context: Drop;

    /// Where it may be called.
    ghost ready: { Self → Type 0 } = { λ _. Unit {0} };

    /// Its step on the way down: with a context and at a node it may give this answer, and becomes
    /// that.
    ghost down_gives: { Self → Self.Context → Self.NodeTy → Result (FoldDownContext Self.Context Self.Result) VortexError → Self → Type 0 };

    /// Its step on the way up.
    ghost up_gives: { Self → Self.NodeTy → Self.Context → List Self.Result → Result (FoldUp Self.Result) VortexError → Self → Type 0 };

    /// Called at a node before its children, with the context of the node above.
    fn visit_down(
        &mut self,
        context: &Self::Context,
        node: &Self::NodeTy,
    ) -> VortexResult<FoldDownContext<Self::Context, Self::Result>>
        requires { ready self.old }
        ensures gives { down_gives self.old context.now node.now result self.new }
        ensures ready { ready self.new };

    /// Called at a node after its children, with the context that they had and their results in
    /// order.
    fn visit_up(
        &mut self,
        node: Self::NodeTy,
        context: &Self::Context,
        children: Vec<Self::Result>,
    ) -> VortexResult<FoldUp<Self::Result>>
        requires { ready self.old }
        ensures gives { up_gives self.old node context.now children.items result self.new }
        ensures ready { ready self.new };
}

// The fold of a tree. The folder is called by functions of their own, so that what it does takes no
// stack at each level, and nodes are lent on the way down: none stands in a frame.
pub(crate) fn fold<N: Node, F: NodeFolderContext<NodeTy = N>>(
    alloc: Global,
    node: &N,
    context: &F::Context,
    folder: &mut F,
) -> VortexResult<FoldUp<F::Result>>
    requires { F.ready folder.old }
    ensures folded { Folded N.mirror N.kids F.down_gives F.up_gives context.now (N.mirror node.now) folder.old folder.new result }
    ensures ready { F.ready folder.new }
{
    let below = match visit_down(node, context, folder)? {
        FoldDownContext::Continue(below) => below,
        FoldDownContext::Skip(r) => return Ok(FoldUp::Continue(r)),
        FoldDownContext::Stop(r) => return Ok(FoldUp::Stop(r)),
    };
    let mut results = Vec::with_capacity(alloc, node.children_count())?;
    for child in node.children_slice() {
        match fold(alloc, child, &below, folder)? {
            FoldUp::Continue(r) => results.push(r)?,
            FoldUp::Stop(r) => return Ok(FoldUp::Stop(r)),
        }
    }
    visit_up(node, &below, results, folder)
}

#[inline(never)]
fn visit_down<N: Node, F: NodeFolderContext<NodeTy = N>>(
    node: &N,
    context: &F::Context,
    folder: &mut F,
) -> VortexResult<FoldDownContext<F::Context, F::Result>>
    requires { F.ready folder.old }
    ensures gives { F.down_gives folder.old context.now node.now result folder.new }
    ensures ready { F.ready folder.new }
{
    folder.visit_down(context, node)
}

// The way up of a clone of the node.
#[inline(never)]
fn visit_up<N: Node, F: NodeFolderContext<NodeTy = N>>(
    node: &N,
    context: &F::Context,
    children: Vec<F::Result>,
    folder: &mut F,
) -> VortexResult<FoldUp<F::Result>>
    requires { F.ready folder.old }
    ensures handed { HandedUp N.mirror F.up_gives (N.mirror node.now) context.now children.items folder.old result folder.new }
    ensures ready { F.ready folder.new }
{
    folder.visit_up(node.clone()?, context, children)
}

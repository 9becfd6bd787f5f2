// Walks, rewrites and folds as calls of a node.
ghost use Rattle.std.specs.Prelude.{◌≡◌, ◌≤◌, Ok};
ghost use Rattle.vx_value.specs.Returns.{ReturnsOrOom};
ghost use Rattle.vx_walk.specs.Folds.{Folded};
ghost use Rattle.vx_walk.specs.Handed.{unchanged, looking, seen};
ghost use Rattle.vx_walk.specs.Mapping.{AtOwned};
ghost use Rattle.vx_walk.specs.Rewrites.{HandsBack, Rewritten, TransformedDown};
ghost use Rattle.vx_walk.specs.Walks.{At, Walked};
ghost use Rattle.vx_walk.specs.declared.order.TraversalOrder.TheVariants.{Continue};

use crate::closures::FnRewriter;
use crate::fold::fold;
use crate::rewrite::rewrite_node;
use crate::visit::walk;
use crate::{
    FoldUp, Node, NodeFolderContext, NodeRewriter, NodeVisitor, Transformed, TraversalOrder,
};
use std::alloc::Global;
use std::marker::PhantomData;
use vx_tree::VortexResult;

/// Walks, rewrites and folds, of every node.
pub trait NodeExt: Node {
    /// Walks the tree with the visitor.
    ///
    /// First `visit_down` is called. Stop ends the walk with Stop. After Skip the children are left
    /// out, and the node's own `visit_up` is called. After Continue the children are walked from left
    /// to right, until one answers Stop; the answer of the last one walked is theirs, Continue where
    /// there is none. Where it is Continue `visit_up` is called, and its answer is the node's; Skip
    /// and Stop are handed on. So a Skip of a child that isn't the last has no effect.
    ///
    /// Takes no memory. A refusal of the visitor ends the walk and is the answer, and there is no
    /// other; the visitor then is where its own steps left it.
    final fn accept<V: NodeVisitor<NodeTy = Self>>(
        &self,
        visitor: &mut V,
    ) -> VortexResult<TraversalOrder>
        requires { V.ready visitor.old }
        ensures walked { Walked Self.kids (At Self.mirror V.down_gives) (At Self.mirror V.up_gives) (Self.mirror self.now) visitor.old visitor.new result }
        ensures ready { V.ready visitor.new }
    {
        walk(self, visitor)
    }

    /// Rewrites the tree by the rewriter.
    ///
    /// First `visit_down` is handed the node and hands one back. Stop returns it. After Skip its
    /// children stay, and `visit_up` is handed it. After Continue its children are rewritten from left
    /// to right; after a Stop the later ones stay, and the last order answered is theirs. Where one
    /// says that it was changed the node is rebuilt by `with_children` from those handed back, and
    /// else it stays. With Continue it is handed to `visit_up`, and with Skip and Stop it is handed
    /// on. What was changed once stays changed.
    ///
    /// A rewriter that hands every node back equal, unchanged, with Continue gives an equal tree,
    /// unchanged.
    ///
    /// Refuses as the rewriter and `with_children` do, which ends the rewrite, and with `OutOfMemory`
    /// (1). The rewriter then is where its own steps left it. Memory is taken for clones of the nodes
    /// that are handed out, as far as a clone takes some, for a list of the children that are handed
    /// back, and for nodes that are rebuilt.
    final fn rewrite<R: NodeRewriter<NodeTy = Self>>(
        self,
        alloc: Global,
        rewriter: &mut R,
    ) -> VortexResult<Transformed<Self>>
        requires { R.ready rewriter.old }
        ensures rewritten { Rewritten Self.kids Self.rebuild_gives (AtOwned Self.mirror R.down_gives) (AtOwned Self.mirror R.up_gives) (Self.mirror self) rewriter.old rewriter.new (seen Self.mirror result) }
        ensures unchanged { HandsBack Self.mirror R.down_gives → HandsBack Self.mirror R.up_gives → ReturnsOrOom (looking Self.mirror) result (Ok (unchanged (Self.mirror self))) }
        ensures ready { R.ready rewriter.new }
    {
        rewrite_node(alloc, self, rewriter)
    }

    /// Rewrites the tree as [`NodeExt::rewrite`] does, by a rewriter whose `visit_down` is `f` and
    /// whose `visit_up` hands each node back as it is. Where `f` answers Continue it has to hand back
    /// a node that is no higher than the one it was handed.
    final fn transform_down<F: FnMut(Self) -> VortexResult<Transformed<Self>>>(
        self,
        alloc: Global,
        f: F,
    ) -> VortexResult<Transformed<Self>>
        requires callable { F.IsAlwaysCallable f }
        requires no_higher { (g h : F) (n : Self) (t : _) → F.step g n (Ok t) h → t.order ≡ Continue → Self.height (Self.mirror t.value) ≤ Self.height (Self.mirror n) }
        ensures transformed { TransformedDown Self.kids Self.rebuild_gives (AtOwned Self.mirror F.step) (Self.mirror self) f (seen Self.mirror result) }
        ensures unchanged { HandsBack Self.mirror F.step → ReturnsOrOom (looking Self.mirror) result (Ok (unchanged (Self.mirror self))) }
    {
        let mut rewriter = FnRewriter { f, of: PhantomData };
        rewrite_node(alloc, self, &mut rewriter)
    }

    /// Folds the tree by the folder, from the context on.
    ///
    /// First `visit_down` is called with the context and the node. Skip gives the node's result, and
    /// Stop that of the whole fold, both without `visit_up`. After Continue the children are folded
    /// from left to right with the context that it carries; the first Stop is the answer, and else
    /// `visit_up` gets the node, that context and the results in order.
    ///
    /// Refuses as the folder does, which ends the fold, and with `OutOfMemory` (1). The folder then is
    /// where its own steps left it.
    final fn fold_context<F: NodeFolderContext<NodeTy = Self>>(
        self,
        alloc: Global,
        context: &F::Context,
        folder: &mut F,
    ) -> VortexResult<FoldUp<F::Result>>
        requires { F.ready folder.old }
        ensures folded { Folded Self.mirror Self.kids F.down_gives F.up_gives context.now (Self.mirror self) folder.old folder.new result }
        ensures ready { F.ready folder.new }
    {
        fold(alloc, &self, context, folder)
    }
}

impl<N: Node> NodeExt for N {}

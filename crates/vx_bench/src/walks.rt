// Walks, rewrites and folds that go to every node.
ghost use Rattle.std.specs.Prelude.{◌≤◌, IfOk};
ghost use Rattle.vx_walk.specs.Heights.{height_of};
ghost use Rattle.vx_tree.specs.Views.{tree_of};

use std::alloc::Global;
use vx_dtype::VortexResult;
use vx_tree::Expression;
use vx_walk::{
    FoldDownContext, FoldUp, NodeExt, NodeFolderContext, Transformed, TraversalOrder,
    pre_order_visit_down,
};

/// A walk that goes to every node.
pub fn walk(tree: &Expression) -> VortexResult<TraversalOrder> {
    pre_order_visit_down(tree, |_node: &Expression| Ok(TraversalOrder::Continue))
}

/// A rewrite that says that each scope root was changed, so that each node above one is made anew.
pub fn rewrite(alloc: Global, tree: &Expression) -> VortexResult<Transformed<Expression>> {
    tree.clone()?.transform_down(
        alloc,
        |node: Expression| -> VortexResult<Transformed<Expression>>
            ensures { IfOk result (λ t. height_of (tree_of t.value) ≤ height_of (tree_of node)) }
        {
            let changed = node.is_root();
            Ok(Transformed {
                value: node,
                order: TraversalOrder::Continue,
                changed,
            })
        },
    )
}

/// Counts the nodes by a fold.
#[derive(Debug, Drop)]
struct Nodes;

impl NodeFolderContext for Nodes {
    type NodeTy = Expression;

    type Context = ();

    type Result = u64;

    ghost down_gives = { λ v x n a w. Unit {0} };

    ghost up_gives = { λ v n x rs a w. Unit {0} };

    fn visit_down(
        &mut self,
        _above: &(),
        _node: &Expression,
    ) -> VortexResult<FoldDownContext<(), u64>> {
        Ok(FoldDownContext::Continue(()))
    }

    fn visit_up(
        &mut self,
        _node: Expression,
        _above: &(),
        below: Vec<u64>,
    ) -> VortexResult<FoldUp<u64>>
        ensures gives { Unit {0} }
        ensures ready { Unit {0} }
    {
        let mut nodes = 1u64;
        for count in below.as_slice() {
            nodes = nodes.saturating_add(*count);
        }
        Ok(FoldUp::Continue(nodes))
    }
}

/// A fold that goes to every node.
pub fn fold(alloc: Global, tree: &Expression) -> VortexResult<FoldUp<u64>> {
    tree.clone()?.fold_context(alloc, &(), &mut Nodes)
}

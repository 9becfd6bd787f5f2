// Both trees of expressions as nodes.
ghost use Rattle.std.specs.Prelude.{◌≡◌, map};
ghost use Rattle.vx_tree.specs.Trees.{Tree, BoundTree};
ghost use Rattle.vx_tree.specs.Views.{tree_of, bound_of};
ghost use Rattle.vx_walk.specs.Handed.{seen_node};
ghost use Rattle.vx_walk.specs.Heights.{kids_of, height_of, kids_are_lower_of_tree, RebuildsTree, rebuilt_over_of_tree, bound_kids_of, bound_height_of, kids_are_lower_of_bound, RebuildsBound, rebuilt_over_of_bound};

use crate::Node;
use std::alloc::Global;
use vx_tree::{BoundExpression, Expression, VortexResult};

impl Node for Expression {
    ghost Mirror = { Tree };

    ghost mirror = { tree_of };

    ghost kids = { kids_of };

    ghost height = { height_of };

    ghost rebuild_gives = { RebuildsTree };

    ghost kids_are_lower = { kids_are_lower_of_tree };

    ghost rebuilt_over = { rebuilt_over_of_tree };

    ghost clones_are_equal = { λ n m h. h };

    fn children_slice(&self) -> &[Expression] {
        self.children()
    }

    fn with_children(self, alloc: Global, children: Vec<Expression>) -> VortexResult<Expression>
        ensures { RebuildsTree (tree_of self) (map tree_of children.items) (seen_node tree_of result) }
    {
        Expression::with_children(self, alloc, children)
    }
}

impl Node for BoundExpression {
    ghost Mirror = { BoundTree };

    ghost mirror = { bound_of };

    ghost kids = { bound_kids_of };

    ghost height = { bound_height_of };

    ghost rebuild_gives = { RebuildsBound };

    ghost kids_are_lower = { kids_are_lower_of_bound };

    ghost rebuilt_over = { rebuilt_over_of_bound };

    ghost clones_are_equal = { λ n m h. h };

    fn children_slice(&self) -> &[BoundExpression] {
        self.children()
    }

    fn with_children(
        self,
        alloc: Global,
        children: Vec<BoundExpression>,
    ) -> VortexResult<BoundExpression>
        ensures { RebuildsBound (bound_of self) (map bound_of children.items) (seen_node bound_of result) }
    {
        BoundExpression::with_children(self, alloc, children)
    }
}

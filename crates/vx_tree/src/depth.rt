// How deep trees are. The nodes are visited level by level, over lists on the heap, so that the
// stack doesn't grow with the tree.
ghost use Rattle.std.specs.Prelude.{◌≡◌, ◌+◌, IfOk, Ok};
ghost use Rattle.vx_value.specs.Returns.{ReturnsOrOom};
ghost use Rattle.vx_tree.specs.Depths.{depth_of};
ghost use Rattle.vx_tree.specs.Levels.{greatest, lent_depth, lent_depth_below};
ghost use Rattle.vx_tree.specs.Trees.{unbound};
ghost use Rattle.vx_tree.specs.Views.{tree_of, bound_of};

use crate::{BoundExpression, Expression, TreeNode};
use std::alloc::{AllocError, Global};
use vx_dtype::VortexResult;

impl Expression {
    /// How many nodes the longest way from the first node down has, 1 where that has no children.
    ///
    /// Unlike the other walks it takes no stack for each level, so a caller may first refuse what is
    /// deeper than wanted. Takes time linear in the nodes, and memory for the widest levels. Refuses
    /// with `OutOfMemory` (1) alone.
    pub fn depth(&self, alloc: Global) -> VortexResult<usize>
        ensures { ReturnsOrOom (λ depth. depth) result (Ok (depth_of (tree_of self.now))) }
    {
        levels(alloc, self)
    }
}

impl BoundExpression {
    /// How many nodes the longest way from the first node down has, 1 where that has no children.
    ///
    /// Unlike the other walks it takes no stack for each level, so a caller may first refuse what is
    /// deeper than wanted. Takes time linear in the nodes, and memory for the widest levels. Refuses
    /// with `OutOfMemory` (1) alone.
    pub fn depth(&self, alloc: Global) -> VortexResult<usize>
        ensures { ReturnsOrOom (λ depth. depth) result (Ok (depth_of (unbound (bound_of self.now)))) }
    {
        levels(alloc, self)
    }
}

// How many levels the tree has.
fn levels<T: TreeNode>(alloc: Global, node: &T) -> VortexResult<usize>
    ensures { ReturnsOrOom (λ levels. levels) result (Ok (depth_of (T.tree node.now))) }
{
    let mut depth = 0;
    let mut level = Vec::new(alloc);
    level.push(node)?;
    while !level.is_empty() {
        depth = one_more(depth)?;
        level = level_below(alloc, level.as_slice())?;
    }
    Ok(depth)
}

// One more; no tree in memory has as many levels as would be refused.
fn one_more(depth: usize) -> Result<usize, AllocError>
    ensures { IfOk result (λ more. more ≡ depth + 1) }
{
    match depth.checked_add(1) {
        Some(more) => Ok(more),
        None => Err(AllocError),
    }
}

// The children of the nodes.
fn level_below<'a, T: TreeNode>(alloc: Global, level: &[&'a T]) -> Result<Vec<&'a T>, AllocError>
    ensures { IfOk result (λ below. greatest (lent_depth T.tree) below.items ≡ greatest (lent_depth_below T.tree) level.now) }
{
    let mut below = Vec::new(alloc);
    for i in 0..level.len() {
        for child in level[i].node_children() {
            below.push(child)?;
        }
    }
    Ok(below)
}

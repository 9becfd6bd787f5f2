// Trees put together anew.
use super::constructors::{Constructors, node};
use std::alloc::Global;
use vx_tree::{Expression, VortexError, VortexResult};

/// The source's tree, each node by its constructor, its children before it.
pub fn built_by<C: Constructors>(
    alloc: Global,
    by: &C,
    source: &Expression,
) -> VortexResult<C::Tree> {
    let mut trees = Vec::new(alloc);
    for node in nodes_of(alloc, source)?.iter().rev() {
        push_node(alloc, by, &mut trees, node)?;
    }
    trees.pop().ok_or(VortexError::LengthMismatch)
}

// The nodes of the tree, each before its children, of which the last one comes first.
fn nodes_of(alloc: Global, source: &Expression) -> VortexResult<Vec<&Expression>> {
    let mut nodes = Vec::new(alloc);
    let mut waiting = Vec::new(alloc);
    waiting.push(source)?;
    for _ in 0..usize::MAX {
        let Some(node) = waiting.pop() else {
            break;
        };
        nodes.push(node)?;
        for child in node.children().iter() {
            waiting.push(child)?;
        }
    }
    Ok(nodes)
}

// Puts the node over its children, which are the last trees.
fn push_node<C: Constructors>(
    alloc: Global,
    by: &C,
    trees: &mut Vec<C::Tree>,
    source: &Expression,
) -> VortexResult<()> {
    let tree = match source {
        Expression::Root => by.root()?,
        Expression::Scalar {
            scalar_fn,
            children,
        } => node(alloc, by, scalar_fn, taken(trees, children.len())?)?,
    };
    Ok(trees.push(tree)?)
}

// The last trees, so many of them.
fn taken<T>(trees: &mut Vec<T>, count: usize) -> VortexResult<Vec<T>> {
    let first = trees.len().checked_sub(count);
    Ok(trees.split_off(first.ok_or(VortexError::LengthMismatch)?)?)
}

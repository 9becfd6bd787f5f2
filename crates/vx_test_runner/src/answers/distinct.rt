// The nodes of a tree, each once, as keys, and what an analysis tells of them.
use std::alloc::Global;
use std::collections::HashSet;
use vx_tree::{BoundExpression, ExactBoundExpr, VortexResult};

/// The distinct nodes of the tree in the order of a walk from the top, from left to right, each at
/// its first place.
pub fn distinct_nodes(
    alloc: Global,
    tree: &BoundExpression,
) -> VortexResult<Vec<&BoundExpression>> {
    let mut seen = HashSet::new(alloc);
    let mut nodes = Vec::new(alloc);
    let mut waiting = Vec::new(alloc);
    waiting.push(tree)?;
    for _ in 0..usize::MAX {
        let Some(node) = waiting.pop() else {
            break;
        };
        if seen.insert(ExactBoundExpr::new(node.clone()?))? {
            nodes.push(node)?;
            for child in node.children().iter().rev() {
                waiting.push(child)?;
            }
        }
    }
    Ok(nodes)
}

/// What an analysis tells of nodes.
pub trait Analysis {
    /// What it tells of the node, `-` where that is nothing.
    fn told_at(&self, alloc: Global, node: &BoundExpression) -> VortexResult<String>;

    /// Of how many nodes it tells something.
    fn count(&self) -> usize;
}

/// What the analysis tells of each distinct node of the tree, and of how many nodes in all: `a b (2)`.
pub fn told_of_all<A: Analysis>(
    alloc: Global,
    analysis: &A,
    tree: &BoundExpression,
) -> VortexResult<String> {
    let mut text = String::new(alloc);
    for node in distinct_nodes(alloc, tree)?.iter() {
        if !text.is_empty() {
            text.push(' ')?;
        }
        text.push_str(analysis.told_at(alloc, node)?.as_str())?;
    }
    let count = analysis.count();
    Ok(format!(in alloc; "{text} ({count})")?)
}

// Walks, rewrites, folds and containers of nodes.
mod containers;
pub mod rewrites;
mod trees;

use crate::walks::trees::{BOTH, COMPARISONS, HasField, deep, over_harness};
use std::alloc::Global;
use std::marker::PhantomData;
use std::process::Abort;
use std::test::Fail;
use vx_build::root;
use vx_test_support::expression;
use vx_tree::{Binary, Expression, FieldName, GetItem, Operator, VortexError, VortexResult};
use vx_walk::TraversalOrder::{Continue, Skip, Stop};
use vx_walk::{
    FoldDownContext, FoldUp, Node, NodeExt, NodeFolderContext, NodeVisitor, TraversalOrder,
    pre_order_visit_down,
};

/// Asserts that those are the names, one space apart.
fn named(rt: &impl Abort, alloc: Global, found: &[FieldName], names: &str) -> Result<(), Fail> {
    let mut text = String::new(alloc);
    for name in found {
        text.push_str(name.as_str())?;
        text.push(' ')?;
    }
    assert_eq!(rt; text.as_str().trim(), names);
    Ok(())
}

#[test]
fn orders_choose_what_runs(rt: HostRuntime) -> Result<(), Fail> {
    for (order, children, parent) in [
        (Skip, Continue, Skip),
        (Stop, Stop, Stop),
        (Continue, Stop, Skip),
    ] {
        assert!(rt;
            order.visit_children(|| Ok(Stop))? == children,
            "after {order:?}"
        );
        assert!(rt;
            order.visit_parent(|| Ok(Skip))? == parent,
            "after {order:?}"
        );
    }
    Ok(())
}

/// The names of the fields on the way down.
#[derive(Drop)]
struct Names<N> {
    found: Vec<FieldName>,
    of: PhantomData<N>,
}

impl<N: Node + HasField> NodeVisitor for Names<N> {
    type NodeTy = N;

    ghost down_gives = { λ v n a w. Unit {0} };

    ghost up_gives = { λ v n a w. Unit {0} };

    fn visit_down(&mut self, node: &N) -> VortexResult<TraversalOrder> {
        if let Some(name) = node.field() {
            self.found.push(name.clone()?)?;
        }
        Ok(Continue)
    }

    fn visit_up(&mut self, _node: &N) -> VortexResult<TraversalOrder> {
        Ok(Continue)
    }
}

/// Asserts that a walk of the tree finds the names.
fn finds<N: Node + HasField>(
    rt: &impl Abort,
    alloc: Global,
    tree: &N,
    names: &str,
) -> Result<(), Fail> {
    let mut visitor = Names {
        found: Vec::new(alloc),
        of: PhantomData,
    };
    assert!(rt; tree.accept(&mut visitor)? == Continue);
    named(rt, alloc, &visitor.found, names)
}

#[test]
fn names_are_collected_over_both_trees(rt: HostRuntime) -> Result<(), Fail> {
    let alloc = rt.alloc();
    let source = expression(alloc, COMPARISONS)?;
    finds(&rt, alloc, &source, "col1 col2 col3 col4")?;
    let bound = over_harness(alloc, "col1 = col2")?;
    finds(&rt, alloc, &bound, "col1 col2")
}

/// Answers Skip on the way up of the nodes that are equal to one, and sees whether an operator's way
/// up comes.
#[derive(Drop)]
struct SkipAt {
    node: Expression,
    above: bool,
}

impl NodeVisitor for SkipAt {
    type NodeTy = Expression;

    ghost down_gives = { λ v n a w. Unit {0} };

    ghost up_gives = { λ v n a w. Unit {0} };

    fn visit_down(&mut self, _node: &Expression) -> VortexResult<TraversalOrder> {
        Ok(Continue)
    }

    fn visit_up(&mut self, node: &Expression) -> VortexResult<TraversalOrder> {
        if *node == self.node {
            return Ok(Skip);
        }
        self.above = self.above | node.is::<Binary>();
        Ok(Continue)
    }
}

#[test]
fn a_last_child_skips_the_way_up(rt: HostRuntime) -> Result<(), Fail> {
    let alloc = rt.alloc();
    for (name, order, above) in [("b", Skip, false), ("a", Continue, true)] {
        let mut visitor = SkipAt {
            node: expression(alloc, name)?,
            above: false,
        };
        let both = expression(alloc, BOTH)?;
        assert!(rt; both.accept(&mut visitor)? == order, "at {name}");
        assert!(rt; visitor.above == above, "at {name}");
    }
    Ok(())
}

#[test]
fn a_pre_order_walk_skips_and_stops(rt: HostRuntime) -> Result<(), Fail> {
    let alloc = rt.alloc();
    for (at_equal, names, order) in [(Skip, "col3 col4", Continue), (Stop, "", Stop)] {
        let mut found: Vec<FieldName> = Vec::new(alloc);
        let tree = expression(alloc, COMPARISONS)?;
        let answer = pre_order_visit_down(&tree, |node: &Expression| {
            if node.as_opt::<Binary>() == Some(&Operator::Eq) {
                return Ok(at_equal);
            }
            if let Some(name) = node.as_opt::<GetItem>() {
                found.push(name.clone()?)?;
            }
            Ok(Continue)
        })?;
        assert!(rt; answer == order, "with {names}");
        named(&rt, alloc, &found, names)?;
    }
    Ok(())
}

/// `CASE WHEN $.bool1 THEN 1i32 ELSE 2i32 END`
const CHOICE: &str = "case when bool1 then 1 else 2 end";

#[test]
fn children_are_counted_and_visited(rt: HostRuntime) -> Result<(), Fail> {
    let alloc = rt.alloc();
    let choice = expression(alloc, CHOICE)?;
    assert_eq!(rt; choice.children_count(), 3);
    assert_eq!(rt; choice.children_slice().len(), 3);
    let bound = over_harness(alloc, CHOICE)?;
    assert_eq!(rt; bound.children_count(), 3);
    let mut calls = 0u32;
    let answer = bound.apply_children(|_child| {
        calls = calls.saturating_add(1);
        Ok(if calls == 2 { Stop } else { Skip })
    });
    assert!(rt; matches!(answer, Ok(Stop)));
    assert_eq!(rt; calls, 2);
    let mut calls = 0u32;
    let answer = choice.apply_children(|_child: &Expression| {
        calls = calls.saturating_add(1);
        if calls == 2 {
            return Err(VortexError::NotBool);
        }
        Ok(Continue)
    });
    assert!(rt; matches!(answer, Err(VortexError::NotBool)));
    assert_eq!(rt; calls, 2);
    let answer = root().apply_children(|_child| Ok(Stop));
    assert!(rt; matches!(answer, Ok(Continue)));
    Ok(())
}

/// The number of nodes on the longest way down from a node: each has one more than the context above
/// it. A node as deep as the limit isn't gone below, and may end the fold.
#[derive(Drop)]
struct Depth<N> {
    limit: u32,
    ends: bool,
    of: PhantomData<N>,
}

impl<N: Node> NodeFolderContext for Depth<N> {
    type NodeTy = N;

    type Context = u32;

    type Result = u32;

    ghost down_gives = { λ v x n a w. Unit {0} };

    ghost up_gives = { λ v n x rs a w. Unit {0} };

    fn visit_down(&mut self, above: &u32, _node: &N) -> VortexResult<FoldDownContext<u32, u32>> {
        let depth = above.saturating_add(1);
        if depth == self.limit && self.ends {
            return Ok(FoldDownContext::Stop(depth));
        }
        if depth == self.limit {
            return Ok(FoldDownContext::Skip(depth));
        }
        Ok(FoldDownContext::Continue(depth))
    }

    fn visit_up(&mut self, _node: N, depth: &u32, below: Vec<u32>) -> VortexResult<FoldUp<u32>>
        ensures gives { Unit {0} }
        ensures ready { Unit {0} }
    {
        Ok(FoldUp::Continue(below.iter().copied().max().unwrap_or(*depth)))
    }
}

/// How deep the tree is, down to the limit.
fn depth_of<N: Node>(alloc: Global, tree: N, limit: u32, ends: bool) -> VortexResult<FoldUp<u32>> {
    let mut folder = Depth {
        limit,
        ends,
        of: PhantomData,
    };
    tree.fold_context(alloc, &0, &mut folder)
}

#[test]
fn depth_is_counted_by_the_context(rt: HostRuntime) -> Result<(), Fail> {
    let alloc = rt.alloc();
    let whole = depth_of(alloc, expression(alloc, COMPARISONS)?, 9, true)?;
    assert!(rt; matches!(whole, FoldUp::Continue(4)));
    let skipped = depth_of(alloc, expression(alloc, COMPARISONS)?, 3, false)?;
    assert!(rt; matches!(skipped, FoldUp::Continue(3)));
    let ended = depth_of(alloc, expression(alloc, COMPARISONS)?, 3, true)?;
    assert!(rt; matches!(ended, FoldUp::Stop(3)));
    let bound = over_harness(alloc, CHOICE)?;
    assert!(rt; matches!(depth_of(alloc, bound, 9, true)?, FoldUp::Continue(3)));
    Ok(())
}

#[test]
fn a_deep_tree_is_walked_and_folded(rt: HostRuntime) -> Result<(), Fail> {
    let alloc = rt.alloc();
    let tree = deep(alloc)?;
    let mut nodes = 0u32;
    let answer = pre_order_visit_down(&tree, |_node: &Expression| {
        nodes = nodes.saturating_add(1);
        Ok(Continue)
    })?;
    assert!(rt; answer == Continue);
    assert_eq!(rt; nodes, 10_002);
    assert!(rt; tree.contains::<GetItem>() && !tree.contains::<Binary>());
    finds(&rt, alloc, &tree, "bool1")?;
    assert!(rt;
        matches!(
            depth_of(alloc, tree, 20_000, true)?,
            FoldUp::Continue(10_002)
        )
    );
    Ok(())
}

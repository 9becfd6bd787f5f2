// Rewrites.
ghost use Rattle.std.specs.Prelude.{◌≡◌, ◌≤◌, IfOk};
ghost use Rattle.std.proofs.Common.{rules};
ghost use Rattle.vx_tree.specs.Views.{tree_of};
ghost use Rattle.vx_walk.specs.Heights.{height_of};
ghost use Rattle.vx_walk.specs.declared.order.TraversalOrder.TheVariants.{Skip};

use crate::walks::trees::{BOTH, COMPARISONS, deep, over_harness};
use std::alloc::Global;
use std::marker::PhantomData;
use std::process::Abort;
use std::test::Fail;
use vx_build::{lit, root};
use vx_test_support::{expression, reads};
use vx_tree::{BoundExpression, Expression, GetItem, Scalar, VortexError, VortexResult};
use vx_walk::TraversalOrder::{Continue, Stop};
use vx_walk::{Node, NodeExt, NodeRewriter, Transformed, TraversalOrder};

/// The tree with the next literal from 0 for each field.
pub fn numbered(alloc: Global, tree: Expression) -> VortexResult<Transformed<Expression>> {
    let mut next = 0i32;
    tree.transform_down(
        alloc,
        |node: Expression| -> VortexResult<Transformed<Expression>>
            ensures { IfOk result (λ t. height_of (tree_of t.value) ≤ height_of (tree_of node)) }
        {
            if !node.is::<GetItem>() {
                return Ok(Transformed::no(node));
            }
            let number = lit(alloc, Scalar::from_i32(next))?;
            next = next.saturating_add(1);
            Ok(Transformed::yes(number))
        },
    )
}

#[test]
fn fields_are_numbered(rt: HostRuntime) -> Result<(), Fail> {
    let alloc = rt.alloc();
    let tree = expression(alloc, "col1 = col2 and 2")?;
    let rewritten = numbered(alloc, tree).expect(&rt, "a tree");
    assert!(rt; rewritten.changed);
    assert!(rt; rewritten.order == Continue);
    assert!(rt; reads(&rewritten.into_inner(), "((0i32 = 1i32) and 2i32)"));
    let unchanged = numbered(alloc, root()).expect(&rt, "a tree");
    assert!(rt; !unchanged.changed);
    Ok(())
}

#[test]
fn a_deep_tree_is_rewritten(rt: HostRuntime) -> Result<(), Fail> {
    let alloc = rt.alloc();
    let wanted = deep(alloc)?;
    let tree = deep(alloc)?;
    let rewritten = numbered(alloc, tree).expect(&rt, "a tree");
    assert!(rt; rewritten.changed);
    assert!(rt; rewritten.value != wanted);
    Ok(())
}

/// Leaves the children out on the way down, and gives the scope on the way up.
#[derive(Drop)]
struct Rooted;

impl NodeRewriter for Rooted {
    type NodeTy = Expression;

    ghost down_gives = { λ v n a w. IfOk a (λ t. t.order ≡ Skip) };

    ghost up_gives = { λ v n a w. Unit {0} };

    ghost no_higher = { λ v w n t r d e. Prim.cc };

    fn visit_down(&mut self, node: Expression) -> VortexResult<Transformed<Expression>> {
        Ok(Transformed {
            value: node,
            order: TraversalOrder::Skip,
            changed: false,
        })
    }

    fn visit_up(&mut self, _node: Expression) -> VortexResult<Transformed<Expression>> {
        Ok(Transformed::yes(root()))
    }
}

#[test]
fn the_way_up_comes_after_skip(rt: HostRuntime) -> Result<(), Fail> {
    let alloc = rt.alloc();
    let tree = expression(alloc, "x")?;
    let rewritten = tree.rewrite(alloc, &mut Rooted);
    let rewritten = rewritten.expect(&rt, "a tree");
    assert!(rt; rewritten.changed);
    assert!(rt; reads(&rewritten.value, "$"));
    Ok(())
}

/// Hands every node back as it is.
#[derive(Drop)]
struct Same<N> {
    of: PhantomData<N>,
}

impl<N: Node> NodeRewriter for Same<N> {
    type NodeTy = N;

    ghost down_gives = { λ v n a w. IfOk a (λ t. t.value ≡ n) };

    ghost up_gives = { λ v n a w. IfOk a (λ t. t.value ≡ n) };

    ghost no_higher = { λ v w n t r d e. Prim.search rules };

    fn visit_down(&mut self, node: N) -> VortexResult<Transformed<N>> {
        Ok(Transformed::no(node))
    }

    fn visit_up(&mut self, node: N) -> VortexResult<Transformed<N>> {
        Ok(Transformed::no(node))
    }
}

/// Asserts that a rewrite that hands every node back as it is gives the tree that is wanted, which is
/// the same.
fn is_handed_back<N: Node + PartialEq>(rt: &impl Abort, alloc: Global, tree: N, wanted: &N) {
    let same = tree.rewrite(alloc, &mut Same { of: PhantomData });
    let same = same.expect(rt, "a tree");
    assert!(rt; !same.changed);
    assert!(rt; same.value == *wanted);
}

/// `($.col1 = $.col2)`, bound
fn bound_equality(alloc: Global) -> Result<BoundExpression, Fail> {
    over_harness(alloc, "col1 = col2")
}

#[test]
fn a_rewrite_may_change_nothing(rt: HostRuntime) -> Result<(), Fail> {
    let alloc = rt.alloc();
    let wanted = expression(alloc, COMPARISONS)?;
    is_handed_back(&rt, alloc, expression(alloc, COMPARISONS)?, &wanted);
    let wanted = bound_equality(alloc)?;
    is_handed_back(&rt, alloc, bound_equality(alloc)?, &wanted);
    let wanted = deep(alloc)?;
    is_handed_back(&rt, alloc, deep(alloc)?, &wanted);
    Ok(())
}

#[test]
fn children_are_mapped_until_stop_or_kept(rt: HostRuntime) -> Result<(), Fail> {
    let alloc = rt.alloc();
    let first = expression(alloc, BOTH)?;
    let second = expression(alloc, BOTH)?;
    let mapped = first.map_children(alloc, |_child| {
        Ok(Transformed {
            value: root(),
            order: Stop,
            changed: true,
        })
    });
    let mapped = mapped.expect(&rt, "a tree");
    assert!(rt; mapped.changed);
    assert!(rt; mapped.order == Stop);
    assert!(rt; reads(&mapped.value, "($ and $.b)"));
    let unchanged = second.map_children(alloc, |child| Ok(Transformed::no(child)));
    let unchanged = unchanged.expect(&rt, "a tree");
    assert!(rt; !unchanged.changed);
    assert!(rt; reads(&unchanged.value, "($.a and $.b)"));
    Ok(())
}

#[test]
fn a_bound_node_is_typed_anew_or_refused(rt: HostRuntime) -> Result<(), Fail> {
    let alloc = rt.alloc();
    let other = over_harness(alloc, "bool1")?;
    let equality = bound_equality(alloc)?;
    let differing = bound_equality(alloc)?;
    let mapped = equality.map_children(alloc, |child| {
        drop(child);
        Ok(Transformed::yes(other.clone()?))
    });
    let mapped = mapped.expect(&rt, "a tree");
    assert!(rt; reads(&mapped.value, "($.bool1 = $.bool1)"));
    let mut first = true;
    let refused = differing.map_children(alloc, |child| {
        if first {
            first = false;
            drop(child);
            return Ok(Transformed::yes(other.clone()?));
        }
        Ok(Transformed::no(child))
    });
    assert!(rt; matches!(&refused, Err(VortexError::BaseTypesDiffer)));
    Ok(())
}

/// Asserts that a node of two children isn't made anew without children.
fn keeps_its_children<N: Node + Drop>(rt: &impl Abort, alloc: Global, node: N) {
    let answer = Node::with_children(node, alloc, Vec::new(alloc));
    assert!(rt;
        matches!(
            &answer,
            Err(VortexError::ArityMismatch {
                expected: 2,
                got: 0
            })
        )
    );
}

#[test]
fn a_node_is_rebuilt_by_its_trait(rt: HostRuntime) -> Result<(), Fail> {
    let alloc = rt.alloc();
    keeps_its_children(&rt, alloc, expression(alloc, BOTH)?);
    keeps_its_children(&rt, alloc, bound_equality(alloc)?);
    Ok(())
}

#[test]
fn what_is_handed_back_is_seen_and_mapped(rt: HostRuntime) {
    let yes = Transformed::yes(4u8);
    assert!(rt; yes.changed);
    assert!(rt; yes.order == Continue);
    let no = Transformed::no(4u8);
    assert!(rt; !no.changed);
    let half = no.map(|value| value / 2);
    assert_eq!(rt; half.value, 2);
    assert!(rt; !half.clone().expect(&rt, "memory").changed);
    assert_eq!(rt; half.into_inner(), 2);
    let stopped = Transformed {
        value: 4u8,
        order: Stop,
        changed: true,
    };
    let above = stopped.map(|value| value > 3);
    assert!(rt; above.value);
    assert!(rt; above.changed);
    assert!(rt; above.order == Stop);
}

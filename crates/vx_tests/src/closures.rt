// Labels and annotations by closures that no row of a table names.
use crate::worked::{CONDITIONS, tree};
use std::alloc::Global;
use std::process::Abort;
use std::test::Fail;
use vx_rewrite::{
    BoundLabels, descendent_bound_annotations, direct_bound_annotations, label_bound_tree,
};
use vx_tree::{BoundExpression, ExactBoundExpr, FieldName, Literal, VortexError, VortexResult};

/// Twice the label and the child's, child by child.
fn folded(alloc: Global, e: &BoundExpression) -> VortexResult<BoundLabels<u64>> {
    label_bound_tree(
        alloc,
        e,
        |_node: &BoundExpression| 1u64,
        |label: u64, child: &u64| label.saturating_mul(2).saturating_add(*child),
    )
}

#[test]
fn labels_are_merged_from_the_left(rt: HostRuntime) -> Result<(), Fail> {
    let alloc = rt.alloc();
    let e = tree(alloc, "a.x >= 1")?;
    let apart = tree(alloc, "a.x >= 1")?;
    let labels = folded(alloc, &e).expect(&rt, "labels");
    // $ 1, $.a 3, $.a.x 5, the literal 1, and (1 * 2 + 5) * 2 + 1.
    assert_eq!(rt; labels.len(), 5);
    let found = labels.get(&ExactBoundExpr::new(apart)).copied();
    assert!(rt; found == Some(15), "{found:?} and not 15");
    Ok(())
}

/// No annotation, but refusals of scope roots and of literals.
fn refuse(alloc: Global, e: &BoundExpression) -> VortexResult<Vec<FieldName>> {
    if e.is_root() {
        return Err(VortexError::NotBool);
    }
    if e.is::<Literal>() {
        return Err(VortexError::NotText);
    }
    Ok(Vec::new(alloc))
}

/// Asserts that the answer is the refusal of the scope root, which is met before any literal.
fn is_first<T: Drop>(rt: &impl Abort, answer: VortexResult<T>) {
    assert!(rt; matches!(answer, Err(VortexError::NotBool)));
}

#[test]
fn the_first_refusal_is_passed_on(rt: HostRuntime) -> Result<(), Fail> {
    let alloc = rt.alloc();
    let e = tree(alloc, CONDITIONS)?;
    let refuse = |node: &BoundExpression| refuse(alloc, node);
    is_first(&rt, descendent_bound_annotations(alloc, &e, refuse));
    let refuse = |node: &BoundExpression| self::refuse(alloc, node);
    is_first(&rt, direct_bound_annotations(alloc, &e, refuse));
    Ok(())
}

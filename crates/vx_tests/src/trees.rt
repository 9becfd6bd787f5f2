// Trees: their functions and children, and nodes made anew.
use crate::looks::{gives, refuses, shows};
use std::alloc::Global;
use std::process::Abort;
use std::test::Fail;
use vx_build::{bound, root};
use vx_source::{parse, parse_type};
use vx_test_support::{dtype, expression, i32_type, reads};
use vx_tree::Nullability::{NonNullable, Nullable};
use vx_tree::test_harness::struct_dtype;
use vx_tree::{
    Binary, BoundExpression, DType, DisplayTreeExpr, EmptyOptions, ExprDisplay, Expression,
    FieldName, GetItem, IsNull, Operator, Scalar, ScalarFnRef, Scope, VortexResult,
};

/// `(($.x >= null) and ($.x <= 5i32))`
pub const RANGE_OF_X: &str = "x >= null::i32? and x <= 5";

#[test]
fn a_range_has_its_text_and_type(rt: HostRuntime) -> Result<(), Fail> {
    let alloc = rt.alloc();
    let text = "(($.x >= null) and ($.x <= 5i32))";
    let scope = parse_type(alloc, "{x=i32}")?;
    let source = parse(alloc, RANGE_OF_X)?;
    let bound = source.bind(alloc, &scope)?;
    assert!(rt; *bound.dtype() == DType::Bool(Nullable));
    assert!(rt; bound.is_root_bound_to(&scope));
    assert!(rt; reads(&bound, text) && reads(&source, text));
    Ok(())
}

const NO_TEXT: &str = "types differ in more than nullability";

/// `($.a = "nope")`, of the constructors of bound trees.
fn compared(alloc: Global) -> VortexResult<BoundExpression> {
    let name = FieldName::new(alloc, "a")?;
    let a = bound::col(alloc, name, struct_dtype(alloc)?)?;
    bound::eq(alloc, a, bound::lit(alloc, Scalar::utf8(alloc, "nope")?)?)
}

#[test]
fn a_number_is_no_text(rt: HostRuntime) -> Result<(), Fail> {
    let alloc = rt.alloc();
    let scope = struct_dtype(alloc).expect(&rt, "a type");
    let source = expression(alloc, r#"a = "nope""#)?;
    refuses(&rt, source.bind(alloc, &scope), NO_TEXT);
    refuses(&rt, source.return_dtype(alloc, &scope), NO_TEXT);
    refuses(&rt, compared(alloc), NO_TEXT);
    Ok(())
}

#[test]
fn nodes_show_their_function_and_children(rt: HostRuntime) -> Result<(), Fail> {
    let alloc = rt.alloc();
    let source = expression(alloc, RANGE_OF_X)?;
    assert!(rt; !source.is_root() && !vx_build::is_root(&source));
    assert!(rt; matches!(source.as_scalar(), Some(ScalarFnRef::Binary(Operator::And))));
    assert!(rt; source.as_opt::<Binary>() == Some(&Operator::And));
    assert!(rt; source.as_opt::<GetItem>().is_none());
    assert!(rt; source.is::<Binary>());
    assert!(rt; *source.as_::<Binary>() == Operator::And);
    assert!(rt; source.contains::<Binary>() && source.contains::<GetItem>());
    assert!(rt; !source.contains::<IsNull>());
    assert_eq!(rt; source.display_children_count(), 2);
    assert_eq!(rt; source.children().len(), 2);
    assert!(rt; source.child(0) != source.child(1));
    assert!(rt; source.child(1) == source.display_child(1));
    gives(&rt, source.clone(), &source);
    Ok(())
}

#[test]
fn bound_nodes_show_their_function_and_children(rt: HostRuntime) -> Result<(), Fail> {
    let alloc = rt.alloc();
    let scope = dtype(alloc, "{x=i32}").expect(&rt, "a type");
    let bound = vx_test_support::bound(alloc, RANGE_OF_X, &scope)?;
    assert!(rt; matches!(bound.as_scalar(), Some(ScalarFnRef::Binary(Operator::And))));
    assert!(rt; bound.as_opt::<Binary>() == Some(&Operator::And));
    assert!(rt; bound.is::<Binary>());
    assert!(rt; *bound.as_::<Binary>() == Operator::And);
    assert!(rt; bound.contains::<Binary>() && bound.contains::<GetItem>());
    assert!(rt; !bound.contains::<IsNull>());
    assert_eq!(rt; bound.display_children_count(), 2);
    assert_eq!(rt; bound.children().len(), 2);
    assert!(rt; bound.child(0) != bound.child(1));
    Ok(())
}

#[test]
fn a_scope_is_its_type(rt: HostRuntime) -> Result<(), Fail> {
    let alloc = rt.alloc();
    let source = expression(alloc, RANGE_OF_X)?;
    let dtype = dtype(alloc, "{x=i32}").expect(&rt, "a type");
    let scope = Scope::new(dtype.clone()?);
    let bound = source.bind_scope(alloc, &scope).expect(&rt, "a tree");
    assert!(rt; bound.is_root_bound_to(scope.root()));
    assert!(rt; !bound.is_root_bound_to(&i32_type(NonNullable)));
    shows(&rt, source.return_dtype(alloc, scope.root())?, "bool?");
    gives(&rt, source.bind(alloc, scope.root()), &bound);
    Ok(())
}

/// The node of the function over the scope root alone.
fn over_root(alloc: Global, scalar_fn: ScalarFnRef) -> VortexResult<Expression> {
    Expression::try_new(alloc, scalar_fn, vec![in alloc; root()]?)
}

/// The same, bound.
fn bound_over_root(alloc: Global, scalar_fn: ScalarFnRef) -> VortexResult<BoundExpression> {
    let root = BoundExpression::new_root(i32_type(Nullable));
    BoundExpression::try_new(alloc, scalar_fn, vec![in alloc; root]?)
}

#[test]
fn a_wrong_number_of_children_is_refused(rt: HostRuntime) {
    let alloc = rt.alloc();
    let equal = over_root(alloc, ScalarFnRef::Binary(Operator::Eq));
    refuses(&rt, equal, "2 children are needed, and 1 given");
    let zipped = over_root(alloc, ScalarFnRef::Zip(EmptyOptions));
    refuses(&rt, zipped, "3 children are needed, and 1 given");
    let bound = bound_over_root(alloc, ScalarFnRef::Zip(EmptyOptions));
    refuses(&rt, bound, "3 children are needed, and 1 given");
}

/// The tree of the text with the trees of the others for its children.
fn over_others(
    alloc: Global,
    text: &str,
    others: &[&str],
) -> Result<VortexResult<Expression>, Fail> {
    let tree = expression(alloc, text)?;
    let mut children = Vec::new(alloc);
    for other in others {
        children.push(expression(alloc, other)?)?;
    }
    Ok(tree.with_children(alloc, children))
}

#[test]
fn a_node_takes_as_many_other_children(rt: HostRuntime) -> Result<(), Fail> {
    let alloc = rt.alloc();
    let none = over_others(alloc, "x", &[])?;
    refuses(&rt, none, "1 children are needed, and 0 given");
    let swapped = over_others(alloc, "bool1 or bool2", &["bool2", "bool1"])?;
    shows(&rt, swapped?, "($.bool2 or $.bool1)");
    let below = over_others(alloc, "$", &["$"])?;
    refuses(&rt, below, "1 children given to the scope root");
    Ok(())
}

/// The scope root of the type of the harness, made anew without children.
fn root_anew(alloc: Global) -> VortexResult<BoundExpression> {
    let root = BoundExpression::new_root(struct_dtype(alloc)?);
    root.with_children(alloc, Vec::new(alloc))
}

#[test]
fn a_root_has_no_children_and_one_line(rt: HostRuntime) {
    let alloc = rt.alloc();
    let source = Expression::Root;
    assert!(rt; source.is_root() && vx_build::is_root(&source));
    assert!(rt; source == root());
    let bound = root_anew(alloc).expect(&rt, "a tree");
    assert!(rt; bound.is_root());
    gives(&rt, struct_dtype(alloc), bound.dtype());
    assert!(rt; reads(&source, "$") && reads(&source.display_tree(), "vortex.root()"));
    assert!(rt; reads(&DisplayTreeExpr(&source), "vortex.root()"));
    assert!(rt; reads(&DisplayTreeExpr(&bound), "vortex.root()"));
}

/// The node with copies of its own children.
fn over_its_own(alloc: Global, tree: &BoundExpression) -> VortexResult<BoundExpression> {
    let mut children = Vec::new(alloc);
    for child in tree.children() {
        children.push(child.clone()?)?;
    }
    tree.clone()?.with_children(alloc, children)
}

#[test]
fn a_bound_node_takes_other_children(rt: HostRuntime) -> Result<(), Fail> {
    let alloc = rt.alloc();
    let scope = struct_dtype(alloc).expect(&rt, "a type");
    let bound = vx_test_support::bound(alloc, "bool1 or bool2", &scope)?;
    gives(&rt, over_its_own(alloc, &bound), &bound);
    Ok(())
}

/// Asserts that nothing is collected of no items.
fn is_nothing<T: Drop>(rt: &impl Abort, collected: VortexResult<Option<T>>) {
    assert!(rt; matches!(&collected, Ok(None)));
}

#[test]
fn nothing_is_collected_of_no_items(rt: HostRuntime) {
    let alloc = rt.alloc();
    is_nothing(&rt, vx_build::and_collect(alloc, Vec::new(alloc)));
    is_nothing(&rt, vx_build::or_collect(alloc, Vec::new(alloc)));
    is_nothing(&rt, bound::and_collect(alloc, Vec::new(alloc)));
    is_nothing(&rt, bound::or_collect(alloc, Vec::new(alloc)));
}

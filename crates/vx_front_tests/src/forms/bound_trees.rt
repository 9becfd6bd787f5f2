// The same forms over bound trees, with their types and refusals.
use crate::forms::shown::{gives, is_nothing, some};
use std::alloc::Global;
use vx_forms::{bound, struct_type};
use vx_tree::Nullability::NonNullable;
use vx_tree::PType::I32;
use vx_tree::{BoundExpression, DType, VortexResult};

fn scope(alloc: Global) -> VortexResult<DType> {
    let fields = [("x", I32.into()), ("m", DType::Bool(NonNullable))];
    struct_type(alloc, fields, NonNullable)
}

fn x(alloc: Global) -> VortexResult<BoundExpression> {
    bound::col(alloc, "x", scope(alloc)?)
}

fn m(alloc: Global) -> VortexResult<BoundExpression> {
    bound::col(alloc, "m", scope(alloc)?)
}

// A refusal: the scope has no such field.
fn unknown(alloc: Global) -> VortexResult<BoundExpression> {
    bound::col(alloc, "y", scope(alloc)?)
}

// A refusal: a number is no truth value.
fn negated(alloc: Global) -> VortexResult<BoundExpression> {
    bound::not(alloc, x(alloc))
}

// A refusal: a number is no text.
fn nope(alloc: Global) -> VortexResult<BoundExpression> {
    bound::eq(alloc, x(alloc), bound::lit(alloc, "nope"))
}

// The text of the tree, and its type.
fn shown(alloc: Global, tree: VortexResult<BoundExpression>) -> VortexResult<String> {
    let tree = tree?;
    let dtype = tree.dtype();
    Ok(format!(in alloc; "{tree} of {dtype}")?)
}

#[test]
fn bound_forms_have_types(rt: HostRuntime) {
    let alloc = rt.alloc();
    gives(
        &rt,
        shown(alloc, bound::gt(alloc, x(alloc), bound::lit(alloc, 5))),
        "($.x > 5i32) of bool",
    );
    gives(
        &rt,
        shown(alloc, bound::case_when_no_else(alloc, m(alloc), x(alloc))),
        "CASE WHEN $.m THEN $.x END of i32?",
    );
    gives(
        &rt,
        shown(
            alloc,
            bound::zip_expr(alloc, m(alloc), x(alloc), bound::lit(alloc, 5)),
        ),
        "zip($.x, 5i32, $.m) of i32",
    );
    gives(
        &rt,
        shown(
            alloc,
            bound::pack(alloc, [("a", x(alloc)), ("b", m(alloc))], NonNullable),
        ),
        "pack(a: $.x, b: $.m) of {a=i32, b=bool}",
    );
}

#[test]
fn the_first_refusal_is_answered(rt: HostRuntime) {
    let alloc = rt.alloc();
    gives(&rt, negated(alloc), "a truth type is needed");
    gives(&rt, nope(alloc), "types differ in more than nullability");
    gives(&rt, unknown(alloc), "no such field: y");
    gives(
        &rt,
        bound::or(alloc, negated(alloc), nope(alloc)),
        "a truth type is needed",
    );
    gives(
        &rt,
        bound::or(alloc, nope(alloc), negated(alloc)),
        "types differ in more than nullability",
    );
    gives(
        &rt,
        bound::zip_expr(alloc, negated(alloc), nope(alloc), x(alloc)),
        "a truth type is needed",
    );
    gives(
        &rt,
        bound::pack(alloc, [("a", x(alloc)), ("b", nope(alloc))], NonNullable),
        "types differ in more than nullability",
    );
}

#[test]
fn bound_items_are_collected(rt: HostRuntime) {
    let alloc = rt.alloc();
    gives(
        &rt,
        some(
            &rt,
            bound::and_collect(alloc, [m(alloc), m(alloc), m(alloc)]),
        ),
        "(($.m and $.m) and $.m)",
    );
    gives(
        &rt,
        some(&rt, bound::or_collect(alloc, [m(alloc), m(alloc)])),
        "($.m or $.m)",
    );
    gives(
        &rt,
        some(&rt, bound::and_collect(alloc, [m(alloc), x(alloc)])),
        "a truth type is needed",
    );
    let none: [BoundExpression; 0] = [];
    assert!(rt; is_nothing(bound::and_collect(alloc, none)));
    let none: [BoundExpression; 0] = [];
    assert!(rt; is_nothing(bound::or_collect(alloc, none)));
}

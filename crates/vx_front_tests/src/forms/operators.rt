// Comparisons, logic, sums, matches of a pattern and what deals with null, of sources.
use crate::forms::shown::{gives, is_nothing, some};
use std::alloc::Global;
use vx_forms::*;
use vx_tree::StrictComparison::{NonStrict, Strict};
use vx_tree::{BetweenOptions, Expression, Operator, VortexResult};

fn a(alloc: Global) -> VortexResult<Expression> {
    col(alloc, "a")
}

fn b(alloc: Global) -> VortexResult<Expression> {
    col(alloc, "b")
}

fn c(alloc: Global) -> VortexResult<Expression> {
    col(alloc, "c")
}

fn two(alloc: Global) -> VortexResult<Expression> {
    lit(alloc, 2)
}

#[test]
fn comparisons(rt: HostRuntime) {
    let alloc = rt.alloc();
    gives(&rt, eq(alloc, a(alloc), two(alloc)), "($.a = 2i32)");
    gives(&rt, not_eq(alloc, a(alloc), two(alloc)), "($.a != 2i32)");
    gives(&rt, gt(alloc, a(alloc), two(alloc)), "($.a > 2i32)");
    gives(&rt, gt_eq(alloc, a(alloc), two(alloc)), "($.a >= 2i32)");
    gives(&rt, lt(alloc, a(alloc), two(alloc)), "($.a < 2i32)");
    gives(&rt, lt_eq(alloc, a(alloc), two(alloc)), "($.a <= 2i32)");
}

#[test]
fn operators(rt: HostRuntime) {
    let alloc = rt.alloc();
    let options = BetweenOptions {
        lower_strict: NonStrict,
        upper_strict: Strict,
    };
    gives(
        &rt,
        binary(alloc, Operator::Lte, a(alloc), two(alloc)),
        "($.a <= 2i32)",
    );
    gives(
        &rt,
        lt(alloc, a(alloc), checked_add(alloc, b(alloc), two(alloc))),
        "($.a < ($.b + 2i32))",
    );
    gives(&rt, and(alloc, a(alloc), b(alloc)), "($.a and $.b)");
    gives(&rt, or(alloc, a(alloc), b(alloc)), "($.a or $.b)");
    gives(
        &rt,
        between(alloc, a(alloc), two(alloc), b(alloc), options),
        "(2i32 <= $.a < $.b)",
    );
}

#[test]
fn matches_of_a_pattern(rt: HostRuntime) {
    let alloc = rt.alloc();
    gives(
        &rt,
        like(alloc, a(alloc), lit(alloc, "x%")),
        "($.a like \"x%\")",
    );
    gives(
        &rt,
        ilike(alloc, a(alloc), lit(alloc, "x%")),
        "($.a ilike \"x%\")",
    );
    gives(
        &rt,
        not_like(alloc, a(alloc), lit(alloc, "x%")),
        "($.a not like \"x%\")",
    );
    gives(
        &rt,
        not_ilike(alloc, a(alloc), lit(alloc, "x%")),
        "($.a not ilike \"x%\")",
    );
}

#[test]
fn what_deals_with_null(rt: HostRuntime) {
    let alloc = rt.alloc();
    gives(
        &rt,
        not(alloc, is_null(alloc, a(alloc))),
        "vortex.not(vortex.is_null($.a))",
    );
    gives(
        &rt,
        is_not_null(alloc, fill_null(alloc, a(alloc), two(alloc))),
        "vortex.is_not_null(vortex.fill_null($.a, 2i32))",
    );
}

#[test]
fn items_are_collected(rt: HostRuntime) {
    let alloc = rt.alloc();
    gives(
        &rt,
        some(&rt, and_collect(alloc, [a(alloc), b(alloc), c(alloc)])),
        "(($.a and $.b) and $.c)",
    );
    gives(
        &rt,
        some(&rt, or_collect(alloc, [a(alloc), b(alloc), c(alloc)])),
        "(($.a or $.b) or $.c)",
    );
    let none: [Expression; 0] = [];
    assert!(rt; is_nothing(and_collect(alloc, none)));
    let none: [Expression; 0] = [];
    assert!(rt; is_nothing(or_collect(alloc, none)));
}

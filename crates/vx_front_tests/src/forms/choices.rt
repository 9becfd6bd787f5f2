// Choices between values, of sources.
use crate::forms::shown::gives;
use std::alloc::Global;
use vx_forms::*;
use vx_tree::{Expression, VortexResult};

fn x(alloc: Global) -> VortexResult<Expression> {
    col(alloc, "x")
}

fn exceeds(alloc: Global, bound: i32) -> VortexResult<Expression> {
    gt(alloc, x(alloc), lit(alloc, bound))
}

// (an operand may be lent, too)
fn zipped(alloc: Global) -> VortexResult<Expression> {
    let m = col(alloc, "m")?;
    zip_expr(alloc, &m, x(alloc), lit(alloc, 0))
}

#[test]
fn choices(rt: HostRuntime) {
    let alloc = rt.alloc();
    gives(
        &rt,
        case_when(alloc, exceeds(alloc, 0), x(alloc), lit(alloc, 0)),
        "CASE WHEN ($.x > 0i32) THEN $.x ELSE 0i32 END",
    );
    gives(
        &rt,
        case_when_no_else(alloc, exceeds(alloc, 0), x(alloc)),
        "CASE WHEN ($.x > 0i32) THEN $.x END",
    );
    gives(&rt, zipped(alloc), "zip($.x, 0i32, $.m)");
    gives(
        &rt,
        mask(alloc, x(alloc), col(alloc, "m")),
        "vortex.mask($.x, $.m)",
    );
}

#[test]
fn choices_of_several_pairs(rt: HostRuntime) {
    let alloc = rt.alloc();
    gives(
        &rt,
        nested_case_when(
            alloc,
            [
                (exceeds(alloc, 0), lit(alloc, 10)),
                (exceeds(alloc, 3), lit(alloc, 20)),
            ],
            Some(lit(alloc, 30)),
        ),
        "CASE WHEN ($.x > 0i32) THEN 10i32 WHEN ($.x > 3i32) THEN 20i32 ELSE 30i32 END",
    );
    gives(
        &rt,
        nested_case_when(alloc, [(exceeds(alloc, 0), lit(alloc, 10))], None),
        "CASE WHEN ($.x > 0i32) THEN 10i32 END",
    );
}

// Trees as they are read.
use crate::forms::shown::gives;
use std::alloc::Global;
use vx_forms::{expr, lit};
use vx_tree::Nullability::Nullable;
use vx_tree::PType::I32;
use vx_tree::StrictComparison::{NonStrict, Strict};
use vx_tree::{BetweenOptions, DType, Expression, Operator, VortexResult};

fn range(alloc: Global) -> VortexResult<Expression> {
    Ok(expr!(in alloc; and(gt_eq(col("x"), lit(2)), lt(col("x"), lit(5)))))
}

fn between(alloc: Global) -> VortexResult<Expression> {
    let options = BetweenOptions {
        lower_strict: NonStrict,
        upper_strict: Strict,
    };
    Ok(expr!(in alloc; between(col("x"), lit(2), lit(5), options)))
}

fn fields(alloc: Global) -> VortexResult<Expression> {
    Ok(expr!(in alloc; select(
        ["a", "b"],
        pack([("a", tree(range(alloc))), ("b", root()), ("c", get_item("x", root()))], Nullable)
    )))
}

fn others(alloc: Global) -> VortexResult<Expression> {
    let five = lit(alloc, 5)?;
    let target = DType::Primitive(I32, Nullable);
    Ok(expr!(in alloc; binary(
        Operator::Add,
        cast(tree(&five), target),
        select_exclude(["a"], tree(five))
    )))
}

#[test]
fn trees_as_they_are_read(rt: HostRuntime) {
    let alloc = rt.alloc();
    gives(&rt, range(alloc), "(($.x >= 2i32) and ($.x < 5i32))");
    gives(&rt, between(alloc), "(2i32 <= $.x < 5i32)");
    gives(
        &rt,
        fields(alloc),
        "pack(a: (($.x >= 2i32) and ($.x < 5i32)), b: $, c: $.x)?{a, b}",
    );
    gives(&rt, others(alloc), "(cast(5i32 as i32?) + 5i32{~ a})");
}

// Types and columns of plain values, and trees over them.
use crate::forms::shown::gives;
use std::alloc::Global;
use vx_forms::*;
use vx_tree::Nullability::{NonNullable, Nullable};
use vx_tree::PType::I32;
use vx_tree::{Column, DType, Expression, VortexResult};

// The text of the column, and its type.
fn shown(alloc: Global, column: VortexResult<Column>) -> VortexResult<String> {
    let column = column?;
    let dtype = column.dtype();
    Ok(format!(in alloc; "{column} of {dtype}")?)
}

// The column of structs of both.
fn beside(alloc: Global, x: VortexResult<Column>, y: VortexResult<Column>) -> VortexResult<Column> {
    struct_column(alloc, [("x", x?), ("y", y?)])
}

#[test]
fn types(rt: HostRuntime) {
    let alloc = rt.alloc();
    let fields = [("x", I32.into()), ("y", DType::Bool(Nullable))];
    let nothing: [(&str, DType); 0] = [];
    gives(
        &rt,
        struct_type(alloc, fields, Nullable),
        "{x=i32, y=bool?}?",
    );
    gives(&rt, struct_type(alloc, nothing, NonNullable), "{}");
}

#[test]
fn columns(rt: HostRuntime) {
    let alloc = rt.alloc();
    let numbers = vec![in alloc; 1u8, 2].expect(&rt, "memory");
    let none: [bool; 0] = [];
    gives(
        &rt,
        shown(alloc, column(alloc, [1u8, 2])),
        "[1u8, 2u8] of u8",
    );
    gives(
        &rt,
        shown(alloc, column_of(alloc, numbers)),
        "[1u8, 2u8] of u8",
    );
    gives(
        &rt,
        shown(alloc, column(alloc, [Some("a"), None])),
        "[\"a\", null] of utf8?",
    );
    gives(
        &rt,
        shown(alloc, column(alloc, [Some(1.5f64), None])),
        "[1.5f64, null] of f64?",
    );
    gives(&rt, shown(alloc, column(alloc, none)), "[] of bool");
}

#[test]
fn columns_of_structs(rt: HostRuntime) {
    let alloc = rt.alloc();
    let nothing: [(&str, Column); 0] = [];
    gives(
        &rt,
        shown(
            alloc,
            beside(alloc, column(alloc, [1, 2]), column(alloc, ["a", "b"])),
        ),
        "[{x: 1i32, y: \"a\"}, {x: 2i32, y: \"b\"}] of {x=i32, y=utf8}",
    );
    gives(
        &rt,
        shown(
            alloc,
            beside(alloc, column(alloc, [1, 2]), column(alloc, [true])),
        ),
        "columns of unequal length",
    );
    gives(&rt, shown(alloc, struct_column(alloc, nothing)), "[] of {}");
}

// The value of the tree over two rows.
fn over_rows(alloc: Global, tree: VortexResult<Expression>) -> VortexResult<String> {
    let rows = beside(alloc, column(alloc, [10, 1]), column(alloc, [i32::MAX, 1]));
    shown(alloc, apply(alloc, &rows?, &tree?))
}

#[test]
fn trees_are_applied(rt: HostRuntime) {
    let alloc = rt.alloc();
    let null: Option<i32> = None;
    gives(
        &rt,
        over_rows(
            alloc,
            and(
                alloc,
                gt_eq(alloc, col(alloc, "x"), lit(alloc, null)),
                lt_eq(alloc, col(alloc, "x"), lit(alloc, 5)),
            ),
        ),
        "[false, null] of bool?",
    );
    gives(
        &rt,
        over_rows(alloc, not(alloc, col(alloc, "x"))),
        "a truth type is needed",
    );
    gives(
        &rt,
        over_rows(alloc, checked_add(alloc, col(alloc, "x"), col(alloc, "y"))),
        "the result of row 0 is out of range",
    );
}

// Fields, structs, and names as they come.
use crate::forms::shown::gives;
use std::alloc::Global;
use vx_forms::{field, *};
use vx_tree::Nullability::{NonNullable, Nullable};
use vx_tree::PType::I32;
use vx_tree::{DType, Expression, FieldName, FieldNames, VortexResult};

fn s(alloc: Global) -> VortexResult<Expression> {
    col(alloc, "s")
}

#[test]
fn fields(rt: HostRuntime) {
    let alloc = rt.alloc();
    gives(&rt, get_item(alloc, "x", s(alloc)), "$.s.x");
    gives(&rt, field(alloc, "s.x.y"), "$.s.x.y");
    gives(&rt, field(alloc, "s."), "$.s.");
    gives(
        &rt,
        cast(
            alloc,
            get_item(alloc, "x", s(alloc)),
            DType::Primitive(I32, Nullable),
        ),
        "cast($.s.x as i32?)",
    );
    gives(&rt, select(alloc, ["a", "b"], s(alloc)), "$.s{a, b}");
    gives(
        &rt,
        select_exclude(alloc, ["a", "b"], s(alloc)),
        "$.s{~ a, b}",
    );
    gives(
        &rt,
        pack(alloc, [("a", s(alloc))], NonNullable),
        "pack(a: $.s)",
    );
    gives(
        &rt,
        pack(alloc, [("a", root()), ("b", root())], Nullable),
        "pack(a: $, b: $)?",
    );
}

fn names(alloc: Global) -> VortexResult<FieldNames> {
    let names = vec![in alloc; FieldName::new(alloc, "a")?]?;
    Ok(FieldNames::new(alloc, names)?)
}

#[test]
fn names_as_they_come(rt: HostRuntime) {
    let alloc = rt.alloc();
    let name = FieldName::new(alloc, "a").expect(&rt, "memory");
    let names = names(alloc).expect(&rt, "memory");
    gives(&rt, col(alloc, &name), "$.a");
    gives(&rt, select(alloc, [&name, &name], root()), "${a, a}");
    gives(&rt, select(alloc, &names, root()), "${a}");
    gives(&rt, select_exclude(alloc, names, root()), "${~ a}");
    gives(&rt, get_item(alloc, name, root()), "$.a");
}

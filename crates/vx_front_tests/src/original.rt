// Tests of the original, through the prelude.
use std::alloc::Global;
use std::process::Abort;
use vx_expr::dtype::Nullability::{NonNullable, Nullable};
use vx_expr::dtype::PType::{I32, U32};
use vx_expr::prelude::*;

// The node, of which that type and these children are asserted.
fn over(
    rt: &impl Abort,
    node: VortexResult<BoundExpression>,
    dtype: &DType,
    children: &[&BoundExpression],
) -> BoundExpression {
    let node = node.expect(rt, "a node");
    assert_eq!(rt; node.dtype(), dtype);
    assert!(rt; node.children().iter().eq(children.iter().copied()));
    node
}

#[test]
fn bound_constructors_preserve_order_and_types(rt: HostRuntime) -> VortexResult<()> {
    let alloc = rt.alloc();
    let scope = struct_type(alloc, [("value", I32.into())], NonNullable)?;
    let unbound = expr!(in alloc; case_when(gt(col("value"), lit(5)), col("value"), lit(5)));
    let unbound = unbound.bind(alloc, &scope)?;

    let value = bound::get_item(alloc, "value", bound::root(scope))?;
    let literal = bound::lit(alloc, 5)?;
    let condition = bound::gt(alloc, &value, &literal);
    let truth = DType::Bool(NonNullable);
    let condition = over(&rt, condition, &truth, &[&value, &literal]);

    let case = bound::case_when(alloc, &condition, &value, &literal);
    let children = [&condition, &value, &literal];
    let case = over(&rt, case, &I32.into(), &children);
    assert_eq!(rt; unbound, case);

    let types = [("condition", truth), ("value", I32.into())];
    let types = struct_type(alloc, types, NonNullable)?;
    let fields = [("condition", &condition), ("value", &case)];
    let packed = bound::pack(alloc, fields, NonNullable);
    over(&rt, packed, &types, &[&condition, &case]);
    Ok(())
}

#[test]
fn test_display_tree_pack(rt: HostRuntime) -> VortexResult<()> {
    let alloc = rt.alloc();
    let select_from_pack_expr = expr!(in alloc; select(
        ["fizz", "buzz"],
        pack(
            [
                ("fizz", root()),
                ("bar", lit(5)),
                ("buzz", eq(lit(42), get_item("answer", root()))),
            ],
            Nullable
        )
    ));
    let text = select_from_pack_expr.display_tree().to_string(alloc)?;
    assert_eq!(rt;
        text.as_str(),
        "vortex.select({fizz, buzz})
└── child: vortex.pack(names: [fizz, bar, buzz], nullability: Nullable)
    ├── fizz: vortex.root()
    ├── bar: vortex.literal(5i32)
    └── buzz: vortex.binary(=)
        ├── lhs: vortex.literal(42i32)
        └── rhs: vortex.get_item(answer)
            └── input: vortex.root()"
    );
    Ok(())
}

#[test]
fn null_literal_bound_is_value_preserving(rt: HostRuntime) -> VortexResult<()> {
    let alloc = rt.alloc();
    let null: Option<i32> = None;
    let expr = expr!(in alloc; and(gt_eq(col("x"), lit(null)), lt_eq(col("x"), lit(5))));
    let data = struct_column(alloc, [("x", column(alloc, [10, 1])?)])?;

    let before = apply(alloc, &data, &expr)?;

    let bound = expr.bind(alloc, data.dtype())?;
    let rewritten = find_between(alloc, bound)?;
    let after = apply_bound(alloc, &data, &rewritten)?;

    assert_eq!(rt; before, after);
    let expected = column(alloc, [Some(false), None])?;
    assert_eq!(rt; before, expected);
    Ok(())
}

fn scope(alloc: Global) -> VortexResult<DType> {
    let a = struct_type(alloc, [("x", I32.into()), ("y", I32.into())], NonNullable)?;
    let fields = [("a", a), ("b", I32.into()), ("c", I32.into())];
    struct_type(alloc, fields, NonNullable)
}

#[test]
fn ancestor_path_subsumes_descendant(rt: HostRuntime) -> VortexResult<()> {
    let alloc = rt.alloc();
    let expr =
        expr!(in alloc; pack([("a", col("a")), ("x", get_item("x", col("a")))], NonNullable));
    let bound = expr.bind(alloc, &scope(alloc)?)?;

    let set = referenced_field_paths(alloc, &bound)?;
    let a = FieldPath::from_name(alloc, FieldName::new(alloc, "a")?)?;
    assert!(rt; set.iter().eq([&a].into_iter()));
    Ok(())
}

#[test]
fn test_expr_top_level_ref_get_item_and_split_pack(rt: HostRuntime) -> VortexResult<()> {
    let alloc = rt.alloc();
    let dtype = scope(alloc)?;
    let expected = expr!(in alloc; pack(
        [
            ("a_0", get_item("x", get_item("a", root()))),
            ("a_1", get_item("y", get_item("a", root()))),
        ],
        NonNullable
    ));
    let expected = expected.bind(alloc, &dtype)?;
    let expr = expr!(in alloc; pack(
        [
            ("x", get_item("x", get_item("a", root()))),
            ("y", get_item("y", get_item("a", root()))),
            ("c", get_item("c", root())),
        ],
        NonNullable
    ));
    let bound = expr.bind(alloc, &dtype)?;
    let fields = dtype.as_struct_fields_opt().expect(&rt, "a struct");
    let keys = |node: &BoundExpression| free_fields(alloc, node, fields);
    let partitioned = partition_bound(alloc, bound, keys)?;

    let a = FieldName::new(alloc, "a")?;
    let split_a = partitioned.find_partition(alloc, &a)?;
    assert_eq!(rt; split_a, Some(&expected));
    Ok(())
}

// A row of pets, as a literal.
fn pets(alloc: Global) -> VortexResult<Expression> {
    let pets = [
        ("dog", scalar(alloc, 32u32)?),
        ("cat", scalar(alloc, "rufus")?),
    ];
    lit(alloc, struct_row(alloc, pets)?)
}

#[test]
fn lit_types(rt: HostRuntime) -> VortexResult<()> {
    let alloc = rt.alloc();
    let fields = [("dog", U32.into()), ("cat", DType::Utf8(NonNullable))];
    let sdtype = struct_type(alloc, fields, NonNullable)?;
    let dtype = pets(alloc)?.return_dtype(alloc, &sdtype)?;
    assert_eq!(rt; dtype, sdtype);
    Ok(())
}

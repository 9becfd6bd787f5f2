// Names, types and their fields.
use crate::looks::{differs, gives, refuses, same, shows};
use vx_dtype::FloatType;
use vx_test_support::{dtype, i32_type, names, reads};
use vx_tree::Nullability::{NonNullable, Nullable};
use vx_tree::test_harness::struct_dtype;
use vx_tree::{DType, FieldName, FieldNames, Nullability};

#[test]
fn names_are_found_at_their_first_place(rt: HostRuntime) {
    let alloc = rt.alloc();
    let all = names(alloc, "x y x", ' ').expect(&rt, "names");
    assert_eq!(rt; all.len(), 3);
    assert!(rt; !all.is_empty());
    gives(&rt, all.clone(), &all);
    let none = FieldNames::empty(alloc).expect(&rt, "names");
    assert!(rt; none.is_empty());
    let x = FieldName::new(alloc, "x").expect(&rt, "a name");
    assert_eq!(rt; x.as_str(), "x");
    assert!(rt; reads(&x, "x"));
    assert_eq!(rt; all.find(&x), Some(0));
    let z = FieldName::new(alloc, "z").expect(&rt, "a name");
    assert_eq!(rt; all.find(&z), None);
    assert!(rt; all.get(2).is_some_and(|name| *name == x));
    assert!(rt; all.get(3).is_none());
    assert_eq!(rt; all.iter().filter(|name| **name == x).count(), 2);
}

#[test]
fn fields_are_found_by_their_first_name(rt: HostRuntime) {
    let alloc = rt.alloc();
    let row = dtype(alloc, "{x=i32,y=utf8?,x=bool?}").expect(&rt, "a type");
    let row = row.as_struct_fields_opt().expect(&rt, "a struct");
    assert_eq!(rt; row.nfields(), 3);
    assert_eq!(rt; row.names().len(), 3);
    let x = FieldName::new(alloc, "x").expect(&rt, "a name");
    assert!(rt; row.field(&x).is_some_and(|dtype| reads(dtype, "i32")));
    let z = FieldName::new(alloc, "z").expect(&rt, "a name");
    assert!(rt; row.field(&z).is_none());
    let number = dtype(alloc, "i32?").expect(&rt, "a type");
    assert!(rt; number.as_struct_fields_opt().is_none());
}

#[test]
fn fields_are_projected_and_left_out(rt: HostRuntime) {
    let alloc = rt.alloc();
    let row = dtype(alloc, "{x=i32,y=utf8?,x=bool?}").expect(&rt, "a type");
    let row = row.as_struct_fields_opt().expect(&rt, "a struct");
    let left_out = names(alloc, "x", ' ').expect(&rt, "names");
    let left = row.without(alloc, &left_out).expect(&rt, "fields");
    assert_eq!(rt; left.names().len(), 1);
    let asked = names(alloc, "y x", ' ').expect(&rt, "names");
    let some = row.project(alloc, &asked);
    let projected = some.map(|fields| DType::Struct(fields, NonNullable));
    let projected = projected.expect(&rt, "a type");
    assert!(rt; reads(&projected, "{y=utf8?, x=i32}"));
    assert!(rt; projected.as_struct_fields_opt().is_some());
    let asked = names(alloc, "y z w", ' ').expect(&rt, "names");
    refuses(&rt, row.project(alloc, &asked), "no such field: z");
}

#[test]
fn types_differ_in_nullability_or_in_more(rt: HostRuntime) {
    let alloc = rt.alloc();
    let number = dtype(alloc, "i32").expect(&rt, "a type");
    assert!(rt; number.nullability() == NonNullable);
    assert!(rt; !number.is_nullable());
    shows(&rt, i32_type(NonNullable).as_nullable(), "i32?");
    same(
        &rt,
        i32_type(Nullable).with_nullability(NonNullable),
        &number,
    );
    let float = DType::Float(FloatType::F64, Nullable);
    assert!(rt; reads(&float, "f64?") && float.is_nullable());
    gives(&rt, dtype(alloc, "f64?"), &float);
    let single = DType::from(FloatType::F32);
    differs(&rt, single, &float.with_nullability(NonNullable));
    assert!(rt; Nullable.admits_null() && !NonNullable.admits_null());
    assert!(rt; Nullability::of(true) == Nullable);
    let wide = dtype(alloc, "{x=i32?}").expect(&rt, "a type");
    let narrow = dtype(alloc, "{x=i32}?").expect(&rt, "a type");
    assert!(rt; narrow.eq_ignore_nullability(&wide));
    let other = dtype(alloc, "{y=i32?}").expect(&rt, "a type");
    assert!(rt; !wide.eq_ignore_nullability(&other));
    differs(&rt, narrow, &wide);
    let harness = struct_dtype(alloc).expect(&rt, "a type");
    let text = "{a=i32, col1=u16?, col2=u16?, bool1=bool, bool2=bool}";
    assert!(rt; reads(&harness, text));
}

// What a path is made of.
use std::alloc::Global;
use vx_tree::{FieldName, VortexResult};
use vx_value::FieldPath;

/// The path to the field of that name.
fn outer(alloc: Global, name: &str) -> VortexResult<FieldPath> {
    FieldPath::from_name(alloc, FieldName::new(alloc, name)?)
}

/// The path to the field inside the other.
fn inner(alloc: Global, path: &FieldPath, name: &str) -> VortexResult<FieldPath> {
    path.clone()?.push(alloc, FieldName::new(alloc, name)?)
}

#[test]
fn a_path_is_its_parts(rt: HostRuntime) {
    let alloc = rt.alloc();
    let root = FieldPath::root(alloc).expect(&rt, "a path");
    assert!(rt; root.is_root());
    let a = outer(alloc, "a").expect(&rt, "a path");
    assert!(rt; !a.is_root());
    let a_x = inner(alloc, &a, "x").expect(&rt, "a path");
    assert_eq!(rt; a_x.parts().len(), 2);
    assert!(rt; a_x.parts()[0] == a.parts()[0]);
    assert!(rt; a_x != a);
}

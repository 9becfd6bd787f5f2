// The reader, used.
use crate::FieldColumns;
use std::alloc::Global;
use std::test::Fail;
use vx_array::Array;
use vx_array_build::primitive;
use vx_array_projection::ArrayReader;
use vx_dtype::{FieldName, FieldNames, VortexResult};
use vx_value::{FieldPath, FieldPathSet};

fn numbers(alloc: Global, first: i32, second: i32) -> VortexResult<Array> {
    primitive(alloc, vec![in alloc; first, second]?, None)
}

fn field_a(alloc: Global) -> VortexResult<FieldPathSet> {
    let path = FieldPath::from_name(alloc, FieldName::new(alloc, "a")?)?;
    let asked = vec![in alloc; path]?;
    let mut paths = FieldPathSet::new(alloc);
    paths.extend(asked)?;
    Ok(paths)
}

// Rows of `{a=i32, b=i32}`, of which only `a` may be read.
fn reader(alloc: Global) -> VortexResult<FieldColumns> {
    let columns = vec![in alloc; numbers(alloc, 1, 2)?, numbers(alloc, 3, 4)?]?;
    let names = vec![in alloc; FieldName::new(alloc, "a")?, FieldName::new(alloc, "b")?]?;
    let names = FieldNames::new(alloc, names)?;
    FieldColumns::try_new(alloc, names, columns, 2, field_a(alloc)?)
}

#[test]
fn only_what_is_asked_is_read(rt: HostRuntime) -> Result<(), Fail> {
    let alloc = rt.alloc();
    let reader = reader(alloc).expect(&rt, "a reader");
    let read = reader.read(alloc, &reader.allowed).expect(&rt, "an array");
    let column = read.to_column(alloc).expect(&rt, "a column");
    let text = format!(in alloc; "{column}").expect(&rt, "a text");
    assert!(rt;
        text.as_str() == "[{a: 1i32, b: 0i32}, {a: 2i32, b: 0i32}]",
        "{text}"
    );
    Ok(())
}

// A column of structs that has no columns and may be null, of which no row of a table is made.
use std::alloc::Global;
use vx_test_support::reads;
use vx_tree::Nullability::Nullable;
use vx_tree::{Column, FieldNames, VortexResult};

fn of_no_columns(alloc: Global, rows: usize) -> VortexResult<Column> {
    let names = FieldNames::empty(alloc)?;
    Column::struct_of(alloc, names, Vec::new(alloc), rows, Nullable)
}

#[test]
fn no_columns_have_rows_too(rt: HostRuntime) {
    let column = of_no_columns(rt.alloc(), 2).expect(&rt, "a column");
    assert!(rt; column.dtype().is_nullable());
    assert!(rt; reads(&column, "[{}, {}]"), "{column}");
}

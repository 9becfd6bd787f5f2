// Columns and values: their parts, and the batch that is refused.
use crate::looks::{answers, differs, gives, refuses, same};
use std::alloc::Global;
use std::process::Abort;
use std::test::Fail;
use vx_eval::apply_bound;
use vx_test_support::{bound, column, dtype, i32_type, reads, values};
use vx_tree::Nullability::Nullable;
use vx_tree::{Column, Value, VortexError, VortexResult};

#[test]
fn a_column_is_its_type_and_its_rows(rt: HostRuntime) {
    let alloc = rt.alloc();
    let column = column(alloc, "i32?", "7 null").expect(&rt, "a column");
    assert_eq!(rt; column.len(), 2);
    assert!(rt; !column.is_empty());
    assert!(rt; reads(column.dtype(), "i32?"));
    assert!(rt; matches!(column.row(0), Value::Int(7)));
    assert!(rt; column.row(1).is_null());
    assert!(rt; column.shared_rows().is_none());
    let one = vx_test_support::column(alloc, "i32?", "7");
    differs(&rt, one.expect(&rt, "a column"), &column);
}

/// A column of the same rows, which both share.
fn sharing(alloc: Global, column: &Column) -> VortexResult<Column> {
    let dtype = column.dtype().clone()?;
    // (what it promises is that the rows fit)
    let _rows = column.rows();
    match column.shared_rows() {
        Some(rows) => Ok(Column::from_shared(dtype, rows.clone()?)),
        None => Err(VortexError::LengthMismatch),
    }
}

#[test]
fn columns_share_their_rows(rt: HostRuntime) {
    let alloc = rt.alloc();
    let column = column(alloc, "i32?", "7 null").expect(&rt, "a column");
    let copy = column.clone().expect(&rt, "memory");
    let shared = copy.into_shared(alloc).expect(&rt, "a column");
    gives(&rt, sharing(alloc, &shared), &column);
    same(&rt, shared, &column);
}

/// Asserts whether the value of the word is one of the type.
fn fits(rt: &impl Abort, alloc: Global, word: &str, kind: &str, wanted: bool) {
    let dtype = dtype(alloc, kind).expect(rt, "a type");
    let value = vx_test_support::value(alloc, word).expect(rt, "a value");
    assert!(rt; value.fits(&dtype) == wanted, "{word} of {kind}");
}

#[test]
fn values_fit_or_not(rt: HostRuntime) {
    let alloc = rt.alloc();
    fits(&rt, alloc, "[1,2]", "fixed_size_list(i32)[2]", true);
    fits(&rt, alloc, "[1]", "fixed_size_list(i32)[2]", false);
    fits(&rt, alloc, "null", "fixed_size_list(i32)[2]", false);
    fits(&rt, alloc, "null", "fixed_size_list(i32)[2]?", true);
    let two = values(alloc, "[1,2] null false").expect(&rt, "values");
    gives(&rt, two.clone(), &two);
    assert!(rt;
        matches!(two.as_slice(), [list, null, truth]
            if !list.is_null() && null.is_null() && !truth.is_null())
    );
}

/// What the tree of the text, over `i32?`, answers on one row of `i32`.
fn over_narrower(alloc: Global, text: &str) -> Result<VortexResult<Column>, Fail> {
    let bound = bound(alloc, text, &i32_type(Nullable))?;
    let rows = column(alloc, "i32", "1")?;
    Ok(apply_bound(alloc, &rows, &bound))
}

#[test]
fn a_batch_of_another_type_is_refused(rt: HostRuntime) -> Result<(), Fail> {
    let alloc = rt.alloc();
    answers(&rt, over_narrower(alloc, "1")?, "[1i32]");
    refuses(
        &rt,
        over_narrower(alloc, "$")?,
        "the column isn't of the scope's type",
    );
    Ok(())
}

// Arrays as they are shown, their nulls, and arrays one after another.
use std::alloc::Global;
use std::num::f64_from_bits_with_nan;
use vx_expr::arrays::{
    Array, ArrayChunk, BitPart, Bits, Validity, concat, days, floats, instants, primitive,
    scan_chunks, stats_of_array, struct_of, texts,
};
use vx_expr::dtype::Nullability::NonNullable;
use vx_expr::dtype::PType::I32;
use vx_expr::dtype::{TimeUnit, TimestampType};
use vx_expr::prelude::*;

/// Three texts, of which the second one is null.
fn fruits(alloc: Global) -> VortexResult<Array> {
    let validity = all_but_the_second(alloc)?;
    texts(alloc, &["pear", "plum", "fig"], Some(validity))
}

/// The texts, twice.
fn more_fruits(alloc: Global) -> VortexResult<Array> {
    let first = fruits(alloc)?;
    let dtype = first.dtype().clone()?;
    concat(alloc, &dtype, &[first, fruits(alloc)?])
}

#[test]
fn arrays_one_after_another_are_shown(rt: HostRuntime) -> VortexResult<()> {
    let alloc = rt.alloc();
    let all = more_fruits(alloc)?;
    let page = format!(in alloc; "{all} {} {}", all.null_count(), all.is_null(4))?;
    assert_eq!(rt;
        page.as_str(),
        r#"["pear", null, "fig", "pear", null, "fig"] 2 true"#
    );
    Ok(())
}

/// The rows of the array, twice, and its type.
fn twice(alloc: Global, array: &Array) -> VortexResult<String> {
    let dtype = array.dtype();
    let all = concat(alloc, dtype, &[array.clone()?, array.clone()?])?;
    Ok(format!(in alloc; "{all} of {dtype}")?)
}

/// Of three rows, all but the second one.
fn all_but_the_second(alloc: Global) -> VortexResult<Validity> {
    let valid = Bits::from_bools(alloc, &[true, false, true])?;
    Ok(Validity::Rows(BitPart::new(alloc, valid)?))
}

#[test]
fn days_and_instants_are_shown(rt: HostRuntime) -> VortexResult<()> {
    let alloc = rt.alloc();
    let validity = all_but_the_second(alloc)?;
    let some_days = days(alloc, vec![in alloc; 19753i32, 0, -1]?, Some(validity))?;
    assert_eq!(rt;
        twice(alloc, &some_days)?.as_str(),
        "[2024-01-31, null, 1969-12-31, 2024-01-31, null, 1969-12-31] of date?"
    );
    let seconds = TimestampType {
        unit: TimeUnit::Seconds,
        zone: None,
    };
    let found = instants(alloc, seconds, vec![in alloc; -1i64, 4294967296]?, None)?;
    assert_eq!(rt;
        twice(alloc, &found)?.as_str(),
        "[1969-12-31T23:59:59, 2106-02-07T06:28:16, 1969-12-31T23:59:59, 2106-02-07T06:28:16] of timestamp(s)"
    );
    Ok(())
}

#[test]
fn floats_are_shown(rt: HostRuntime) -> VortexResult<()> {
    let alloc = rt.alloc();
    let nan = f64_from_bits_with_nan(0xfff0_0000_0000_0001);
    let doubles = floats(alloc, vec![in alloc; 9.99f64, -0.0, nan]?, None)?;
    assert_eq!(rt;
        twice(alloc, &doubles)?.as_str(),
        "[9.99f64, -0.0f64, nanf64, 9.99f64, -0.0f64, nanf64] of f64"
    );
    let validity = all_but_the_second(alloc)?;
    let singles = floats(alloc, vec![in alloc; 0.1f32, 0.2, 0.3]?, Some(validity))?;
    assert_eq!(rt;
        twice(alloc, &singles)?.as_str(),
        "[0.1f32, null, 0.3f32, 0.1f32, null, 0.3f32] of f32?"
    );
    Ok(())
}

#[test]
fn arrays_of_two_types_are_refused(rt: HostRuntime) -> VortexResult<()> {
    let alloc = rt.alloc();
    let numbers = primitive(alloc, vec![in alloc; 1i32, 2]?, None)?;
    let joined = concat(alloc, fruits(alloc)?.dtype(), &[numbers]);
    assert!(rt; matches!(joined, Err(VortexError::ScopeMismatch)));
    Ok(())
}

/// Of which rows of chunks `x` is above 5, by statistics where these tell: a digit for each row.
fn scanned(alloc: Global, batches: &[Array]) -> VortexResult<String> {
    let schema = struct_type(alloc, [("x", I32.into())], NonNullable)?;
    let filter = expr!(in alloc; gt(col("x"), lit(5)));
    let planned = plan(alloc, &filter, &schema)?;
    let mut chunks = Vec::new(alloc);
    for batch in batches {
        let stats = stats_of_array(alloc, batch, planned.paths())?;
        chunks.push(ArrayChunk::new(batch, stats))?;
    }
    let mut page = String::new(alloc);
    for rows in scan_chunks(alloc, &planned, chunks.into_iter()) {
        let rows = rows?;
        for i in 0..rows.len() {
            page.push(if rows.get(i) { '1' } else { '0' })?;
        }
        page.push(' ')?;
    }
    Ok(page)
}

#[test]
fn chunks_are_scanned_one_after_the_other(rt: HostRuntime) -> VortexResult<()> {
    let alloc = rt.alloc();
    let mut batches = Vec::new(alloc);
    for numbers in [
        vec![in alloc; 1i32, 2]?,
        vec![in alloc; 3, 7, 9]?,
        vec![in alloc; 6, 8]?,
    ] {
        let names = ["x"].into_field_names(alloc)?;
        let count = numbers.len();
        let x = primitive(alloc, numbers, None)?;
        batches.push(struct_of(alloc, names, &[x], count, None)?)?;
    }
    let page = scanned(alloc, batches.as_slice())?;
    assert_eq!(rt; page.as_str(), "00 011 11 ");
    Ok(())
}

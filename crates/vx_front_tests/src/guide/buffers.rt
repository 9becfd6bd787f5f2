// The same program over columns in typed buffers.
use super::{reorders, rows};
use std::alloc::Global;
use vx_expr::arrays::{Array, ArrayPlanReader, primitive, scan_array, struct_of};
use vx_expr::prelude::*;

/// Of which rows of a batch in typed buffers, made of vectors, the filter is true.
fn rows_of_buffers(alloc: Global, planned: &ScanPlan) -> VortexResult<Array> {
    let price = primitive(alloc, vec![in alloc; 12i32, 7, 30]?, None)?;
    let stock = primitive(alloc, vec![in alloc; 3i32, 0, 5]?, None)?;
    let names = ["price", "stock"].into_field_names(alloc)?;
    let batch = struct_of(alloc, names, &[price, stock], 3, None)?;
    scan_array(
        alloc,
        &ArrayPlanReader::new(&batch, planned.paths()),
        planned,
    )
}

#[test]
fn rows_of_buffers_are_those_of_columns(rt: HostRuntime) -> VortexResult<()> {
    let alloc = rt.alloc();
    let planned = reorders(alloc)?;
    let found = rows_of_buffers(alloc, &planned)?.to_column(alloc)?;
    assert!(rt; found == rows(alloc, &planned)?);
    Ok(())
}

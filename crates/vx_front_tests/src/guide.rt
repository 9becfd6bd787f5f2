// The program that the guide begins with.
mod buffers;

use std::alloc::Global;
use vx_expr::dtype::Nullability::NonNullable;
use vx_expr::dtype::PType::I32;
use vx_expr::prelude::*;

/// What isn't cheap and is nearly sold out, planned for every batch of one schema.
fn reorders(alloc: Global) -> VortexResult<ScanPlan> {
    let fields = [("price", I32.into()), ("stock", I32.into())];
    let schema = struct_type(alloc, fields, NonNullable)?;
    let filter = expr!(in alloc; and(gt_eq(col("price"), lit(10)), lt(col("stock"), lit(5))));
    plan(alloc, &filter, &schema)
}

/// Of which rows of a batch that is so.
fn rows(alloc: Global, planned: &ScanPlan) -> VortexResult<Column> {
    let (price, stock) = (column(alloc, [12, 7, 30])?, column(alloc, [3, 0, 5])?);
    let batch = struct_column(alloc, [("price", price), ("stock", stock)])?;
    scan(alloc, &planned.reader_of(batch), planned)
}

#[test]
fn a_filter_is_planned_and_scanned(rt: HostRuntime) -> VortexResult<()> {
    let alloc = rt.alloc();
    let planned = reorders(alloc)?;
    let paths: Vec<&FieldPath> = planned.paths().iter().collect(alloc)?;
    let split = planned.split().expect(&rt, "a split");
    let rows = rows(alloc, &planned)?;
    let page = format!(in alloc; "{paths:?}\n{split}\n{rows}")?;
    assert_eq!(rt;
        page.as_str(),
        r#"[[Name("price")], [Name("stock")]]
root: ($.price.price_0 and $.stock.stock_0) {price: pack(price_0: ($.price >= 10i32)), stock: pack(stock_0: ($.stock < 5i32))}
[true, false, false]"#
    );
    Ok(())
}

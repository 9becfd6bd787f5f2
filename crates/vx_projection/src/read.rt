// Batches of which only what lies along some paths is kept.
ghost use Rattle.std.specs.Prelude.{◌≡◌, Ok, IfOk, map};
ghost use Rattle.vx_value.specs.Returns.{ReturnsOrOom};
ghost use Rattle.vx_value.specs.Columns.{first_misfit};
ghost use Rattle.vx_value.specs.Paths.{minimal_paths};
ghost use Rattle.vx_value.specs.Views.{type_of, value_of};
ghost use Rattle.vx_projection.specs.Kept.{kept, kept_batch};
ghost use Rattle.vx_projection.specs.Wanted.{taken, wanted, wanted_of};

use crate::along::lent;
use crate::wanted::{Wanted, wanted_along};
use std::alloc::{AllocError, Global};
use std::sync::Arc;
use vx_dtype::VortexResult;
use vx_value::{Column, FieldPathSet, Value};

/// The batch with the values along the paths of [`FieldPathSet::iter`] alone, null structs on the way
/// among them, and a default in place of all others: null where the type is nullable, else false, 0,
/// an empty text, no byte, no item, and a fixed list or a struct of defaults. Refuses with
/// `OutOfMemory` (1) alone.
pub fn read_referenced(alloc: Global, batch: &Column, paths: &FieldPathSet) -> VortexResult<Column>
    ensures { ReturnsOrOom (λ c. c) result (Ok (kept_batch (minimal_paths paths.now) batch.now)) }
{
    // (what it promises is that the rows fit)
    let _rows = batch.rows();
    let dtype = batch.dtype();
    let along = lent(alloc, paths)?;
    let wanted = wanted_along(alloc, dtype, along)?;
    let rows = taken_rows(alloc, &wanted, batch)?;
    let dtype = dtype.clone()?;
    Ok(Column::from_shared(dtype, Arc::new(alloc, rows)?))
}

// What is wanted of each row.
fn taken_rows(alloc: Global, wanted: &Wanted, batch: &Column) -> Result<Vec<Value>, AllocError>
    ensures { IfOk result (λ vs. map value_of vs.items ≡ map (taken (wanted_of wanted.now)) batch.now.rows) }
{
    let rows = batch.rows();
    let mut made = Vec::with_capacity(alloc, rows.len())?;
    for i in 0..rows.len() {
        made.push(wanted.of(alloc, &rows[i])?)?;
    }
    Ok(made)
}

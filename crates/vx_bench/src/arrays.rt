// Queries over columns in typed buffers.
use crate::digest::Digest;
use crate::last_of;
use crate::query::Query;
use std::alloc::Global;
use vx_array_build::from_column;
use vx_array_eval::apply_array;
use vx_dtype::VortexResult;

/// The digest of the query's rows over an array of its batch.
pub fn over_arrays(alloc: Global, query: Query, rows: usize, repeats: u32) -> VortexResult<Digest> {
    let column = query.batch(alloc, rows)?;
    let batch = from_column(alloc, &column)?;
    drop(column);
    let source = query.tree(alloc)?;
    let tree = source.bind(alloc, batch.dtype())?;
    match last_of(repeats, || apply_array(alloc, &batch, &tree))? {
        Some(array) => Ok(Digest::of(&array.to_column(alloc)?)),
        None => Ok(Digest::default()),
    }
}

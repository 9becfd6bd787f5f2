// Rows of arrays: those of given indices, and those at which a mask is true.
ghost use Rattle.std.specs.Prelude.{◌≡◌, Ok, length};
ghost use Rattle.vx_dtype.specs.Returns.{ReturnsOrOom};
ghost use Rattle.vx_value.specs.Columns.{batch};
ghost use Rattle.vx_array_build.specs.Taken.{AreWithin, rows_at, rows_where};

use crate::gather::true_rows;
use crate::taken::taken;
use std::alloc::Global;
use vx_array::Array;
use vx_array_loops::Bits;
use vx_dtype::VortexResult;

/// The rows of these indices in their order, of which one may be there more than once. Asks indices of rows,
/// which `are_within` tests. Refuses with `OutOfMemory` (1) alone.
pub fn take(alloc: Global, array: &Array, indices: &[usize]) -> VortexResult<Array>
    requires { AreWithin indices.now (length array.now.rows) }
    ensures { ReturnsOrOom (λ a. a) result (Ok (batch array.now.type (rows_at array.now.rows indices.now))) }
{
    let lanes = taken(alloc, array.lanes(), indices)?;
    let dtype = array.dtype().clone()?;
    Ok(Array::new(dtype, lanes))
}

/// The rows at which the mask is true, in their order. Asks as many truth values as rows. Refuses with
/// `OutOfMemory` (1) alone.
pub fn filter(alloc: Global, array: &Array, mask: &Bits) -> VortexResult<Array>
    requires { length mask.now ≡ length array.now.rows }
    ensures { ReturnsOrOom (λ a. a) result (Ok (batch array.now.type (rows_where array.now.rows mask.now))) }
{
    let indices = true_rows(alloc, mask)?;
    take(alloc, array, indices.as_slice())
}

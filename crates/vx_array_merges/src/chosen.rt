// Rows that conditions choose, in buffers.
ghost use Rattle.std.specs.Prelude.{◌≡◌, IfOk, IfSome};
ghost use Rattle.vx_value.specs.Columns.{batch};
ghost use Rattle.vx_value.specs.Fits.{IsBatch};
ghost use Rattle.vx_value.specs.Views.{type_of};
ghost use Rattle.vx_array.specs.Rows.{lanes_each};
ghost use Rattle.vx_array_kernels.specs.Choices.{case_rows, EachLong};

use std::alloc::{AllocError, Global};
use vx_array::{Array, Lanes};
use vx_array_kernels::case_when;
use vx_dtype::DType;

/// Of conditions and values in turn the value beside the first condition that is true, else the last
/// column's value, else null. There is an answer where `case_when` has one. Asks columns of that many rows,
/// and chosen values of the type.
pub fn chosen(
    alloc: Global,
    count: usize,
    dtype: &DType,
    below: &[Lanes],
) -> Result<Option<Array>, AllocError>
    requires long { EachLong count (lanes_each below.now) }
    requires fit { IsBatch (type_of dtype.now) (case_rows count (lanes_each below.now)) }
    ensures { IfOk result (λ found. IfSome found (λ a. a ≡ batch (type_of dtype.now) (case_rows count (lanes_each below.now)))) }
{
    match case_when(alloc, count, dtype, below)? {
        Some(lanes) => Ok(Some(Array::new(dtype.clone()?, lanes))),
        None => Ok(None),
    }
}

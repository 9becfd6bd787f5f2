// Arrays of one value.
ghost use Rattle.std.specs.Prelude.{◌≡◌, Ok};
ghost use Rattle.std.proofs.Math.ListN.{replicate};
ghost use Rattle.vx_dtype.specs.Returns.{ReturnsOrOom};
ghost use Rattle.vx_value.specs.Columns.{batch};

use std::alloc::Global;
use std::sync::Arc;
use vx_array::{Array, Lanes};
use vx_dtype::VortexResult;
use vx_value::Scalar;

/// The array of so many rows that all are the scalar. Takes memory for one row, and refuses with
/// `OutOfMemory` (1) alone.
pub fn constant(alloc: Global, scalar: &Scalar, rows: usize) -> VortexResult<Array>
    ensures { ReturnsOrOom (λ a. a) result (Ok (batch scalar.now.type (replicate rows scalar.now.value))) }
{
    let value = Arc::new(alloc, scalar.value().clone()?)?;
    let dtype = scalar.dtype().clone()?;
    Ok(Array::new(dtype, Lanes::Same(value, rows)))
}

// Rows of which nothing is read.
ghost use Rattle.std.specs.Prelude.{◌≡◌, IfOk, replicate};
ghost use Rattle.vx_value.specs.Views.{type_of};
ghost use Rattle.vx_array.specs.Rows.{lanes_rows};
ghost use Rattle.vx_projection.specs.Defaults.{default_of};

use std::alloc::{AllocError, Global};
use std::sync::Arc;
use vx_array::Lanes;
use vx_dtype::DType;
use vx_projection::default_value;

// So many rows that are the default of the type.
pub(crate) fn defaults(alloc: Global, dtype: &DType, count: usize) -> Result<Lanes, AllocError>
    ensures { IfOk result (λ lanes. lanes_rows lanes ≡ replicate count (default_of (type_of dtype.now))) }
{
    let value = Arc::new(alloc, default_value(alloc, dtype)?)?;
    Ok(Lanes::Same(value, count))
}

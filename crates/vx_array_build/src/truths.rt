// Arrays of truth values.
ghost use Rattle.std.specs.Prelude.{◌≡◌, Ok, map};
ghost use Rattle.vx_dtype.specs.Returns.{ReturnsOrOom};
ghost use Rattle.vx_value.specs.Types.{atomic, bool, truth};
ghost use Rattle.vx_array_build.specs.Built.{column_by};

use crate::validity::{nullability, or_all};
use std::alloc::Global;
use vx_array::{Array, BitPart, Lanes, Validity};
use vx_array_loops::Bits;
use vx_dtype::{DType, VortexResult};

/// The array of these truth values. With a validity it is nullable, and has as many rows as both. Moves the
/// bits into it, and refuses with `OutOfMemory` (1) alone.
pub fn booleans(alloc: Global, truths: Bits, validity: Option<Validity>) -> VortexResult<Array>
    ensures { ReturnsOrOom (λ a. a) result (Ok (column_by (atomic truth) validity (map bool truths))) }
{
    let dtype = DType::Bool(nullability(&validity));
    let bits = BitPart::new(alloc, truths)?;
    Ok(Array::new(dtype, Lanes::Bools(bits, or_all(validity))))
}

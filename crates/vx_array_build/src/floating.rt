// Arrays of floating-point numbers, by their bits.
ghost use Rattle.std.specs.Prelude.{◌≡◌, Ok, map};
ghost use Rattle.vx_dtype.specs.Returns.{ReturnsOrOom};
ghost use Rattle.vx_value.specs.Types.{atomic, floating, int};
ghost use Rattle.vx_array_build.specs.Built.{column_by};
ghost use Rattle.vx_array_build.specs.FloatBits.{float_row};

use crate::float_bits::FloatBits;
use crate::validity::{nullability, or_all};
use std::alloc::Global;
use vx_array::{Array, Lanes, Part, Validity};
use vx_array_loops::Number;
use vx_dtype::{DType, VortexResult};

/// The array of the floating-point numbers with these bits. Bits of whichever NaN stand for the quiet one.
/// Moves them into it; otherwise as [`floats`](crate::floats).
pub fn floats_by_bits<T: FloatBits>(
    alloc: Global,
    bits: Vec<T>,
    validity: Option<Validity>,
) -> VortexResult<Array>
    ensures { ReturnsOrOom (λ a. a) result (Ok (column_by (atomic (floating T.format)) validity (map (float_row T.format) (map int (map T.number bits.items))))) }
{
    let dtype = DType::Float(T::float_type(), nullability(&validity));
    let floats = T::floats(Part::new(alloc, bits)?);
    Ok(Array::new(dtype, Lanes::Floats(floats, or_all(validity))))
}

// Arrays of whole numbers, and of what lies in buffers as such.
ghost use Rattle.std.specs.Prelude.{◌≡◌, ◌<◌, ℕ, Ok, Some, get_or, length, map, pos, true};
ghost use Rattle.vx_dtype.specs.Returns.{ReturnsOrOom};
ghost use Rattle.vx_dtype.specs.Timestamps as timestamps;
ghost use Rattle.vx_value.specs.Types.{atomic, date, int, number, shape_of};
ghost use Rattle.vx_value.specs.Views.{type_of};
ghost use Rattle.vx_array_build.specs.Built.{column_by};
ghost use Rattle.vx_array_build.specs.Lanes.{lane_of};

use crate::native::Native;
use crate::validity::{nullability, or_all};
use std::alloc::Global;
use vx_array::{Array, Lanes, Part, Validity};
use vx_array_loops::Number;
use vx_dtype::{DType, Nullability, TimestampType, VortexResult};

/// The array of these numbers. With a validity it is nullable, and has as many rows as both. Moves the
/// numbers into it, and refuses with `OutOfMemory` (1) alone.
pub fn primitive<T: Native>(
    alloc: Global,
    numbers: Vec<T>,
    validity: Option<Validity>,
) -> VortexResult<Array>
    ensures { ReturnsOrOom (λ a. a) result (Ok (column_by (atomic (number T.kind)) validity (map int (map T.number numbers.items)))) }
{
    in_lanes(alloc, DType::from(T::ptype()), numbers, validity)
}

/// The array of these days, counted from the first of January 1970. Otherwise as [`primitive`].
pub fn days(alloc: Global, days: Vec<i32>, validity: Option<Validity>) -> VortexResult<Array>
    ensures { ReturnsOrOom (λ a. a) result (Ok (column_by (atomic date) validity (map int days.items))) }
{
    in_lanes(alloc, DType::Date(Nullability::NonNullable), days, validity)
}

/// The array of these instants, counted from the beginning of the year 1970 in the type's unit. Otherwise as
/// [`primitive`].
pub fn instants(
    alloc: Global,
    timestamp: TimestampType,
    counts: Vec<i64>,
    validity: Option<Validity>,
) -> VortexResult<Array>
    ensures { ReturnsOrOom (λ a. a) result (Ok (column_by (atomic (timestamps.instants timestamp)) validity (map int counts.items))) }
{
    let dtype = DType::Timestamp(timestamp, Nullability::NonNullable);
    in_lanes(alloc, dtype, counts, validity)
}

/// The array of the values of a type that these numbers are. Asks a type whose rows lie in buffers of such
/// numbers, which [`lane_type`](crate::lane_type) tells, and leaves its nullability aside. Otherwise as
/// [`primitive`].
pub fn in_lanes<T: Native>(
    alloc: Global,
    dtype: DType,
    numbers: Vec<T>,
    validity: Option<Validity>,
) -> VortexResult<Array>
    requires { lane_of (shape_of (type_of dtype)) ≡ Some T.kind }
    ensures { ReturnsOrOom (λ a. a) result (Ok (column_by (shape_of (type_of dtype)) validity (map int (map T.number numbers.items)))) }
{
    see_range(numbers.as_slice());
    let dtype = dtype.with_nullability(nullability(&validity));
    let numbers = T::numbers(Part::new(alloc, numbers)?);
    Ok(Array::new(dtype, Lanes::Numbers(numbers, or_all(validity))))
}

// Each number is one of its type. Compilers leave the loop out.
fn see_range<T: Number>(numbers: &[T])
    ensures { (k : ℕ) → k < length numbers.now → T.fits (get_or (map T.number numbers.now) k (pos 0)) ≡ true }
{
    for i in 0..numbers.len() {
        let _ = numbers[i].widened();
    }
}

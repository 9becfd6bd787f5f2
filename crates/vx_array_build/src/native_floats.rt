// Arrays of Rust's floating-point numbers.
ghost use Rattle.std.specs.Prelude.{◌≡◌, ◌<◌, ℕ, IfOk, Ok, get_or, length, map, to_bits};
ghost use Rattle.std.specs.Float.{binary32, binary64};
ghost use Rattle.vx_dtype.specs.Returns.{ReturnsOrOom};
ghost use Rattle.vx_dtype.specs.declared.float_type.FloatType.{FloatType as Format};
ghost use Rattle.vx_dtype.specs.declared.float_type.FloatType.TheVariants as formats;
ghost use Rattle.vx_value.specs.Types.{atomic, float, floating};
ghost use Rattle.vx_array.specs.Kinds.{float_of};
ghost use Rattle.vx_array_build.specs.Built.{column_by};

use crate::floating::floats_by_bits;
use std::alloc::{AllocError, Global};
use std::num::{f32_to_bits_with_nan, f64_to_bits_with_nan};
use vx_array::{Array, Validity};
use vx_array_loops::tabulated;
use vx_dtype::VortexResult;

/// A floating-point number of Rust's.
pub trait NativeFloat: Copy + Drop {
    /// The format.
    ghost format: { Format };

    /// The bits of a number.
    ghost bits: { Self → ℕ };

    /// The array of these numbers, as [`floats`] gives it.
    fn array(alloc: Global, numbers: &[Self], validity: Option<Validity>) -> VortexResult<Array>
        ensures { ReturnsOrOom (λ a. a) result (Ok (column_by (atomic (floating format)) validity (map (λ x. float (float_of format (bits x))) numbers.now))) };
}

/// The array of these floating-point numbers, of which each NaN is the quiet one. With a validity it is
/// nullable, and has as many rows as both. Copies the numbers, and refuses with `OutOfMemory` (1) alone.
pub fn floats<F: NativeFloat>(
    alloc: Global,
    numbers: Vec<F>,
    validity: Option<Validity>,
) -> VortexResult<Array>
    ensures { ReturnsOrOom (λ a. a) result (Ok (column_by (atomic (floating F.format)) validity (map (λ x. float (float_of F.format (F.bits x))) numbers.items))) }
{
    F::array(alloc, numbers.as_slice(), validity)
}

impl NativeFloat for f32 {
    ghost format = { formats.F32 };

    ghost bits = { to_bits binary32 };

    fn array(alloc: Global, numbers: &[f32], validity: Option<Validity>) -> VortexResult<Array> {
        floats_by_bits(alloc, bits_in_32(alloc, numbers)?, validity)
    }
}

impl NativeFloat for f64 {
    ghost format = { formats.F64 };

    ghost bits = { to_bits binary64 };

    fn array(alloc: Global, numbers: &[f64], validity: Option<Validity>) -> VortexResult<Array> {
        floats_by_bits(alloc, bits_in_64(alloc, numbers)?, validity)
    }
}

// The bits of these numbers.
fn bits_in_32(alloc: Global, numbers: &[f32]) -> Result<Vec<u32>, AllocError>
    ensures { IfOk result (λ bits. bits.items ≡ map (to_bits binary32) numbers.now) }
{
    tabulated(alloc, numbers.len(), 0, |k| bits_at_32(numbers, k))
}

// The bits of these numbers.
fn bits_in_64(alloc: Global, numbers: &[f64]) -> Result<Vec<u64>, AllocError>
    ensures { IfOk result (λ bits. bits.items ≡ map (to_bits binary64) numbers.now) }
{
    tabulated(alloc, numbers.len(), 0, |k| bits_at_64(numbers, k))
}

// The bits of the number at that index.
#[inline(always)]
fn bits_at_32(numbers: &[f32], k: usize) -> u32
    requires { k < length numbers.now }
    ensures { result ≡ get_or (map (to_bits binary32) numbers.now) k 0 }
{
    f32_to_bits_with_nan(numbers[k])
}

// The bits of the number at that index.
#[inline(always)]
fn bits_at_64(numbers: &[f64], k: usize) -> u64
    requires { k < length numbers.now }
    ensures { result ≡ get_or (map (to_bits binary64) numbers.now) k 0 }
{
    f64_to_bits_with_nan(numbers[k])
}

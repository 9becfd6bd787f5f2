// Arithmetic on floating-point numbers in buffers, with each other and with one number.
ghost use Rattle.std.specs.Prelude.{◌≡◌, ◌≢◌, ◌<◌, ◌≤◌, ℕ, IfOk, IfSome, get_or, length};
ghost use Rattle.std.specs.Float.{binary32, binary64};
ghost use Rattle.vx_dtype.specs.declared.float_type.FloatType.{FloatType};
ghost use Rattle.vx_value.specs.Types as types;
ghost use Rattle.vx_array.specs.Kinds.{bits_in, format_in};
ghost use Rattle.vx_array_loops.specs.WordBits.{each_row};
ghost use Rattle.vx_array_loops.specs.declared.computation.Computation.TheVariants.{Remainder};
ghost use Rattle.vx_array_kernels.specs.Asked.{arithmetic_of};
ghost use Rattle.vx_array_kernels.specs.FloatResults.{AreResults, bits_result, raw_float};
ghost use Rattle.vx_array_kernels.specs.Found.{IsLong};
ghost use Rattle.vx_array_kernels.specs.Results.{FindsResults};

use crate::pair::Pair;
use std::alloc::{AllocError, Global};
use std::num::{
    f32_from_bits_with_nan, f32_to_bits_with_nan, f64_from_bits_with_nan, f64_to_bits_with_nan,
};
use vx_array::{Floats, Lanes, Part};
use vx_array_loops::{Computation, tabulated};
use vx_floats::Float;
use vx_value::Value;

/// What is computed of two columns of floating-point numbers. There is an answer where one has some in a
/// buffer, and the other some of the same format, or is one of them in all rows; not of `Remainder`.
pub fn compute_floats(
    alloc: Global,
    computation: Computation,
    pair: Pair,
) -> Result<Option<Lanes>, AllocError>
    requires { IsLong pair }
    ensures { (f : FloatType) → FindsResults (arithmetic_of computation) (types.atomic (types.floating f)) pair.entry result }
{
    match computation {
        Computation::Remainder => Ok(None),
        Computation::Sum | Computation::Difference | Computation::Product | Computation::Quotient =>
            compute_numbers(alloc, computation, pair),
    }
}

// The same of what isn't a remainder.
fn compute_numbers(
    alloc: Global,
    computation: Computation,
    pair: Pair,
) -> Result<Option<Lanes>, AllocError>
    requires long { IsLong pair }
    requires computed { computation ≢ Remainder }
    ensures { (f : FloatType) → FindsResults (arithmetic_of computation) (types.atomic (types.floating f)) pair.entry result }
{
    let count = pair.count;
    match (pair.lhs, pair.rhs) {
        (Lanes::Floats(floats, v), Lanes::Floats(others, w)) => {
            let Some(results) = beside(alloc, computation, count, floats, others)? else {
                return Ok(None);
            };
            Ok(Some(Lanes::Floats(results, v.and(alloc, w)?)))
        }
        (Lanes::Floats(floats, v), Lanes::Same(value, _)) => match value.as_ref() {
            Value::Float(other) => {
                let Some(results) = with(alloc, computation, count, floats, *other)? else {
                    return Ok(None);
                };
                Ok(Some(Lanes::Floats(results, v.clone()?)))
            }
            _ => Ok(None),
        },
        (Lanes::Same(value, _), Lanes::Floats(floats, v)) => match value.as_ref() {
            Value::Float(first) => {
                let Some(results) = before(alloc, computation, count, *first, floats)? else {
                    return Ok(None);
                };
                Ok(Some(Lanes::Floats(results, v.clone()?)))
            }
            _ => Ok(None),
        },
        _ => Ok(None),
    }
}

// What is computed of the first so many floating-point numbers and of those beside them, if both are of one
// format.
fn beside(
    alloc: Global,
    computation: Computation,
    count: usize,
    floats: &Floats,
    others: &Floats,
) -> Result<Option<Floats>, AllocError>
    requires floats { count ≤ length (bits_in floats.now) }
    requires others { count ≤ length (bits_in others.now) }
    ensures format { IfOk result (λ found. IfSome found (λ _. format_in others.now ≡ format_in floats.now)) }
    ensures results { IfOk result (λ found. IfSome found (AreResults computation (format_in floats.now) count (λ k. get_or (bits_in floats.now) k 0) (λ k. get_or (bits_in others.now) k 0))) }
{
    match (floats, others) {
        (Floats::F32(bits), Floats::F32(other)) => {
            let (bits, other) = (bits.as_slice(), other.as_slice());
            let results = results_32(
                alloc,
                computation,
                count,
                |k| bits_at_32(bits, k),
                |k| bits_at_32(other, k),
            )?;
            Ok(Some(Floats::F32(Part::new(alloc, results)?)))
        }
        (Floats::F64(bits), Floats::F64(other)) => {
            let (bits, other) = (bits.as_slice(), other.as_slice());
            let results = results_64(
                alloc,
                computation,
                count,
                |k| bits_at_64(bits, k),
                |k| bits_at_64(other, k),
            )?;
            Ok(Some(Floats::F64(Part::new(alloc, results)?)))
        }
        _ => Ok(None),
    }
}

// What is computed of the first so many floating-point numbers and of one, if it is of their format.
fn with(
    alloc: Global,
    computation: Computation,
    count: usize,
    floats: &Floats,
    other: Float,
) -> Result<Option<Floats>, AllocError>
    requires { count ≤ length (bits_in floats.now) }
    ensures { IfOk result (λ found. IfSome found (λ results. (b : ℕ) × (raw_float (format_in floats.now) b ≡ other) × AreResults computation (format_in floats.now) count (λ k. get_or (bits_in floats.now) k 0) (λ _. b) results)) }
{
    match (floats, other) {
        (Floats::F32(bits), Float::F32(other)) => {
            let bits = bits.as_slice();
            let results = results_32(
                alloc,
                computation,
                count,
                |k| bits_at_32(bits, k),
                |_| other,
            )?;
            Ok(Some(Floats::F32(Part::new(alloc, results)?)))
        }
        (Floats::F64(bits), Float::F64(other)) => {
            let bits = bits.as_slice();
            let results = results_64(
                alloc,
                computation,
                count,
                |k| bits_at_64(bits, k),
                |_| other,
            )?;
            Ok(Some(Floats::F64(Part::new(alloc, results)?)))
        }
        _ => Ok(None),
    }
}

// What is computed of one floating-point number and of the first so many, if it is of their format.
fn before(
    alloc: Global,
    computation: Computation,
    count: usize,
    first: Float,
    floats: &Floats,
) -> Result<Option<Floats>, AllocError>
    requires { count ≤ length (bits_in floats.now) }
    ensures { IfOk result (λ found. IfSome found (λ results. (b : ℕ) × (raw_float (format_in floats.now) b ≡ first) × AreResults computation (format_in floats.now) count (λ _. b) (λ k. get_or (bits_in floats.now) k 0) results)) }
{
    match (first, floats) {
        (Float::F32(first), Floats::F32(bits)) => {
            let bits = bits.as_slice();
            let results = results_32(
                alloc,
                computation,
                count,
                |_| first,
                |k| bits_at_32(bits, k),
            )?;
            Ok(Some(Floats::F32(Part::new(alloc, results)?)))
        }
        (Float::F64(first), Floats::F64(bits)) => {
            let bits = bits.as_slice();
            let results = results_64(
                alloc,
                computation,
                count,
                |_| first,
                |k| bits_at_64(bits, k),
            )?;
            Ok(Some(Floats::F64(Part::new(alloc, results)?)))
        }
        _ => Ok(None),
    }
}

// The bits at that index.
#[inline(always)]
fn bits_at_32(bits: &[u32], k: usize) -> u32
    requires { k < length bits.now }
    ensures { result ≡ get_or bits.now k 0 }
{
    bits[k]
}

// The bits of what is computed of the first so many numbers with the bits that the functions give.
#[inline(always)]
fn results_32<L: Fn(usize) -> u32, R: Fn(usize) -> u32>(
    alloc: Global,
    computation: Computation,
    count: usize,
    lhs: L,
    rhs: R,
) -> Result<Vec<u32>, AllocError>
    requires lhs { (k : ℕ) → k < count → L.pre lhs k }
    requires rhs { (k : ℕ) → k < count → R.pre rhs k }
    ensures { (f g : ℕ → ℕ) → ((k x : ℕ) → k < count → L.post lhs k x → x ≡ f k) → ((k y : ℕ) → k < count → R.post rhs k y → y ≡ g k) →
        IfOk result (λ out. out.items ≡ each_row count (λ k. bits_result computation binary32 (f k) (g k))) }
{
    match computation {
        Computation::Sum => tabulated_32(alloc, Computation::Sum, count, lhs, rhs),
        Computation::Difference => tabulated_32(alloc, Computation::Difference, count, lhs, rhs),
        Computation::Product => tabulated_32(alloc, Computation::Product, count, lhs, rhs),
        Computation::Quotient => tabulated_32(alloc, Computation::Quotient, count, lhs, rhs),
        Computation::Remainder => tabulated_32(alloc, Computation::Remainder, count, lhs, rhs),
    }
}

// The same, by one loop.
#[inline(always)]
fn tabulated_32<L: Fn(usize) -> u32, R: Fn(usize) -> u32>(
    alloc: Global,
    computation: Computation,
    count: usize,
    lhs: L,
    rhs: R,
) -> Result<Vec<u32>, AllocError>
    requires lhs { (k : ℕ) → k < count → L.pre lhs k }
    requires rhs { (k : ℕ) → k < count → R.pre rhs k }
    ensures { (f g : ℕ → ℕ) → ((k x : ℕ) → k < count → L.post lhs k x → x ≡ f k) → ((k y : ℕ) → k < count → R.post rhs k y → y ≡ g k) →
        IfOk result (λ out. out.items ≡ each_row count (λ k. bits_result computation binary32 (f k) (g k))) }
{
    tabulated(
        alloc,
        count,
        0,
        |k| result_at_32(computation, &lhs, k, &rhs),
    )
}

// The bits of what is computed of the two numbers at that index.
#[inline(always)]
fn result_at_32<L: Fn(usize) -> u32, R: Fn(usize) -> u32>(
    computation: Computation,
    lhs: &L,
    k: usize,
    rhs: &R,
) -> u32
    requires lhs { L.pre lhs.now k }
    requires rhs { R.pre rhs.now k }
    ensures { (x : ℕ) × (y : ℕ) × L.post lhs.now k x × R.post rhs.now k y × (result ≡ bits_result computation binary32 x y) }
{
    result_of_32(computation, lhs(k), rhs(k))
}

// The bits of what is computed of two numbers, zero of a remainder.
#[inline(always)]
fn result_of_32(computation: Computation, a: u32, b: u32) -> u32
    ensures { result ≡ bits_result computation binary32 a b }
{
    let (x, y) = (f32_from_bits_with_nan(a), f32_from_bits_with_nan(b));
    match computation {
        Computation::Sum => f32_to_bits_with_nan(x + y),
        Computation::Difference => f32_to_bits_with_nan(x - y),
        Computation::Product => f32_to_bits_with_nan(x * y),
        Computation::Quotient => f32_to_bits_with_nan(x / y),
        Computation::Remainder => 0,
    }
}

// The bits at that index.
#[inline(always)]
fn bits_at_64(bits: &[u64], k: usize) -> u64
    requires { k < length bits.now }
    ensures { result ≡ get_or bits.now k 0 }
{
    bits[k]
}

// The bits of what is computed of the first so many numbers with the bits that the functions give.
#[inline(always)]
fn results_64<L: Fn(usize) -> u64, R: Fn(usize) -> u64>(
    alloc: Global,
    computation: Computation,
    count: usize,
    lhs: L,
    rhs: R,
) -> Result<Vec<u64>, AllocError>
    requires lhs { (k : ℕ) → k < count → L.pre lhs k }
    requires rhs { (k : ℕ) → k < count → R.pre rhs k }
    ensures { (f g : ℕ → ℕ) → ((k x : ℕ) → k < count → L.post lhs k x → x ≡ f k) → ((k y : ℕ) → k < count → R.post rhs k y → y ≡ g k) →
        IfOk result (λ out. out.items ≡ each_row count (λ k. bits_result computation binary64 (f k) (g k))) }
{
    match computation {
        Computation::Sum => tabulated_64(alloc, Computation::Sum, count, lhs, rhs),
        Computation::Difference => tabulated_64(alloc, Computation::Difference, count, lhs, rhs),
        Computation::Product => tabulated_64(alloc, Computation::Product, count, lhs, rhs),
        Computation::Quotient => tabulated_64(alloc, Computation::Quotient, count, lhs, rhs),
        Computation::Remainder => tabulated_64(alloc, Computation::Remainder, count, lhs, rhs),
    }
}

// The same, by one loop.
#[inline(always)]
fn tabulated_64<L: Fn(usize) -> u64, R: Fn(usize) -> u64>(
    alloc: Global,
    computation: Computation,
    count: usize,
    lhs: L,
    rhs: R,
) -> Result<Vec<u64>, AllocError>
    requires lhs { (k : ℕ) → k < count → L.pre lhs k }
    requires rhs { (k : ℕ) → k < count → R.pre rhs k }
    ensures { (f g : ℕ → ℕ) → ((k x : ℕ) → k < count → L.post lhs k x → x ≡ f k) → ((k y : ℕ) → k < count → R.post rhs k y → y ≡ g k) →
        IfOk result (λ out. out.items ≡ each_row count (λ k. bits_result computation binary64 (f k) (g k))) }
{
    tabulated(
        alloc,
        count,
        0,
        |k| result_at_64(computation, &lhs, k, &rhs),
    )
}

// The bits of what is computed of the two numbers at that index.
#[inline(always)]
fn result_at_64<L: Fn(usize) -> u64, R: Fn(usize) -> u64>(
    computation: Computation,
    lhs: &L,
    k: usize,
    rhs: &R,
) -> u64
    requires lhs { L.pre lhs.now k }
    requires rhs { R.pre rhs.now k }
    ensures { (x : ℕ) × (y : ℕ) × L.post lhs.now k x × R.post rhs.now k y × (result ≡ bits_result computation binary64 x y) }
{
    result_of_64(computation, lhs(k), rhs(k))
}

// The bits of what is computed of two numbers, zero of a remainder.
#[inline(always)]
fn result_of_64(computation: Computation, a: u64, b: u64) -> u64
    ensures { result ≡ bits_result computation binary64 a b }
{
    let (x, y) = (f64_from_bits_with_nan(a), f64_from_bits_with_nan(b));
    match computation {
        Computation::Sum => f64_to_bits_with_nan(x + y),
        Computation::Difference => f64_to_bits_with_nan(x - y),
        Computation::Product => f64_to_bits_with_nan(x * y),
        Computation::Quotient => f64_to_bits_with_nan(x / y),
        Computation::Remainder => 0,
    }
}

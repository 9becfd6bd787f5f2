// Arithmetic on whole numbers in buffers, with each other and with one number.
ghost use Rattle.std.specs.Prelude.{◌≡◌, ◌<◌, ◌≤◌, ◌&&◌, ℕ, ℤ, IfSome, false, true, get_or, length, map, pos};
ghost use Rattle.vx_value.specs.Types as types;
ghost use Rattle.vx_fn.specs.Functions.{computes};
ghost use Rattle.vx_fn.specs.Views.{operation_of};
ghost use Rattle.vx_array.specs.Kinds.{numbers_in};
ghost use Rattle.vx_array.specs.Shown.{HasRows, is_valid};
ghost use Rattle.vx_array_loops.specs.Computations.{fails};
ghost use Rattle.vx_array_kernels.specs.Asked.{arithmetic_of};
ghost use Rattle.vx_array_kernels.specs.Found.{IsLong};
ghost use Rattle.vx_array_kernels.specs.Results.{AreComputed, FindsComputed, FindsResults, IsComputed};

use crate::pair::Pair;
use crate::width::Width;
use std::alloc::{AllocError, Global};
use vx_array::{Lanes, Numbers, Part, Validity};
use vx_array_build::Native;
use vx_array_loops::{Computation, Number, first_where, write_flagged};
use vx_dtype::PType;
use vx_fn::Operator;
use vx_value::Value;

/// What an operator computes, if it is one of the five kinds of arithmetic.
pub fn computation_of(operator: Operator) -> Option<Computation>
    ensures { IfSome result (λ c. operation_of operator ≡ computes (arithmetic_of c)) }
{
    match operator {
        Operator::Add => Some(Computation::Sum),
        Operator::Sub => Some(Computation::Difference),
        Operator::Mul => Some(Computation::Product),
        Operator::Div => Some(Computation::Quotient),
        Operator::Rem => Some(Computation::Remainder),
        Operator::And
        | Operator::Or
        | Operator::Eq
        | Operator::NotEq
        | Operator::Gt
        | Operator::Gte
        | Operator::Lt
        | Operator::Lte => None,
    }
}

/// What is computed of two columns of whole numbers, as numbers of the type. There is an answer where one has
/// numbers of the type's own width, the other such numbers or one number in all rows, and no row has a fault. A
/// row that is null has none, whatever lies below it.
pub fn compute(
    alloc: Global,
    computation: Computation,
    ptype: PType,
    pair: Pair,
) -> Result<Option<Lanes>, AllocError>
    requires { IsLong pair }
    ensures { FindsResults (arithmetic_of computation) (types.atomic (types.number ptype)) pair.entry result }
{
    match ptype {
        PType::U8 => compute_in::<u8>(alloc, computation, pair),
        PType::U16 => compute_in::<u16>(alloc, computation, pair),
        PType::U32 => compute_in::<u32>(alloc, computation, pair),
        PType::U64 => compute_in::<u64>(alloc, computation, pair),
        PType::I8 => compute_in::<i8>(alloc, computation, pair),
        PType::I16 => compute_in::<i16>(alloc, computation, pair),
        PType::I32 => compute_in::<i32>(alloc, computation, pair),
        PType::I64 => compute_in::<i64>(alloc, computation, pair),
    }
}

// The same of numbers of one width.
fn compute_in<T: Width>(
    alloc: Global,
    computation: Computation,
    pair: Pair,
) -> Result<Option<Lanes>, AllocError>
    requires { IsLong pair }
    ensures { FindsResults (arithmetic_of computation) (types.atomic (types.number T.kind)) pair.entry result }
{
    match (pair.lhs, pair.rhs) {
        (Lanes::Numbers(numbers, v), Lanes::Numbers(others, w)) => {
            let both = v.and(alloc, w)?;
            of_columns::<T>(alloc, computation, pair.count, both, numbers, others)
        }
        (Lanes::Numbers(numbers, v), Lanes::Same(value, _)) => match value.as_ref() {
            Value::Int(number) => {
                with_number::<T>(alloc, computation, pair.count, v, numbers, number)
            }
            _ => Ok(None),
        },
        (Lanes::Same(value, _), Lanes::Numbers(numbers, v)) => match value.as_ref() {
            Value::Int(number) => {
                of_number::<T>(alloc, computation, pair.count, v, number, numbers)
            }
            _ => Ok(None),
        },
        _ => Ok(None),
    }
}

// What is computed of each number and the one beside it, where both are valid, if they have the type's width
// and it fails nowhere.
fn of_columns<T: Width>(
    alloc: Global,
    computation: Computation,
    count: usize,
    both: Validity,
    numbers: &Numbers,
    others: &Numbers,
) -> Result<Option<Lanes>, AllocError>
    requires rows { HasRows both count }
    requires numbers { count ≤ length (numbers_in numbers.now) }
    requires others { count ≤ length (numbers_in others.now) }
    ensures { FindsComputed T.fits computation count both (λ k. get_or (numbers_in numbers.now) k (pos 0)) (λ k. get_or (numbers_in others.now) k (pos 0)) result }
{
    match (T::part(numbers), T::part(others)) {
        (Some(part), Some(other)) => beside(alloc, computation, count, both, part, other),
        _ => Ok(None),
    }
}

// The same of numbers of the type's width.
fn beside<T: Width>(
    alloc: Global,
    computation: Computation,
    count: usize,
    both: Validity,
    part: &Part<T>,
    others: &Part<T>,
) -> Result<Option<Lanes>, AllocError>
    requires rows { HasRows both count }
    requires numbers { count ≤ length (map T.number part.now) }
    requires others { count ≤ length (map T.number others.now) }
    ensures { FindsComputed T.fits computation count both (λ k. get_or (map T.number part.now) k (pos 0)) (λ k. get_or (map T.number others.now) k (pos 0)) result }
{
    let (part, others) = (part.as_slice(), others.as_slice());
    results(
        alloc,
        computation,
        count,
        both,
        |i| number_at(part, i),
        |i| number_at(others, i),
    )
}

// What is computed of each number that is valid and the one, if they have the type's width and it fails
// nowhere.
fn with_number<T: Width>(
    alloc: Global,
    computation: Computation,
    count: usize,
    validity: &Validity,
    numbers: &Numbers,
    number: &i128,
) -> Result<Option<Lanes>, AllocError>
    requires rows { HasRows validity.now count }
    requires numbers { count ≤ length (numbers_in numbers.now) }
    ensures { FindsComputed T.fits computation count validity.now (λ k. get_or (numbers_in numbers.now) k (pos 0)) (λ _. number.now) result }
{
    match (T::part(numbers), T::narrowed(*number)) {
        (Some(part), Some(other)) => with(alloc, computation, count, validity, part, other),
        _ => Ok(None),
    }
}

// The same of numbers of the type's width.
fn with<T: Width>(
    alloc: Global,
    computation: Computation,
    count: usize,
    validity: &Validity,
    part: &Part<T>,
    other: T,
) -> Result<Option<Lanes>, AllocError>
    requires rows { HasRows validity.now count }
    requires numbers { count ≤ length (map T.number part.now) }
    ensures { FindsComputed T.fits computation count validity.now (λ k. get_or (map T.number part.now) k (pos 0)) (λ _. T.number other) result }
{
    let part = part.as_slice();
    let valid = validity.clone()?;
    results(
        alloc,
        computation,
        count,
        valid,
        |i| number_at(part, i),
        |_| other,
    )
}

// What is computed of the one number and each that is valid, if they have the type's width and it fails
// nowhere.
fn of_number<T: Width>(
    alloc: Global,
    computation: Computation,
    count: usize,
    validity: &Validity,
    number: &i128,
    numbers: &Numbers,
) -> Result<Option<Lanes>, AllocError>
    requires rows { HasRows validity.now count }
    requires numbers { count ≤ length (numbers_in numbers.now) }
    ensures { FindsComputed T.fits computation count validity.now (λ _. number.now) (λ k. get_or (numbers_in numbers.now) k (pos 0)) result }
{
    match (T::narrowed(*number), T::part(numbers)) {
        (Some(first), Some(part)) => of_one(alloc, computation, count, validity, first, part),
        _ => Ok(None),
    }
}

// The same of numbers of the type's width.
fn of_one<T: Width>(
    alloc: Global,
    computation: Computation,
    count: usize,
    validity: &Validity,
    first: T,
    part: &Part<T>,
) -> Result<Option<Lanes>, AllocError>
    requires rows { HasRows validity.now count }
    requires numbers { count ≤ length (map T.number part.now) }
    ensures { FindsComputed T.fits computation count validity.now (λ _. T.number first) (λ k. get_or (map T.number part.now) k (pos 0)) result }
{
    let part = part.as_slice();
    let valid = validity.clone()?;
    results(
        alloc,
        computation,
        count,
        valid,
        |_| first,
        |i| number_at(part, i),
    )
}

// The number at that place.
#[inline(always)]
fn number_at<T: Number>(part: &[T], i: usize) -> T
    requires { i < length part.now }
    ensures { T.number result ≡ get_or (map T.number part.now) i (pos 0) }
{
    part[i]
}

// What is computed of the numbers that the functions give at each row that is valid, if it fails in none.
#[inline(always)]
fn results<T: Width, L: Fn(usize) -> T, R: Fn(usize) -> T>(
    alloc: Global,
    computation: Computation,
    count: usize,
    validity: Validity,
    lhs: L,
    rhs: R,
) -> Result<Option<Lanes>, AllocError>
    requires rows { HasRows validity count }
    requires lhs { (i : ℕ) → i < count → L.pre lhs i }
    requires rhs { (i : ℕ) → i < count → R.pre rhs i }
    ensures { (f g : ℕ → ℤ) → ((i : ℕ) (x : T) → i < count → L.post lhs i x → T.number x ≡ f i) → ((i : ℕ) (y : T) → i < count → R.post rhs i y → T.number y ≡ g i) →
        FindsComputed T.fits computation count validity f g result }
{
    let mut results = vec![in alloc; T::zero(); count]?;
    if write_results(results.as_mut_slice(), computation, &validity, &lhs, &rhs) {
        return Ok(None);
    }
    Ok(Some(Lanes::Numbers(T::numbers(Part::new(alloc, results)?), validity)))
}

// Writes what is computed at each row, by a loop for each computation. Tells whether it fails in a row that is
// valid.
#[inline(always)]
fn write_results<T: Number, L: Fn(usize) -> T, R: Fn(usize) -> T>(
    rows: &mut [T],
    computation: Computation,
    validity: &Validity,
    lhs: &L,
    rhs: &R,
) -> bool
    requires lhs { (i : ℕ) → i < length rows.old → L.pre lhs.now i }
    requires rhs { (i : ℕ) → i < length rows.old → R.pre rhs.now i }
    ensures { result ≡ false → (f g : ℕ → ℤ) → ((i : ℕ) (x : T) → i < length rows.old → L.post lhs.now i x → T.number x ≡ f i) → ((i : ℕ) (y : T) → i < length rows.old → R.post rhs.now i y → T.number y ≡ g i) →
        AreComputed T.fits T.number computation validity.now f g (length rows.old) rows.new }
{
    match computation {
        Computation::Sum => write_by(rows, Computation::Sum, validity, lhs, rhs),
        Computation::Difference => write_by(rows, Computation::Difference, validity, lhs, rhs),
        Computation::Product => write_by(rows, Computation::Product, validity, lhs, rhs),
        Computation::Quotient => write_by(rows, Computation::Quotient, validity, lhs, rhs),
        Computation::Remainder => write_by(rows, Computation::Remainder, validity, lhs, rhs),
    }
}

// The same by one loop, and a second one that looks for a row that is valid, where some row fails.
#[inline(always)]
fn write_by<T: Number, L: Fn(usize) -> T, R: Fn(usize) -> T>(
    rows: &mut [T],
    computation: Computation,
    validity: &Validity,
    lhs: &L,
    rhs: &R,
) -> bool
    requires lhs { (i : ℕ) → i < length rows.old → L.pre lhs.now i }
    requires rhs { (i : ℕ) → i < length rows.old → R.pre rhs.now i }
    ensures { result ≡ false → (f g : ℕ → ℤ) → ((i : ℕ) (x : T) → i < length rows.old → L.post lhs.now i x → T.number x ≡ f i) → ((i : ℕ) (y : T) → i < length rows.old → R.post rhs.now i y → T.number y ≡ g i) →
        AreComputed T.fits T.number computation validity.now f g (length rows.old) rows.new }
{
    let count = rows.len();
    let raised = write_flagged(rows, |i| computed_at(computation, lhs, i, rhs));
    if !raised {
        return false;
    }
    first_where(count, |i| fails_at(validity, computation, lhs, i, rhs)).is_some()
}

// What is computed of the two numbers at that place, beside whether it fails.
#[inline(always)]
fn computed_at<T: Number, L: Fn(usize) -> T, R: Fn(usize) -> T>(
    computation: Computation,
    lhs: &L,
    i: usize,
    rhs: &R,
) -> (T, bool)
    requires lhs { L.pre lhs.now i }
    requires rhs { R.pre rhs.now i }
    ensures { (x : T) × (y : T) × L.post lhs.now i x × R.post rhs.now i y × IsComputed T.fits T.number computation (T.number x) (T.number y) result.0 result.1 }
{
    lhs(i).computed(computation, rhs(i))
}

// Whether the row is valid, and the computation fails there.
#[inline(always)]
fn fails_at<T: Number, L: Fn(usize) -> T, R: Fn(usize) -> T>(
    validity: &Validity,
    computation: Computation,
    lhs: &L,
    i: usize,
    rhs: &R,
) -> bool
    requires lhs { L.pre lhs.now i }
    requires rhs { R.pre rhs.now i }
    ensures { (x : T) × (y : T) × L.post lhs.now i x × R.post rhs.now i y × (result ≡ (is_valid validity.now i && fails T.fits computation (T.number x) (T.number y))) }
{
    let (_, failed) = computed_at(computation, lhs, i, rhs);
    validity.is_valid(i) && failed
}

// Which numbers in a buffer are among the elements of one list.
ghost use Rattle.std.specs.Prelude.{◌≡◌, ◌<◌, ◌≤◌, ◌+ℤ◌, ℕ, ℤ, pos, IfOk, IfSome, get_or, length, map, take};
ghost use Rattle.vx_value.specs.Types.{int};
ghost use Rattle.vx_value.specs.Views.{data_view};
ghost use Rattle.vx_fn.specs.Values.{has_element};
ghost use Rattle.vx_array.specs.Kinds.{numbers_in};
ghost use Rattle.vx_array_kernels.specs.Buckets.{is_there};
ghost use Rattle.vx_array_kernels.specs.Members.{HasCodes, has_number};

use crate::buckets::Buckets;
use crate::width::Width;
use crate::widths::by_width;
use std::alloc::{AllocError, Global};
use vx_array::{Numbers, Part};
use vx_array_loops::{Bits, Comparison, Number, compare, tabulated};
use vx_value::Value;

// With so few elements numbers are compared with each.
const FEW: usize = 8;

/// Whether each of the first so many numbers is one of the elements, if these are null or numbers of the same
/// width.
pub fn numbers_told(
    alloc: Global,
    count: usize,
    items: &[Value],
    numbers: &Numbers,
) -> Result<Option<Bits>, AllocError>
    requires { count ≤ length (numbers_in numbers.now) }
    ensures { IfOk result (λ found. IfSome found (λ told. told ≡ map (λ n. has_element (data_view items.now) (int n)) (take count (numbers_in numbers.now)))) }
{
    by_width!(numbers, part => told_in(alloc, count, items, part))
}

// The same of numbers of one width.
fn told_in<T: Width>(
    alloc: Global,
    count: usize,
    items: &[Value],
    numbers: &Part<T>,
) -> Result<Option<Bits>, AllocError>
    requires { count ≤ length (map T.number numbers.now) }
    ensures { IfOk result (λ found. IfSome found (λ told. told ≡ map (λ n. has_element (data_view items.now) (int n)) (take count (map T.number numbers.now)))) }
{
    let Some(others) = numbers_of::<T>(alloc, items)? else {
        return Ok(None);
    };
    let _ = numbers.len();
    let numbers = &numbers.as_slice()[..count];
    if others.len() <= FEW {
        return Ok(Some(told_by_each(alloc, numbers, others.as_slice())?));
    }
    told_by_buckets(alloc, numbers, others.as_slice())
}

// The elements that aren't null, if they are numbers of the width.
fn numbers_of<T: Number>(alloc: Global, items: &[Value]) -> Result<Option<Vec<T>>, AllocError>
    ensures { IfOk result (λ found. IfSome found (λ xs. (n : ℤ) → has_number T.number xs.items n ≡ has_element (data_view items.now) (int n))) }
{
    let mut numbers = Vec::with_capacity(alloc, items.len())?;
    for item in items {
        match item {
            Value::Null => {}
            Value::Int(number) => match T::narrowed(*number) {
                Some(number) => numbers.push(number)?,
                None => return Ok(None),
            },
            _ => return Ok(None),
        }
    }
    Ok(Some(numbers))
}

// Whether each number is one of the others, one of these after another.
fn told_by_each<T: Number>(alloc: Global, numbers: &[T], others: &[T]) -> Result<Bits, AllocError>
    ensures { IfOk result (λ told. told ≡ map (λ x. has_number T.number others.now (T.number x)) numbers.now) }
{
    let mut told = Bits::zeros(alloc, numbers.len())?;
    let mut same = Bits::zeros(alloc, numbers.len())?;
    for other in others {
        compare(&mut same, Comparison::Equal, numbers, *other);
        told.or_with(&same);
    }
    Ok(told)
}

// The same by way of buckets, if the others have them.
fn told_by_buckets<T: Width>(
    alloc: Global,
    numbers: &[T],
    others: &[T],
) -> Result<Option<Bits>, AllocError>
    ensures { IfOk result (λ found. IfSome found (λ told. told ≡ map (λ x. has_number T.number others.now (T.number x)) numbers.now)) }
{
    let Some(buckets) = buckets_of(alloc, others)? else {
        return Ok(None);
    };
    let told = Bits::tabulated(alloc, numbers.len(), |k| is_in(&buckets, numbers, k))?;
    Ok(Some(told))
}

// The numbers' codes in buckets, if they have them.
fn buckets_of<T: Width>(alloc: Global, numbers: &[T]) -> Result<Option<Buckets>, AllocError>
    ensures { IfOk result (λ found. IfSome found (λ b. HasCodes T.number T.above b numbers.now)) }
{
    let codes = tabulated(alloc, numbers.len(), 0, |k| code_at(numbers, k))?;
    Buckets::of(alloc, codes.as_slice())
}

// The code of the number at that place.
#[inline(always)]
fn code_at<T: Width>(numbers: &[T], k: usize) -> u64
    requires { k < length numbers.now }
    ensures { pos result ≡ get_or (map (λ x. T.number x +ℤ T.above) numbers.now) k (pos 0) }
{
    numbers[k].code()
}

// Whether the buckets have the code of the number at that place.
#[inline(always)]
fn is_in<T: Width>(buckets: &Buckets, numbers: &[T], k: usize) -> bool
    requires { k < length numbers.now }
    ensures { (code : ℕ) × (pos code ≡ get_or (map (λ x. T.number x +ℤ T.above) numbers.now) k (pos 0)) × (result ≡ is_there buckets.now code) }
{
    buckets.has(code_at(numbers, k))
}

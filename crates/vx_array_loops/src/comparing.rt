// Numbers compared, each with one number or with the one beside it.
ghost use Rattle.std.specs.Prelude.{◌≡◌, ◌<◌, length, map, get_or, false, pos};
ghost use Rattle.std.specs.Ordering.{int_cmp};
ghost use Rattle.std.specs.Simd.Lanes.{zip2};
ghost use Rattle.vx_array_loops.specs.Comparisons.{holds};

use crate::bits::Bits;
use crate::comparison::Comparison;
use crate::number::Number;

/// Writes whether the comparison holds of each number and the one. Asks as many rows as numbers.
pub fn compare<T: Number>(rows: &mut Bits, comparison: Comparison, numbers: &[T], other: T)
    requires { length rows.old ≡ length numbers.now }
    ensures { rows.new ≡ map (λ x. holds comparison (int_cmp (T.number x) (T.number other))) numbers.now }
{
    match comparison {
        Comparison::Equal => compare_by(rows, Comparison::Equal, numbers, other),
        Comparison::NotEqual => compare_by(rows, Comparison::NotEqual, numbers, other),
        Comparison::Less => compare_by(rows, Comparison::Less, numbers, other),
        Comparison::LessOrEqual => compare_by(rows, Comparison::LessOrEqual, numbers, other),
        Comparison::Greater => compare_by(rows, Comparison::Greater, numbers, other),
        Comparison::GreaterOrEqual => compare_by(rows, Comparison::GreaterOrEqual, numbers, other),
    }
}

// The same, by one loop.
#[inline(always)]
fn compare_by<T: Number>(rows: &mut Bits, comparison: Comparison, numbers: &[T], other: T)
    requires { length rows.old ≡ length numbers.now }
    ensures { rows.new ≡ map (λ x. holds comparison (int_cmp (T.number x) (T.number other))) numbers.now }
{
    rows.write(is_wide::<T>(), |i| holds_at(comparison, numbers, i, other));
}

// Whether the type may have numbers of more than 16 bits, whose tests are written as those of wide ones.
#[inline(always)]
fn is_wide<T: Number>() -> bool
    ensures { result ≡ false → T.fits (pos 65536) ≡ false }
{
    match T::narrowed(65536) {
        Some(_) => true,
        None => false,
    }
}

// Whether the comparison holds of the number at that place and the one.
#[inline(always)]
fn holds_at<T: Number>(comparison: Comparison, numbers: &[T], i: usize, other: T) -> bool
    requires { i < length numbers.now }
    ensures { result ≡ get_or (map (λ x. holds comparison (int_cmp (T.number x) (T.number other))) numbers.now) i false }
{
    numbers[i].holds(comparison, other)
}

/// Writes whether the comparison holds of each number and the one beside it. Asks as many rows as numbers
/// on either side.
pub fn compare_both<T: Number>(rows: &mut Bits, comparison: Comparison, numbers: &[T], others: &[T])
    requires numbers { length rows.old ≡ length numbers.now }
    requires others { length rows.old ≡ length others.now }
    ensures { rows.new ≡ zip2 (λ x y. holds comparison (int_cmp (T.number x) (T.number y))) numbers.now others.now }
{
    match comparison {
        Comparison::Equal => both_by(rows, Comparison::Equal, numbers, others),
        Comparison::NotEqual => both_by(rows, Comparison::NotEqual, numbers, others),
        Comparison::Less => both_by(rows, Comparison::Less, numbers, others),
        Comparison::LessOrEqual => both_by(rows, Comparison::LessOrEqual, numbers, others),
        Comparison::Greater => both_by(rows, Comparison::Greater, numbers, others),
        Comparison::GreaterOrEqual => both_by(rows, Comparison::GreaterOrEqual, numbers, others),
    }
}

// The same, by one loop.
#[inline(always)]
fn both_by<T: Number>(rows: &mut Bits, comparison: Comparison, numbers: &[T], others: &[T])
    requires numbers { length rows.old ≡ length numbers.now }
    requires others { length rows.old ≡ length others.now }
    ensures { rows.new ≡ zip2 (λ x y. holds comparison (int_cmp (T.number x) (T.number y))) numbers.now others.now }
{
    rows.write(
        is_wide::<T>(),
        |i| holds_beside(comparison, numbers, i, others),
    );
}

// Whether the comparison holds of the two numbers at that place.
#[inline(always)]
fn holds_beside<T: Number>(comparison: Comparison, numbers: &[T], i: usize, others: &[T]) -> bool
    requires numbers { i < length numbers.now }
    requires others { i < length others.now }
    ensures { result ≡ get_or (zip2 (λ x y. holds comparison (int_cmp (T.number x) (T.number y))) numbers.now others.now) i false }
{
    numbers[i].holds(comparison, others[i])
}

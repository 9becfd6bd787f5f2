// Comparisons of numbers in two buffers.
ghost use Rattle.std.specs.Prelude.{◌≡◌, ◌≤◌, IfOk, IfSome, get_or, length, map, pos};
ghost use Rattle.std.specs.Ordering.{int_cmp};
ghost use Rattle.vx_value.specs.Types.{int};
ghost use Rattle.vx_fn.specs.Values.{compared};
ghost use Rattle.vx_array.specs.Kinds.{numbers_in};
ghost use Rattle.vx_array.specs.Rows.{lanes_rows};
ghost use Rattle.vx_array.specs.Shown.{shown};
ghost use Rattle.vx_array_loops.specs.Comparisons.{holds};
ghost use Rattle.vx_array_loops.specs.WordBits.{each_row};
ghost use Rattle.vx_array_kernels.specs.Asked.{asked};
ghost use Rattle.vx_array_kernels.specs.Found.{Finds, IsLong, pair_rows};

use crate::pair::Pair;
use crate::widths::by_one_width;
use std::alloc::{AllocError, Global};
use vx_array::{BitPart, Lanes, Numbers, Part};
use vx_array_loops::{Bits, Comparison, Number, compare_both};

/// The comparison of two columns, row by row. There is an answer where both are numbers in buffers of one
/// width.
pub fn compare_columns(
    alloc: Global,
    comparison: Comparison,
    pair: Pair,
) -> Result<Option<Lanes>, AllocError>
    requires { IsLong pair }
    ensures { Finds (pair_rows (compared (asked comparison)) pair.entry) result }
{
    match (pair.lhs, pair.rhs) {
        (Lanes::Numbers(numbers, validity), Lanes::Numbers(others, others_validity)) => {
            match told_of(alloc, pair.count, comparison, numbers, others)? {
                None => Ok(None),
                Some(told) => {
                    let both = validity.and(alloc, others_validity)?;
                    Ok(Some(Lanes::Bools(BitPart::new(alloc, told)?, both)))
                }
            }
        }
        _ => Ok(None),
    }
}

// Whether the comparison holds of each of the first so many numbers and the one beside it, if both have
// one width.
fn told_of(
    alloc: Global,
    count: usize,
    comparison: Comparison,
    numbers: &Numbers,
    others: &Numbers,
) -> Result<Option<Bits>, AllocError>
    requires numbers { count ≤ length (numbers_in numbers.now) }
    requires others { count ≤ length (numbers_in others.now) }
    ensures { IfOk result (λ found. IfSome found (λ told. told ≡ each_row count (λ k. holds comparison (int_cmp (get_or (numbers_in numbers.now) k (pos 0)) (get_or (numbers_in others.now) k (pos 0)))))) }
{
    by_one_width!(numbers, others, (part, other) => told_in(alloc, count, comparison, part, other))
}

// The same of numbers of one width.
fn told_in<T: Number>(
    alloc: Global,
    count: usize,
    comparison: Comparison,
    numbers: &Part<T>,
    others: &Part<T>,
) -> Result<Option<Bits>, AllocError>
    requires numbers { count ≤ length (map T.number numbers.now) }
    requires others { count ≤ length (map T.number others.now) }
    ensures { IfOk result (λ found. IfSome found (λ told. told ≡ each_row count (λ k. holds comparison (int_cmp (get_or (map T.number numbers.now) k (pos 0)) (get_or (map T.number others.now) k (pos 0)))))) }
{
    let _ = (numbers.len(), others.len());
    let mut told = Bits::zeros(alloc, count)?;
    let numbers = &numbers.as_slice()[..count];
    let others = &others.as_slice()[..count];
    compare_both(&mut told, comparison, numbers, others);
    Ok(Some(told))
}

// Comparisons of numbers in buffers, with one value and with each other.
ghost use Rattle.std.specs.Prelude.{◌≡◌, IfOk, IfSome, length, map};
ghost use Rattle.std.specs.Ordering.{int_cmp};
ghost use Rattle.vx_value.specs.Types.{bool, int};
ghost use Rattle.vx_value.specs.Views.{value_of};
ghost use Rattle.vx_fn.specs.Functions.{compares};
ghost use Rattle.vx_fn.specs.Functions as functions;
ghost use Rattle.vx_fn.specs.Values.{compared};
ghost use Rattle.vx_fn.specs.Views.{operation_of};
ghost use Rattle.vx_array.specs.Kinds.{numbers_in};
ghost use Rattle.vx_array.specs.Rows.{lanes_rows};
ghost use Rattle.vx_array.specs.Shown.{shown};
ghost use Rattle.vx_array_loops.specs.Comparisons.{holds};
ghost use Rattle.vx_array_kernels.specs.Asked.{asked, compared_rows};
ghost use Rattle.vx_array_kernels.specs.Found.{Finds, IsLong, pair_rows};

use crate::columns::compare_columns;
use crate::float_comparison::{compare_floats, format_of};
use crate::pair::Pair;
use crate::widths::by_width;
use std::alloc::{AllocError, Global};
use vx_array::{BitPart, Lanes, Numbers, Part, Validity};
use vx_array_loops::{Bits, Comparison, Number};
use vx_fn::Operator;
use vx_value::Value;

/// The comparison of an operator, if it is one of the six.
pub fn comparison_of(operator: Operator) -> Option<Comparison>
    ensures { IfSome result (λ c. operation_of operator ≡ compares (asked c)) }
{
    match operator {
        Operator::Eq => Some(Comparison::Equal),
        Operator::NotEq => Some(Comparison::NotEqual),
        Operator::Gt => Some(Comparison::Greater),
        Operator::Gte => Some(Comparison::GreaterOrEqual),
        Operator::Lt => Some(Comparison::Less),
        Operator::Lte => Some(Comparison::LessOrEqual),
        Operator::And
        | Operator::Or
        | Operator::Add
        | Operator::Sub
        | Operator::Mul
        | Operator::Div
        | Operator::Rem => None,
    }
}

// The comparison for exchanged operands.
fn mirrored(comparison: Comparison) -> Comparison
    ensures { asked result ≡ functions.mirrored (asked comparison) }
{
    match comparison {
        Comparison::Equal => Comparison::Equal,
        Comparison::NotEqual => Comparison::NotEqual,
        Comparison::Less => Comparison::Greater,
        Comparison::LessOrEqual => Comparison::GreaterOrEqual,
        Comparison::Greater => Comparison::Less,
        Comparison::GreaterOrEqual => Comparison::LessOrEqual,
    }
}

/// The comparison of two columns. There is an answer where both are numbers in buffers of one width or of
/// one format, and where one is one value in all rows and the other has numbers whose width or format has
/// that value.
pub fn compare(
    alloc: Global,
    comparison: Comparison,
    pair: Pair,
) -> Result<Option<Lanes>, AllocError>
    requires { IsLong pair }
    ensures { Finds (pair_rows (compared (asked comparison)) pair.entry) result }
{
    match format_of(pair) {
        Some(float_type) => compare_floats(alloc, comparison, float_type, pair),
        None => compare_whole(alloc, comparison, pair),
    }
}

/// The comparison of two columns of whole numbers. There is an answer where both are numbers in buffers of one
/// width, and where one is one value in all rows and the other has numbers whose width has that value.
pub fn compare_whole(
    alloc: Global,
    comparison: Comparison,
    pair: Pair,
) -> Result<Option<Lanes>, AllocError>
    requires { IsLong pair }
    ensures { Finds (pair_rows (compared (asked comparison)) pair.entry) result }
{
    match (pair.lhs, pair.rhs) {
        (lhs, Lanes::Same(value, _)) => compare_with(alloc, comparison, lhs, value.as_ref()),
        (Lanes::Same(value, _), rhs) => {
            compare_with(alloc, mirrored(comparison), rhs, value.as_ref())
        }
        _ => compare_columns(alloc, comparison, pair),
    }
}

// The comparison of each row with one value. There is an answer where the rows are numbers in a buffer,
// and the value is one of the buffer's width.
fn compare_with(
    alloc: Global,
    comparison: Comparison,
    lanes: &Lanes,
    value: &Value,
) -> Result<Option<Lanes>, AllocError>
    ensures { Finds (compared_rows comparison (value_of value.now) (lanes_rows lanes.now)) result }
{
    match (lanes, value) {
        (Lanes::Numbers(numbers, validity), Value::Int(number)) => {
            compare_numbers(alloc, comparison, numbers, validity, number)
        }
        _ => Ok(None),
    }
}

// The comparison of each number that is valid with the one, if it is one of their width.
fn compare_numbers(
    alloc: Global,
    comparison: Comparison,
    numbers: &Numbers,
    validity: &Validity,
    number: &i128,
) -> Result<Option<Lanes>, AllocError>
    ensures { Finds (compared_rows comparison (int number.now) (shown validity.now (map int (numbers_in numbers.now)))) result }
{
    match told_of(alloc, comparison, numbers, number)? {
        None => Ok(None),
        Some(told) => Ok(Some(truths(alloc, told, validity)?)),
    }
}

// Truth values, where these are valid.
fn truths(alloc: Global, told: Bits, validity: &Validity) -> Result<Lanes, AllocError>
    ensures { IfOk result (λ out. lanes_rows out ≡ shown validity.now (map bool told)) }
{
    Ok(Lanes::Bools(BitPart::new(alloc, told)?, validity.clone()?))
}

// Whether the comparison holds of each number and the one, if it is one of their width.
fn told_of(
    alloc: Global,
    comparison: Comparison,
    numbers: &Numbers,
    number: &i128,
) -> Result<Option<Bits>, AllocError>
    ensures { IfOk result (λ found. IfSome found (λ told. told ≡ map (λ n. holds comparison (int_cmp n number.now)) (numbers_in numbers.now))) }
{
    by_width!(numbers, part => told_in(alloc, comparison, part, number))
}

// The same of numbers of one width.
fn told_in<T: Number>(
    alloc: Global,
    comparison: Comparison,
    numbers: &Part<T>,
    number: &i128,
) -> Result<Option<Bits>, AllocError>
    ensures { IfOk result (λ found. IfSome found (λ told. told ≡ map (λ n. holds comparison (int_cmp n number.now)) (map T.number numbers.now))) }
{
    match T::narrowed(*number) {
        None => Ok(None),
        Some(other) => {
            let mut told = Bits::zeros(alloc, numbers.len())?;
            vx_array_loops::compare(&mut told, comparison, numbers.as_slice(), other);
            Ok(Some(told))
        }
    }
}

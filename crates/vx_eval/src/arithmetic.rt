// Sums, differences, products, quotients and remainders.
ghost use Rattle.std.specs.Prelude.{◌≡◌, ℤ, FitsSigned, SomeIff, false, true, length, List, [], ◌∷◌, IsTrue, MatchResult};
ghost use Rattle.std.specs.Int.{w128};
ghost use Rattle.vx_dtype.specs.declared.error.VortexError.TheVariants.{AddOverflow};
ghost use Rattle.vx_value.specs.Fits.{fits_digits, fits_ptype};
ghost use Rattle.vx_value.specs.Types.{LogicalType, float, int};
ghost use Rattle.vx_value.specs.Views.{type_of, value_of};
ghost use Rattle.vx_fn.specs.Faults.{divides_by_zero};
ghost use Rattle.vx_fn.specs.Functions.{binary, computes, is_number};
ghost use Rattle.vx_fn.specs.Values.{computed, whole_result};
ghost use Rattle.vx_eval.specs.Columns.{rows_view, Evaluates};
ghost use Rattle.vx_eval.specs.Kernels.{is_between, ComputesRow, IsRange};

use crate::rows::Rows;
use std::alloc::Global;
use vx_dtype::{DType, DecimalType, PType, VortexError, VortexResult};
use vx_floats::{Arithmetic, Float};
use vx_literals::power_of_ten;
use vx_value::Value;

/// What is computed of two columns, of which the left one has the number type. Refuses with the
/// fault of the first row that has one: `AddOverflow` (13) where the result is out of the type's
/// range, `DivisionByZero` (20) of whole numbers; and with `OutOfMemory` (1).
pub fn compute<'a>(
    alloc: Global,
    count: usize,
    arithmetic: Arithmetic,
    dtype: &DType,
    lhs: &Rows,
    rhs: &Rows,
) -> VortexResult<Rows<'a>>
    requires number { IsTrue (is_number (type_of dtype.now)) }
    requires left { length (rows_view lhs.now) ≡ count }
    requires right { length (rows_view rhs.now) ≡ count }
    ensures { (ts : List LogicalType) → Evaluates (binary (computes arithmetic)) (type_of dtype.now ∷ ts) count (rows_view lhs.now ∷ rows_view rhs.now ∷ []) result }
{
    let range = range_of(dtype);
    let mut results = Vec::with_capacity(alloc, count)?;
    for i in 0..count {
        let result = row_result(arithmetic, dtype, range, i, lhs.row(i), rhs.row(i))?;
        results.push(result)?;
    }
    Ok(Rows::Owned(results))
}

// The whole numbers of a type: from the lowest to the highest.
#[derive(Clone, Copy)]
struct NumberRange {
    lowest: i128,
    highest: i128,
}

// The range of no whole number, since those of the type are floating-point numbers.
const NO_NUMBER: NumberRange = NumberRange {
    lowest: 0,
    highest: -1,
};

// The whole numbers of the type, decided once for all rows.
fn range_of(dtype: &DType) -> NumberRange
    requires { IsTrue (is_number (type_of dtype.now)) }
    ensures { IsRange (type_of dtype.now) result.lowest result.highest }
{
    match dtype {
        DType::Primitive(number, _) => number_range(*number),
        DType::Float(_, _) => NO_NUMBER,
        DType::Decimal(decimal, _) => decimal_range(*decimal),
        _ => unreachable!(),
    }
}

// The units of the decimals of the type.
fn decimal_range(decimal: DecimalType) -> NumberRange
    ensures { (i : ℤ) → fits_digits i decimal.precision ≡ is_between result.lowest result.highest i }
{
    let highest = power_of_ten(decimal.precision()) as i128 - 1;
    NumberRange {
        lowest: -highest,
        highest,
    }
}

// The numbers of the number type.
fn number_range(number: PType) -> NumberRange
    ensures { (i : ℤ) → fits_ptype i number ≡ is_between result.lowest result.highest i }
{
    let (lowest, highest) = match number {
        PType::U8 => (0, 255),
        PType::U16 => (0, 65_535),
        PType::U32 => (0, 4_294_967_295),
        PType::U64 => (0, 18_446_744_073_709_551_615),
        PType::I8 => (-128, 127),
        PType::I16 => (-32_768, 32_767),
        PType::I32 => (-2_147_483_648, 2_147_483_647),
        PType::I64 => (-9_223_372_036_854_775_808, 9_223_372_036_854_775_807),
    };
    NumberRange { lowest, highest }
}

// What is computed of the row's two values, null with a null operand, or the row's fault. The range
// is the type's.
#[inline]
fn row_result(
    arithmetic: Arithmetic,
    dtype: &DType,
    range: NumberRange,
    row: usize,
    v: &Value,
    w: &Value,
) -> VortexResult<Value>
    requires number { IsTrue (is_number (type_of dtype.now)) }
    requires range { IsRange (type_of dtype.now) range.lowest range.highest }
    ensures { ComputesRow arithmetic (type_of dtype.now) row (value_of v.now) (value_of w.now) result }
{
    match v {
        Value::Int(a) => match w {
            Value::Int(b) => whole_result(arithmetic, dtype, range, row, *a, *b),
            _ => Ok(Value::Null),
        },
        Value::Float(x) => match w {
            Value::Float(y) => Ok(float_result(arithmetic, *x, *y)),
            _ => Ok(Value::Null),
        },
        _ => Ok(Value::Null),
    }
}

// What is computed of the row's two whole numbers, or the row's fault. The range is the type's.
#[inline]
fn whole_result(
    arithmetic: Arithmetic,
    dtype: &DType,
    range: NumberRange,
    row: usize,
    a: i128,
    b: i128,
) -> VortexResult<Value>
    requires range { IsRange (type_of dtype.now) range.lowest range.highest }
    ensures { ComputesRow arithmetic (type_of dtype.now) row (int a) (int b) result }
{
    if divides_by_zero(arithmetic, b) {
        return Err(VortexError::DivisionByZero { row });
    }
    match exact_result(arithmetic, a, b) {
        Some(n) => within(range, row, n),
        None => Err(VortexError::AddOverflow { row }),
    }
}

// Whether whole numbers are divided by that one, and it is zero.
#[inline]
fn divides_by_zero(arithmetic: Arithmetic, b: i128) -> bool
    ensures { (i : ℤ) → result ≡ divides_by_zero arithmetic (int i ∷ int b ∷ []) }
{
    match arithmetic {
        Arithmetic::Sum | Arithmetic::Difference | Arithmetic::Product => false,
        Arithmetic::Quotient | Arithmetic::Remainder => b == 0,
    }
}

// What is computed of two whole numbers, if it has 128 bits. Asks no division by zero.
#[inline]
fn exact_result(arithmetic: Arithmetic, a: i128, b: i128) -> Option<i128>
    requires { divides_by_zero arithmetic (int a ∷ int b ∷ []) ≡ false }
    ensures { SomeIff result (FitsSigned w128 (whole_result arithmetic a b)) (whole_result arithmetic a b) }
{
    match arithmetic {
        Arithmetic::Sum => a.checked_add(b),
        Arithmetic::Difference => a.checked_sub(b),
        Arithmetic::Product => a.checked_mul(b),
        Arithmetic::Quotient => a.checked_div(b),
        Arithmetic::Remainder => Some(a.wrapping_rem(b)),
    }
}

// What is computed of two floating-point numbers of one format, or null.
#[inline]
fn float_result(arithmetic: Arithmetic, x: Float, y: Float) -> Value
    ensures { value_of result ≡ computed arithmetic (float x) (float y) }
{
    match x.compute(arithmetic, y) {
        Some(z) => Value::Float(z),
        None => Value::Null,
    }
}

// The number where it lies in the range, else the row's fault.
#[inline]
fn within(range: NumberRange, row: usize, n: i128) -> VortexResult<Value>
    ensures { MatchResult result
        (λ v. (value_of v ≡ int n) × (is_between range.lowest range.highest n ≡ true))
        (λ e. (e ≡ AddOverflow row) × (is_between range.lowest range.highest n ≡ false)) }
{
    if range.lowest <= n && n <= range.highest {
        Ok(Value::Int(n))
    } else {
        Err(VortexError::AddOverflow { row })
    }
}

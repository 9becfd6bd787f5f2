// Rows that are chosen from several columns by masks.
ghost use Rattle.std.specs.Prelude.{◌≡◌, ◌≤◌, IfOk, IfSome, length, true};
ghost use Rattle.vx_array.specs.Rows.{lanes_each, lanes_rows};
ghost use Rattle.vx_array_kernels.specs.Choices.{EachLong, case_rows, chosen_rows, filled_rows};
ghost use Rattle.vx_array_kernels.specs.Found.{Finds, IsLong};

use crate::blend::Blend;
use crate::byte_kind::{OctetKind, TextKind};
use crate::byte_rows::ByteRows;
use crate::float_rows::FloatRows;
use crate::masks::mask_of;
use crate::nulls::null_rows;
use crate::number_rows::NumberRows;
use crate::pair::Pair;
use crate::truths::Truths;
use std::alloc::{AllocError, Global};
use std::sync::Arc;
use vx_array::Lanes;
use vx_array_build::lane_type;
use vx_dtype::{DType, FloatType, PType};
use vx_value::Value;

// A call for rows of the kind that a type has, if they are truth values, floating-point numbers, texts or
// bytes, or lie in buffers of numbers.
macro_rules! by_kind {
    ($dtype:expr, $f:ident $args:tt) => {
        match $dtype {
            DType::Bool(_) => by_kind!(@ $f Truths $args),
            DType::Float(FloatType::F32, _) => $f::<FloatRows<NumberRows<u32>, u32>> $args,
            DType::Float(FloatType::F64, _) => $f::<FloatRows<NumberRows<u64>, u64>> $args,
            DType::Utf8(_) => $f::<ByteRows<TextKind>> $args,
            DType::Binary(_) => $f::<ByteRows<OctetKind>> $args,
            _ => match lane_type($dtype) {
                Some(PType::U8) => $f::<NumberRows<u8>> $args,
                Some(PType::U16) => $f::<NumberRows<u16>> $args,
                Some(PType::U32) => $f::<NumberRows<u32>> $args,
                Some(PType::U64) => $f::<NumberRows<u64>> $args,
                Some(PType::I8) => $f::<NumberRows<i8>> $args,
                Some(PType::I16) => $f::<NumberRows<i16>> $args,
                Some(PType::I32) => $f::<NumberRows<i32>> $args,
                Some(PType::I64) => $f::<NumberRows<i64>> $args,
                None => Ok(None),
            },
        }
    };
    (@ $f:ident $kind:ident $args:tt) => { $f::<$kind> $args };
}

/// Of conditions and values in turn the value beside the first condition that is true, else the last
/// column's value, else null. There is an answer where all values are truth values, whole or floating-point
/// numbers, days, instants, texts or bytes of the type in buffers, or one value in all rows, and conditions
/// truth values.
pub fn case_when(
    alloc: Global,
    count: usize,
    dtype: &DType,
    below: &[Lanes],
) -> Result<Option<Lanes>, AllocError>
    requires { EachLong count (lanes_each below.now) }
    ensures { Finds (case_rows count (lanes_each below.now)) result }
{
    by_kind!(dtype, case_in(alloc, count, below))
}

/// The first column's value where the condition is true, else the other's. There is an answer as for
/// `case_when`.
pub fn zip(
    alloc: Global,
    dtype: &DType,
    pair: Pair,
    condition: &Lanes,
) -> Result<Option<Lanes>, AllocError>
    requires pair { IsLong pair }
    requires condition { length (lanes_rows condition.now) ≡ pair.count }
    ensures { Finds (chosen_rows pair.entry.count (lanes_rows condition.now) (lanes_rows pair.entry.lhs.now) (lanes_rows pair.entry.rhs.now)) result }
{
    by_kind!(dtype, zip_in(alloc, pair, condition))
}

/// The first column's values, and the other's where they are null. There is an answer where the first ones
/// are truth values, whole or floating-point numbers, days, instants, texts or bytes of the type in buffers,
/// and the others, too, or one value in all rows.
pub fn fill_null(alloc: Global, dtype: &DType, pair: Pair) -> Result<Option<Lanes>, AllocError>
    requires { IsLong pair }
    ensures { Finds (filled_rows pair.entry.count (lanes_rows pair.entry.lhs.now) (lanes_rows pair.entry.rhs.now)) result }
{
    by_kind!(dtype, fill_in(alloc, pair))
}

// The same of rows of one kind, from the last branch to the first.
fn case_in<B: Blend>(
    alloc: Global,
    count: usize,
    below: &[Lanes],
) -> Result<Option<Lanes>, AllocError>
    requires { EachLong count (lanes_each below.now) }
    ensures { Finds (case_rows count (lanes_each below.now)) result }
{
    let pairs = below.len() / 2;
    let Some(mut rows) = otherwise::<B>(alloc, count, &below[2 * pairs..])? else {
        return Ok(None);
    };
    for j in 0..pairs {
        let i = 2 * (pairs - 1 - j);
        if !put_where(alloc, count, &mut rows, &below[i], &below[i + 1])? {
            return Ok(None);
        }
    }
    rows.into_lanes(alloc)
}

// The rows behind all branches: those of the last column, if it has no condition, and else null.
fn otherwise<B: Blend>(alloc: Global, count: usize, rest: &[Lanes]) -> Result<Option<B>, AllocError>
    requires few { length rest.now ≤ 1 }
    requires long { EachLong count (lanes_each rest.now) }
    ensures { IfOk result (λ found. IfSome found (λ b. B.rows b ≡ case_rows count (lanes_each rest.now))) }
{
    match rest {
        [last, ..] => B::of(alloc, count, last),
        [] => {
            let nulls = Lanes::Same(Arc::new(alloc, Value::Null)?, count);
            B::of(alloc, count, &nulls)
        }
    }
}

// The same of rows of one kind.
fn zip_in<B: Blend>(
    alloc: Global,
    pair: Pair,
    condition: &Lanes,
) -> Result<Option<Lanes>, AllocError>
    requires pair { IsLong pair }
    requires condition { length (lanes_rows condition.now) ≡ pair.count }
    ensures { Finds (chosen_rows pair.entry.count (lanes_rows condition.now) (lanes_rows pair.entry.lhs.now) (lanes_rows pair.entry.rhs.now)) result }
{
    let Some(mut rows) = B::of(alloc, pair.count, pair.rhs)? else {
        return Ok(None);
    };
    if put_where(alloc, pair.count, &mut rows, condition, pair.lhs)? {
        return rows.into_lanes(alloc);
    }
    Ok(None)
}

// Writes values where the condition is true, and tells whether it could.
fn put_where<B: Blend>(
    alloc: Global,
    count: usize,
    rows: &mut B,
    condition: &Lanes,
    values: &Lanes,
) -> Result<bool, AllocError>
    requires rows { length (B.rows rows.old) ≡ count }
    requires condition { length (lanes_rows condition.now) ≡ count }
    requires values { length (lanes_rows values.now) ≡ count }
    ensures { IfOk result (λ done. done ≡ true → B.rows rows.new ≡ chosen_rows count (lanes_rows condition.now) (lanes_rows values.now) (B.rows rows.old)) }
{
    match mask_of(alloc, count, condition)? {
        Some(mask) => rows.put(alloc, &mask, values),
        None => Ok(false),
    }
}

// The same of rows of one kind.
fn fill_in<B: Blend>(alloc: Global, pair: Pair) -> Result<Option<Lanes>, AllocError>
    requires { IsLong pair }
    ensures { Finds (filled_rows pair.entry.count (lanes_rows pair.entry.lhs.now) (lanes_rows pair.entry.rhs.now)) result }
{
    let Some(nulls) = null_rows(alloc, pair.count, pair.lhs)? else {
        return Ok(None);
    };
    let Some(mut rows) = B::of(alloc, pair.count, pair.lhs)? else {
        return Ok(None);
    };
    if rows.put(alloc, &nulls, pair.rhs)? {
        return rows.into_lanes(alloc);
    }
    Ok(None)
}

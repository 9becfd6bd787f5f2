// Null: tests for it, and what makes it or puts a value in its place.
ghost use Rattle.std.specs.Prelude.{◌≡◌, ◌||◌, length, get_or, IfOk, IfErr, List, [], ◌∷◌, if◌then◌else◌};
ghost use Rattle.std.specs.List.{list_any};
ghost use Rattle.vx_dtype.specs.declared.error.VortexError.TheVariants.{OutOfMemory};
ghost use Rattle.vx_value.specs.Types.{LogicalType, null, is_null_datum};
ghost use Rattle.vx_value.specs.Views.{type_of, value_of};
ghost use Rattle.vx_fn.specs.Faults.{is_bad_fill, some_differ};
ghost use Rattle.vx_fn.specs.Functions as functions;
ghost use Rattle.vx_eval.specs.Columns.{each_row, rows_view, truth_datum, Evaluates};
ghost use Rattle.vx_eval.specs.Kernels.{null_told};

use crate::choice::first_true;
use crate::comparison::order;
use crate::fields::item_row;
use crate::filling::{overwritten, tabulated};
use crate::rows::{Rows, copied};
use crate::truths::told;
use std::alloc::{AllocError, Global};
use vx_dtype::{DType, VortexError, VortexResult};
use vx_fn::FillNull;
use vx_value::Value;

/// Whether each value is null. Refuses with `OutOfMemory` (1) alone.
pub fn is_null<'a>(alloc: Global, count: usize, input: &Rows) -> VortexResult<Rows<'a>>
    requires { length (rows_view input.now) ≡ count }
    ensures { (ts : List LogicalType) → Evaluates functions.is_null ts count (rows_view input.now ∷ []) result }
{
    null_tests(alloc, count, input, true)
}

/// Whether each value is another one than null. Refuses with `OutOfMemory` (1) alone.
pub fn is_not_null<'a>(alloc: Global, count: usize, input: &Rows) -> VortexResult<Rows<'a>>
    requires { length (rows_view input.now) ≡ count }
    ensures { (ts : List LogicalType) → Evaluates functions.is_not_null ts count (rows_view input.now ∷ []) result }
{
    null_tests(alloc, count, input, false)
}

// Whether each value is null; where `wanted` is false, whether it is another one.
fn null_tests<'a>(alloc: Global, count: usize, input: &Rows, wanted: bool) -> VortexResult<Rows<'a>>
    requires { length (rows_view input.now) ≡ count }
    ensures rows { IfOk result (λ out. rows_view out ≡ each_row count (λ k. null_told wanted (get_or (rows_view input.now) k null))) }
    ensures memory { IfErr result (λ e. e ≡ OutOfMemory) }
{
    match input {
        Rows::Item(structs, place, constants) => {
            let (structs, place, otherwise) = (*structs, *place, constants.null());
            told(
                alloc,
                count,
                |i| null_test(item_row(otherwise, structs, place, i), wanted),
            )
        }
        _ => told(alloc, count, |i| null_test(input.row(i), wanted)),
    }
}

// Whether the value is null; where `wanted` is false, whether it is another one.
fn null_test(v: &Value, wanted: bool) -> Option<bool>
    ensures { truth_datum result ≡ null_told wanted (value_of v.now) }
{
    Some(v.is_null() == wanted)
}

/// The values where the mask is true, and null elsewhere; those that are owned are moved.
/// Refuses with `OutOfMemory` (1) alone.
pub fn mask<'a>(
    alloc: Global,
    count: usize,
    input: Rows<'a>,
    mask: Rows<'a>,
) -> VortexResult<Rows<'a>>
    requires input { length (rows_view input) ≡ count }
    requires mask { length (rows_view mask) ≡ count }
    ensures { (ts : List LogicalType) → Evaluates functions.mask ts count (rows_view input.entry ∷ rows_view mask.entry ∷ []) result }
{
    first_true(alloc, count, vec![in alloc; mask, input]?)
}

/// The values, with the fill where they are null; those that are owned are moved.
///
/// Refuses with `BadFill` (15) where the type isn't one of those that are filled, or some fill is
/// null, or two fills differ, and with `OutOfMemory` (1).
pub fn fill_null<'a>(
    alloc: Global,
    count: usize,
    dtype: &DType,
    input: Rows<'a>,
    fill: &Rows,
) -> VortexResult<Rows<'a>>
    requires input { length (rows_view input) ≡ count }
    requires fill { length (rows_view fill.now) ≡ count }
    ensures { (ts : List LogicalType) → Evaluates functions.fill_null (type_of dtype.now ∷ ts) count (rows_view input.entry ∷ rows_view fill.now ∷ []) result }
{
    // Columns and values are let go of by `drop`: in place that takes the proof far longer.
    if is_bad_fill(count, dtype, fill) {
        drop(input);
        return Err(VortexError::BadFill);
    }
    match input {
        Rows::Owned(values) => overwritten(values, |i, row| filled(row, fill.row(i))),
        lent => {
            let filled = tabulated(alloc, count, |i| filled_copy(lent.row(i), fill.row(i)));
            drop(lent);
            filled
        }
    }
}

// The value, or a copy of the fill where it is null.
#[inline]
fn filled(v: Value, fill: &Value) -> Result<Value, AllocError>
    ensures { IfOk result (λ out. value_of out ≡ (if is_null_datum (value_of v) then value_of fill.now else value_of v)) }
{
    if v.is_null() {
        drop(v);
        copied(fill)
    } else {
        Ok(v)
    }
}

// A copy of the value, or of the fill where it is null.
#[inline]
fn filled_copy(v: &Value, fill: &Value) -> Result<Value, AllocError>
    ensures { IfOk result (λ out. value_of out ≡ (if is_null_datum (value_of v.now) then value_of fill.now else value_of v.now)) }
{
    if v.is_null() { copied(fill) } else { copied(v) }
}

// Whether values of the type can't be filled, or the fills are null somewhere or not one value.
fn is_bad_fill(count: usize, dtype: &DType, fill: &Rows) -> bool
    requires { length (rows_view fill.now) ≡ count }
    ensures { (ts : List LogicalType) → result ≡ is_bad_fill (type_of dtype.now ∷ ts) (rows_view fill.now) }
{
    !FillNull::supports_dtype(dtype) || has_null(count, fill) || some_differ(count, fill)
}

// Whether some row is null; one value for all rows is looked at once.
fn has_null(count: usize, fill: &Rows) -> bool
    requires { length (rows_view fill.now) ≡ count }
    ensures { result ≡ list_any is_null_datum (rows_view fill.now) }
{
    if let Rows::Same(value, _) = fill {
        return 0 < count && value.is_null();
    }
    for i in 0..count {
        if fill.row(i).is_null() {
            return true;
        }
    }
    false
}

// Whether some row differs from the first; one value for all rows is looked at once.
fn some_differ(count: usize, fill: &Rows) -> bool
    requires { length (rows_view fill.now) ≡ count }
    ensures { result ≡ some_differ (rows_view fill.now) }
{
    if let Rows::Same(value, _) = fill {
        return 1 < count && order(value, value).is_ne();
    }
    for i in 1..count {
        if order(fill.row(0), fill.row(i)).is_ne() {
            return true;
        }
    }
    false
}

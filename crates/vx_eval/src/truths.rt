// Columns of truth values, and of null where there is none.
ghost use Rattle.std.specs.Prelude.{◌≡◌, ◌<◌, ℕ, IfOk, IfErr, Option, length, map, get_or};
ghost use Rattle.vx_dtype.specs.declared.error.VortexError.TheVariants.{OutOfMemory};
ghost use Rattle.vx_value.specs.Types.{Datum, null};
ghost use Rattle.vx_value.specs.Views.{value_of};
ghost use Rattle.vx_eval.specs.Columns.{rows_view, truth_datum, truth_of, each_row};
ghost use Rattle.vx_fn.specs.Values.{is_true};
ghost use Rattle.vx_eval.specs.Kernels.{TellsRows, TestsRows};

use crate::constants::Constants;
use crate::rows::Rows;
use std::alloc::{AllocError, Global};
use vx_dtype::VortexResult;
use vx_eval_masks::RowMask;
use vx_value::Value;

/// What the function tells of each row. Refuses with `OutOfMemory` (1) alone.
pub fn told<'a, F: Fn(usize) -> Option<bool>>(
    alloc: Global,
    count: usize,
    f: F,
) -> VortexResult<Rows<'a>>
    requires { (i : ℕ) → i < count → F.pre f i }
    ensures rows { (g : ℕ → Datum) → TellsRows (λ i t. F.post f i t) count g → IfOk result (λ out. rows_view out ≡ each_row count g) }
    ensures memory { IfErr result (λ e. e ≡ OutOfMemory) }
{
    let mut truths = Vec::with_capacity(alloc, count)?;
    for i in 0..count {
        truths.push(f(i))?;
    }
    Ok(Rows::Truths(truths, Constants::new()))
}

/// The mask of the rows of which the function is true.
pub fn mask_of<F: Fn(usize) -> bool>(
    alloc: Global,
    count: usize,
    f: F,
) -> Result<RowMask, AllocError>
    requires { (i : ℕ) → i < count → F.pre f i }
    ensures { (g : ℕ → Datum) → TestsRows (λ i b. F.post f i b) count g → IfOk result (λ mask. mask ≡ map is_true (each_row count g)) }
{
    let mut bits = Vec::with_capacity(alloc, count)?;
    for i in 0..count {
        bits.push(f(i))?;
    }
    Ok(RowMask::new(bits))
}

/// The truth value that a value is, if it is one.
pub fn truth_of(value: &Value) -> Option<bool>
    ensures { result ≡ truth_of (value_of value.now) }
{
    match value {
        Value::Bool(b) => Some(*b),
        _ => None,
    }
}

/// The truth value or null as a value.
#[inline]
pub fn truth_value(truth: Option<bool>) -> Value
    ensures { value_of result ≡ truth_datum truth }
{
    match truth {
        None => Value::Null,
        Some(b) => Value::Bool(b),
    }
}

/// The truth value or null of that row as a value.
#[inline]
pub fn truth_at(truths: &[Option<bool>], i: usize) -> Value
    requires { i < length truths.now }
    ensures { value_of result ≡ get_or (map truth_datum truths.now) i null }
{
    truth_value(truths[i])
}

// Columns that are filled row by row.
ghost use Rattle.std.specs.Prelude.{◌++◌, ◌≡◌, ◌<◌, ℕ, IfOk, IfErr, length, get_or, Ok};
ghost use Rattle.vx_value.specs.Types.{Datum, null};
ghost use Rattle.vx_dtype.specs.declared.error.VortexError.TheVariants.{OutOfMemory};
ghost use Rattle.vx_eval.specs.Columns.{values_of, rows_view, each_row};
ghost use Rattle.vx_eval.specs.Kernels.{AnswersRows, MakesRows};

use crate::rows::Rows;
use std::alloc::{AllocError, Global};
use vx_dtype::VortexResult;
use vx_value::Value;

/// What the function gives at each row, as a column. Refuses with `OutOfMemory` (1) alone.
pub fn tabulated<'a, F: Fn(usize) -> Result<Value, AllocError>>(
    alloc: Global,
    count: usize,
    f: F,
) -> VortexResult<Rows<'a>>
    requires { (i : ℕ) → i < count → F.pre f i }
    ensures rows { (g : ℕ → Datum) → AnswersRows (λ i r. F.post f i r) count g → IfOk result (λ out. rows_view out ≡ each_row count g) }
    ensures memory { IfErr result (λ e. e ≡ OutOfMemory) }
{
    Ok(Rows::Owned(made_behind(Vec::with_capacity(alloc, count)?, count, f)?))
}

/// Other values, with what the function gives at each row behind them. They are taken and given
/// back, since pushing to a list that is lent costs more.
#[inline]
pub fn made_behind<F: Fn(usize) -> Result<Value, AllocError>>(
    mut values: Vec<Value>,
    count: usize,
    f: F,
) -> Result<Vec<Value>, AllocError>
    requires { (i : ℕ) → i < count → F.pre f i }
    ensures { (g : ℕ → Datum) → AnswersRows (λ i r. F.post f i r) count g → IfOk result (λ all. values_of all.items ≡ values_of values.items ++ each_row count g) }
{
    for i in 0..count {
        values.push(f(i)?)?;
    }
    Ok(values)
}

/// What the function makes of each row, in place. Refuses with `OutOfMemory` (1) alone.
pub fn overwritten<'a, F: Fn(usize, Value) -> Result<Value, AllocError>>(
    mut values: Vec<Value>,
    f: F,
) -> VortexResult<Rows<'a>>
    requires { (i : ℕ) (x : Value) → i < length values.items → F.pre f i x }
    ensures rows { (g : ℕ → Datum → Datum) → MakesRows (λ i x r. F.post f i x r) (length values.items) g → IfOk result (λ out. rows_view out ≡ each_row (length values.items) (λ k. g k (get_or (values_of values.items) k null))) }
    ensures memory { IfErr result (λ e. e ≡ OutOfMemory) }
{
    for i in 0..values.len() {
        let row = std::mem::replace(&mut values[i], Value::Null);
        let made = f(i, row)?;
        drop(std::mem::replace(&mut values[i], made));
    }
    Ok(Rows::Owned(values))
}

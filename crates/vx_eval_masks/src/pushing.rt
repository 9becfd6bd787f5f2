// Rows put behind others in one of two ways, as far as a run of true rows goes.
ghost use Rattle.std.specs.Prelude.{◌≡◌, ◌<◌, ℕ, IfOk, true, false, length, get_or};
ghost use Rattle.vx_eval_masks.specs.Masks.{IsRunFrom};
ghost use Rattle.vx_value.specs.Types.{Datum};
ghost use Rattle.vx_value.specs.Views.{value_of};
ghost use Rattle.vx_eval_masks.specs.Merges.{values_of, each_row, AnswersIn, HoldsIn, IsIn, StaysFrom};

use crate::choice::Merging;
use crate::mask::RowMask;
use std::alloc::AllocError;
use vx_value::Value;

/// Puts the values from that row on, as far as the mask is true, behind others, and gives the row
/// behind them. They are moved out, and the values behind them stay. Asks a mask that is true at
/// that row, and as many values as rows. Refuses with `AllocError` alone, with some of the values
/// pushed.
pub fn push_moved(
    merging: Merging,
    rows: &mut Vec<Value>,
    mask: &RowMask,
    from: usize,
    values: &mut Vec<Value>,
) -> Result<usize, AllocError>
    requires within { from < length mask.now }
    requires here { get_or mask.now from false ≡ true }
    requires values { length values.old.items ≡ length mask.now }
    ensures run { IfOk result (λ end. IsRunFrom mask.now from end) }
    ensures rows { (g : ℕ → Datum) → HoldsIn mask.now from (values_of values.old.items) g → values_of rows.old.items ≡ each_row from g → IfOk result (λ end. values_of rows.new.items ≡ each_row end g) }
    ensures left { IfOk result (λ end. StaysFrom end (values_of values.old.items) (values_of values.new.items)) }
    ensures long { IfOk result (λ _. length values.new.items ≡ length values.old.items) }
{
    let bits = mask.as_slice();
    let end = merging.limit(bits, from);
    for i in from..end {
        if !merging.goes_on(bits, i) {
            return Ok(i);
        }
        rows.push(std::mem::replace(&mut values[i], Value::Null))?;
    }
    Ok(end)
}

/// The same of what the function gives at these rows. It refuses where the function does, too.
pub fn push_with<F: Fn(usize) -> Result<Value, AllocError>>(
    merging: Merging,
    rows: &mut Vec<Value>,
    mask: &RowMask,
    from: usize,
    f: F,
) -> Result<usize, AllocError>
    requires within { from < length mask.now }
    requires here { get_or mask.now from false ≡ true }
    requires call { (i : ℕ) → i < length mask.now → F.pre f i }
    ensures run { IfOk result (λ end. IsRunFrom mask.now from end) }
    ensures rows { (g : ℕ → Datum) → AnswersIn (λ i r. F.post f i r) mask.now from g → values_of rows.old.items ≡ each_row from g → IfOk result (λ end. values_of rows.new.items ≡ each_row end g) }
{
    let bits = mask.as_slice();
    let end = merging.limit(bits, from);
    for i in from..end {
        if !merging.goes_on(bits, i) {
            return Ok(i);
        }
        rows.push(f(i)?)?;
    }
    Ok(end)
}

/// The same of one value at each of these rows: null, a truth value and a number without a copy
/// that could fail.
pub fn push_repeated(
    merging: Merging,
    rows: &mut Vec<Value>,
    mask: &RowMask,
    from: usize,
    value: &Value,
) -> Result<usize, AllocError>
    requires within { from < length mask.now }
    requires here { get_or mask.now from false ≡ true }
    ensures run { IfOk result (λ end. IsRunFrom mask.now from end) }
    ensures rows { (g : ℕ → Datum) → IsIn mask.now from (value_of value.now) g → values_of rows.old.items ≡ each_row from g → IfOk result (λ end. values_of rows.new.items ≡ each_row end g) }
{
    match value {
        Value::Null => push_with(merging, rows, mask, from, |_| Ok(Value::Null)),
        Value::Bool(b) => push_with(merging, rows, mask, from, |_| Ok(Value::Bool(*b))),
        Value::Int(z) => push_with(merging, rows, mask, from, |_| Ok(Value::Int(*z))),
        Value::Float(x) => push_with(merging, rows, mask, from, |_| Ok(Value::Float(*x))),
        _ => push_with(merging, rows, mask, from, |_| value.clone()),
    }
}

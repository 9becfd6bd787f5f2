// Rows written over where a mask is true.
ghost use Rattle.std.specs.Prelude.{◌≡◌, ◌<◌, ℕ, IfOk, length, get_or};
ghost use Rattle.vx_value.specs.Types.{Datum, null};
ghost use Rattle.vx_value.specs.Views.{value_of};
ghost use Rattle.vx_eval_masks.specs.Merges.{values_of, IsWritten, AnswersIn};

use std::alloc::AllocError;
use vx_value::Value;

/// Moves the values of the true rows into these rows. Asks a mask and values of as many rows.
pub fn write_moved(rows: &mut Vec<Value>, mask: &[bool], mut values: Vec<Value>)
    requires mask { length mask.now ≡ length rows.old.items }
    requires values { length values.items ≡ length rows.old.items }
    ensures { IsWritten mask.now (λ k. get_or (values_of values.items) k null) (values_of rows.old.items) (values_of rows.new.items) }
{
    for i in 0..mask.len() {
        if !mask[i] {
            continue;
        }
        rows[i] = std::mem::replace(&mut values[i], Value::Null);
    }
}

/// Writes what the function gives at the true rows into these rows. Asks a mask of as many rows.
/// Refuses where the function does, with some of the rows written.
pub fn write_with<F: Fn(usize) -> Result<Value, AllocError>>(
    rows: &mut Vec<Value>,
    mask: &[bool],
    f: F,
) -> Result<(), AllocError>
    requires mask { length mask.now ≡ length rows.old.items }
    requires call { (i : ℕ) → i < length mask.now → F.pre f i }
    ensures { (g : ℕ → Datum) → AnswersIn (λ i r. F.post f i r) mask.now 0 g → IfOk result (λ _. IsWritten mask.now g (values_of rows.old.items) (values_of rows.new.items)) }
{
    for i in 0..mask.len() {
        if !mask[i] {
            continue;
        }
        rows[i] = f(i)?;
    }
    Ok(())
}

/// Writes one value into the true rows: null, a truth value and a number without a copy that could
/// fail. Asks a mask of as many rows.
pub fn write_repeated(rows: &mut Vec<Value>, mask: &[bool], value: &Value) -> Result<(), AllocError>
    requires mask { length mask.now ≡ length rows.old.items }
    ensures { IfOk result (λ _. IsWritten mask.now (λ k. value_of value.now) (values_of rows.old.items) (values_of rows.new.items)) }
{
    match value {
        Value::Null => write_with(rows, mask, |_| Ok(Value::Null)),
        Value::Bool(b) => write_with(rows, mask, |_| Ok(Value::Bool(*b))),
        Value::Int(z) => write_with(rows, mask, |_| Ok(Value::Int(*z))),
        Value::Float(x) => write_with(rows, mask, |_| Ok(Value::Float(*x))),
        _ => write_with(rows, mask, |_| value.clone()),
    }
}

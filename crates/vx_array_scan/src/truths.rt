// The rows at which a column is true.
ghost use Rattle.std.specs.Prelude.{◌≡◌, IfOk, get_or, map};
ghost use Rattle.std.proofs.Math.ListN.{replicate};
ghost use Rattle.vx_value.specs.Types.{bool, null};
ghost use Rattle.vx_value.specs.Views.{value_of};
ghost use Rattle.vx_fn.specs.Values.{is_true};
ghost use Rattle.vx_array.specs.Rows.{lanes_rows};
ghost use Rattle.vx_array.specs.Shown.{masked, shown};

use std::alloc::{AllocError, Global};
use vx_array::{BitPart, Lanes, Validity};
use vx_array_loops::Bits;
use vx_value::Value;

// For each row whether it is true.
pub(crate) fn true_rows(alloc: Global, lanes: &Lanes) -> Result<Bits, AllocError>
    ensures { IfOk result (λ rows. rows ≡ map is_true (lanes_rows lanes.now)) }
{
    match lanes {
        Lanes::Same(value, count) => repeated(alloc, is_true(value), *count),
        Lanes::Values(values) => truths_of(alloc, values.as_slice()),
        Lanes::Bools(truths, validity) => valid_truths(alloc, truths, validity),
        Lanes::Numbers(_, _) => Bits::zeros(alloc, lanes.len()),
        Lanes::Floats(_, _) => Bits::zeros(alloc, lanes.len()),
        Lanes::Texts(_, _) => Bits::zeros(alloc, lanes.len()),
        Lanes::Octets(_, _) => Bits::zeros(alloc, lanes.len()),
        Lanes::Structs(_, _, _) => Bits::zeros(alloc, lanes.len()),
    }
}

// The same truth value so often.
pub(crate) fn repeated(alloc: Global, truth: bool, count: usize) -> Result<Bits, AllocError>
    ensures { IfOk result (λ rows. rows ≡ replicate count truth) }
{
    Bits::tabulated(alloc, count, |_| truth)
}

// For each value whether it is true.
fn truths_of(alloc: Global, values: &[Value]) -> Result<Bits, AllocError>
    ensures { IfOk result (λ rows. rows ≡ map is_true (map value_of values.now)) }
{
    Bits::tabulated(alloc, values.len(), |k| is_true_at(values, k))
}

// Whether the value at that place is true, if there is one.
#[inline]
fn is_true_at(values: &[Value], k: usize) -> bool
    ensures { result ≡ is_true (get_or (map value_of values.now) k null) }
{
    match values.get(k) {
        Some(value) => is_true(value),
        None => false,
    }
}

fn is_true(value: &Value) -> bool
    ensures { result ≡ is_true (value_of value.now) }
{
    match value {
        Value::Bool(truth) => *truth,
        _ => false,
    }
}

// The truth values that are true where they are valid.
fn valid_truths(alloc: Global, truths: &BitPart, validity: &Validity) -> Result<Bits, AllocError>
    ensures { IfOk result (λ rows. rows ≡ map is_true (shown validity.now (map bool truths.now))) }
{
    match validity {
        Validity::All => truths.first(alloc, truths.len()),
        Validity::Nothing => Bits::zeros(alloc, truths.len()),
        Validity::Rows(valid) => valid_and_true(alloc, truths, valid),
    }
}

// The rows that are true and valid, as far as both last.
fn valid_and_true(alloc: Global, truths: &BitPart, valid: &BitPart) -> Result<Bits, AllocError>
    ensures { IfOk result (λ rows. rows ≡ map is_true (masked valid.now (map bool truths.now))) }
{
    let count = truths.len().min(valid.len());
    let mut rows = truths.first(alloc, count)?;
    rows.and_with(&valid.first(alloc, count)?);
    Ok(rows)
}

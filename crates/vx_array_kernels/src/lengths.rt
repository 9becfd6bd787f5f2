// Lengths of texts in a buffer.
ghost use Rattle.std.specs.Prelude.{◌≡◌, ◌≤◌, ◌<◌, ◌-◌, ◌^◌, IfOk, [], get_or, length, map, min, pos};
ghost use Rattle.vx_value.specs.Views.{value_of};
ghost use Rattle.vx_fn.specs.Values.{counted_bytes};
ghost use Rattle.vx_array.specs.Kinds.{spans_in};
ghost use Rattle.vx_array.specs.Rows.{lanes_rows};
ghost use Rattle.vx_array_kernels.specs.Found.{Finds};
ghost use Rattle.vx_array_kernels.specs.Likeness.{text_rows};

use crate::likeness::Texts;
use crate::text_validity::text_validity;
use std::alloc::{AllocError, Global};
use std::sync::Arc;
use vx_array::{Lanes, Numbers, Part, Spans};
use vx_array_loops::tabulated;
use vx_value::Value;

/// The number of each text's bytes. There is an answer for texts in a buffer, whose offsets tell it, and for
/// one value in all rows.
pub fn byte_length(alloc: Global, input: &Lanes) -> Result<Option<Lanes>, AllocError>
    ensures { Finds (map counted_bytes (lanes_rows input.now)) result }
{
    match input {
        Lanes::Texts(spans, validity) => {
            let texts = Texts {
                count: input.len(),
                spans,
                validity,
            };
            Ok(Some(lengths_of(alloc, texts)?))
        }
        Lanes::Same(value, count) => {
            let length = Arc::new(alloc, counted(value.as_ref()))?;
            Ok(Some(Lanes::Same(length, *count)))
        }
        _ => Ok(None),
    }
}

// The number of each text's bytes.
fn lengths_of(alloc: Global, texts: Texts) -> Result<Lanes, AllocError>
    requires long { length (text_rows texts) ≡ texts.count }
    requires there { texts.count ≤ length (spans_in texts.spans.now) }
    ensures { IfOk result (λ out. lanes_rows out ≡ map counted_bytes (text_rows texts.entry)) }
{
    let lengths = tabulated(alloc, texts.count, 0, |k| length_at(texts.spans, k))?;
    let numbers = Numbers::I64(Part::new(alloc, lengths)?);
    Ok(Lanes::Numbers(numbers, text_validity(alloc, texts)?))
}

// The number of that row's bytes.
#[inline(always)]
fn length_at(spans: &Spans, k: usize) -> i64
    requires { k < length (spans_in spans.now) }
    ensures { result ≡ pos (min (length (get_or (spans_in spans.now) k [])) (2 ^ 63 - 1)) }
{
    spans.span(k).len().min(i64::MAX as usize) as i64
}

// The number of the text's bytes; null of null.
fn counted(value: &Value) -> Value
    ensures { value_of result ≡ counted_bytes (value_of value.now) }
{
    match value {
        Value::Utf8(text) => Value::Int(text.len().min(i64::MAX as usize) as i128),
        _ => Value::Null,
    }
}

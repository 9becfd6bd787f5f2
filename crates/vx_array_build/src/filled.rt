// Buffers that are filled from values without others inside them.
ghost use Rattle.std.specs.Prelude.{◌≡◌, ℕ, ⊤, ◌<◌, IfOk, IfSome, MatchOption, false, true, get_or, length, map};
ghost use Rattle.vx_value.specs.Types.{bool, bytes, int, is_null_datum, null, utf8};
ghost use Rattle.vx_value.specs.Views.{value_of};
ghost use Rattle.vx_array.specs.Kinds.{spans_in, text_row};
ghost use Rattle.vx_array_build.specs.Filled.{IsFilled, IsValidity, rows_lent};
ghost use Rattle.vx_array_build.specs.FloatBits.{float_row};

use crate::float_bits::{FloatBits, float_bits};
use crate::native::Native;
use crate::spans_builder::SpansBuilder;
use std::alloc::{AllocError, Global};
use vx_array::{BitPart, Numbers, Part, Spans, Validity};
use vx_array_loops::{Bits, Number};
use vx_value::Value;

// Which rows aren't null.
pub(crate) fn validity_of(alloc: Global, rows: &[&Value]) -> Result<Validity, AllocError>
    ensures { IfOk result (λ v. IsValidity v (rows_lent rows.now)) }
{
    if none_is_null(rows) {
        return Ok(Validity::All);
    }
    let mut valid = Vec::with_capacity(alloc, rows.len())?;
    for i in 0..rows.len() {
        valid.push(!rows[i].is_null())?;
    }
    let bits = Bits::from_bools(alloc, valid.as_slice())?;
    Ok(Validity::Rows(BitPart::new(alloc, bits)?))
}

// The truth values, if all rows are some or null.
pub(crate) fn truths_of(alloc: Global, rows: &[&Value]) -> Result<Option<BitPart>, AllocError>
    ensures { IfOk result (λ found. IfSome found (λ bits. IsFilled (map bool bits) (rows_lent rows.now) (length rows.now))) }
{
    let mut truths = Vec::with_capacity(alloc, rows.len())?;
    for i in 0..rows.len() {
        match truth_in(rows[i]) {
            Some(truth) => truths.push(truth)?,
            None => return Ok(None),
        }
    }
    let bits = Bits::from_bools(alloc, truths.as_slice())?;
    Ok(Some(BitPart::new(alloc, bits)?))
}

// The numbers, if all rows are some of the type or null.
pub(crate) fn numbers_of<T: Native>(
    alloc: Global,
    rows: &[&Value],
) -> Result<Option<Part<T>>, AllocError>
    ensures { IfOk result (λ found. IfSome found (λ numbers. IsFilled (map int (map T.number numbers)) (rows_lent rows.now) (length rows.now))) }
{
    let mut numbers = Vec::with_capacity(alloc, rows.len())?;
    for i in 0..rows.len() {
        match number_in::<T>(rows[i]) {
            Some(number) => numbers.push(number)?,
            None => return Ok(None),
        }
    }
    Ok(Some(Part::new(alloc, numbers)?))
}

// The bits of the floating-point numbers, if all rows are some of the format or null.
pub(crate) fn bits_of<T: FloatBits>(
    alloc: Global,
    rows: &[&Value],
) -> Result<Option<Part<T>>, AllocError>
    ensures { IfOk result (λ found. IfSome found (λ bits. IsFilled (map (float_row T.format) (map int (map T.number bits))) (rows_lent rows.now) (length rows.now))) }
{
    let mut bits = Vec::with_capacity(alloc, rows.len())?;
    for i in 0..rows.len() {
        match bits_in::<T>(rows[i]) {
            Some(number) => bits.push(number)?,
            None => return Ok(None),
        }
    }
    Ok(Some(Part::new(alloc, bits)?))
}

// The texts, if all rows are some or null.
pub(crate) fn texts_of(alloc: Global, rows: &[&Value]) -> Result<Option<Spans>, AllocError>
    ensures { IfOk result (λ found. IfSome found (λ spans. IsFilled (map text_row (spans_in spans)) (rows_lent rows.now) (length rows.now))) }
{
    let mut spans = SpansBuilder::with_capacity(alloc, rows.len())?;
    for i in 0..rows.len() {
        match text_in(rows[i]) {
            Some(text) => spans = spans.push_text(text)?,
            None => return Ok(None),
        }
    }
    Ok(Some(spans.finish(alloc)?))
}

// The bytes, if all rows are some or null.
pub(crate) fn octets_of(alloc: Global, rows: &[&Value]) -> Result<Option<Spans>, AllocError>
    ensures { IfOk result (λ found. IfSome found (λ spans. IsFilled (map bytes (spans_in spans)) (rows_lent rows.now) (length rows.now))) }
{
    let mut spans = SpansBuilder::with_capacity(alloc, rows.len())?;
    for i in 0..rows.len() {
        match octets_in(rows[i]) {
            Some(bytes) => spans = spans.push(bytes)?,
            None => return Ok(None),
        }
    }
    Ok(Some(spans.finish(alloc)?))
}

// Whether no row is null.
fn none_is_null(rows: &[&Value]) -> bool
    ensures { result ≡ true → (k : ℕ) → k < length rows.now → is_null_datum (get_or (rows_lent rows.now) k null) ≡ false }
{
    for i in 0..rows.len() {
        if rows[i].is_null() {
            return false;
        }
    }
    true
}

// The truth value, and some one for null.
fn truth_in(value: &Value) -> Option<bool>
    ensures { MatchOption result ⊤ (λ b. is_null_datum (value_of value.now) ≡ false → bool b ≡ value_of value.now) }
{
    match value {
        Value::Bool(truth) => Some(*truth),
        Value::Null => Some(false),
        _ => None,
    }
}

// The number where it is one of the type, and some one for null.
fn number_in<T: Number>(value: &Value) -> Option<T>
    ensures { MatchOption result ⊤ (λ x. is_null_datum (value_of value.now) ≡ false → int (T.number x) ≡ value_of value.now) }
{
    match value {
        Value::Int(number) => T::narrowed(*number),
        Value::Null => Some(T::zero()),
        _ => None,
    }
}

// The bits of the floating-point number where it is one of the format, and some for null.
fn bits_in<T: FloatBits>(value: &Value) -> Option<T>
    ensures { MatchOption result ⊤ (λ x. is_null_datum (value_of value.now) ≡ false → float_row T.format (int (T.number x)) ≡ value_of value.now) }
{
    match value {
        Value::Float(float) => match float_bits(T::float_type(), *float) {
            Some(bits) => T::narrowed(bits as i128),
            None => None,
        },
        Value::Null => Some(T::zero()),
        _ => None,
    }
}

// The text, and an empty one for null.
fn text_in(value: &Value) -> Option<&str>
    ensures { MatchOption result ⊤ (λ t. is_null_datum (value_of value.now) ≡ false → utf8 t.now ≡ value_of value.now) }
{
    match value {
        Value::Utf8(text) => Some(text.as_str()),
        Value::Null => Some(""),
        _ => None,
    }
}

// The bytes, and none for null.
fn octets_in(value: &Value) -> Option<&[u8]>
    ensures { MatchOption result ⊤ (λ b. is_null_datum (value_of value.now) ≡ false → bytes b.now ≡ value_of value.now) }
{
    match value {
        Value::Binary(bytes) => Some(bytes.as_slice()),
        Value::Null => Some(&[]),
        _ => None,
    }
}

// Arrays of texts and of bytes.
ghost use Rattle.std.specs.Prelude.{◌≡◌, IfOk, Ok, map};
ghost use Rattle.vx_dtype.specs.Returns.{ReturnsOrOom};
ghost use Rattle.vx_value.specs.Types.{atomic, bytes, octets, text, utf8};
ghost use Rattle.vx_array.specs.Kinds.{spans_in, text_row};
ghost use Rattle.vx_array_build.specs.Built.{column_by};

use crate::spans_builder::SpansBuilder;
use crate::validity::{nullability, or_all};
use std::alloc::{AllocError, Global};
use vx_array::{Array, Lanes, Spans, Validity};
use vx_dtype::{DType, VortexResult};

/// The array of these texts, which are copied. With a validity it is nullable, and has as many rows as both.
/// Refuses with `OutOfMemory` (1) alone.
pub fn texts(alloc: Global, texts: &[&str], validity: Option<Validity>) -> VortexResult<Array>
    ensures { ReturnsOrOom (λ a. a) result (Ok (column_by (atomic text) validity (map (λ t. utf8 t.now) texts.now))) }
{
    let spans = spans_of_texts(alloc, texts)?;
    let dtype = DType::Utf8(nullability(&validity));
    Ok(Array::new(dtype, Lanes::Texts(spans, or_all(validity))))
}

/// The array of these bytes, which are copied. With a validity it is nullable, and has as many rows as both.
/// Refuses with `OutOfMemory` (1) alone.
pub fn binaries(alloc: Global, rows: &[&[u8]], validity: Option<Validity>) -> VortexResult<Array>
    ensures { ReturnsOrOom (λ a. a) result (Ok (column_by (atomic octets) validity (map (λ b. bytes b.now) rows.now))) }
{
    let spans = spans_of(alloc, rows)?;
    let dtype = DType::Binary(nullability(&validity));
    Ok(Array::new(dtype, Lanes::Octets(spans, or_all(validity))))
}

// The texts, one after another.
fn spans_of_texts(alloc: Global, texts: &[&str]) -> Result<Spans, AllocError>
    ensures { IfOk result (λ s. map text_row (spans_in s) ≡ map (λ t. utf8 t.now) texts.now) }
{
    let mut spans = SpansBuilder::with_capacity(alloc, texts.len())?;
    for i in 0..texts.len() {
        spans = spans.push_text(texts[i])?;
    }
    spans.finish(alloc)
}

// The rows, one after another.
fn spans_of(alloc: Global, rows: &[&[u8]]) -> Result<Spans, AllocError>
    ensures { IfOk result (λ s. map bytes (spans_in s) ≡ map (λ b. bytes b.now) rows.now) }
{
    let mut spans = SpansBuilder::with_capacity(alloc, rows.len())?;
    for i in 0..rows.len() {
        spans = spans.push(rows[i])?;
    }
    spans.finish(alloc)
}

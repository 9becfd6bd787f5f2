// Rows of texts or of bytes, each taken from one of several columns.
ghost use Rattle.std.specs.Prelude.{◌≡◌, [], ℕ, IfOk, IfSome, List, get_or, map};
ghost use Rattle.vx_value.specs.Types.{Datum, null};
ghost use Rattle.vx_array.specs.Kinds.{spans_in};
ghost use Rattle.vx_array.specs.Rows.{lanes_each, lanes_rows};
ghost use Rattle.vx_array.specs.Shown.{masked, shown};
ghost use Rattle.vx_array_kernels.specs.ByteRows.{picked_rows, shown_row};
ghost use Rattle.vx_array_kernels.specs.Found.{Finds};

use crate::byte_kind::ByteKind;
use crate::validity::validity_by;
use std::alloc::{AllocError, Global};
use vx_array::{Lanes, Spans, Validity};
use vx_array_build::SpansBuilder;
use vx_array_loops::Bits;

/// The rows, each copied out of the column of the number that was chosen for it. There is an answer where
/// each is null or of the kind.
pub fn gathered<K: ByteKind>(
    alloc: Global,
    columns: &[Lanes],
    choices: &[usize],
) -> Result<Option<Lanes>, AllocError>
    ensures { Finds (picked_rows (lanes_each columns.now) choices.now) result }
{
    let mut spans = SpansBuilder::with_capacity(alloc, choices.len())?;
    let mut valid = Vec::with_capacity(alloc, choices.len())?;
    for k in 0..choices.len() {
        let Some((bytes, is_valid)) = row_at::<K>(columns, choices[k], k) else {
            return Ok(None);
        };
        spans = spans.push(bytes)?;
        valid.push(is_valid)?;
    }
    Ok(Some(finished::<K>(alloc, spans, valid)?))
}

// The rows as lanes, null where they aren't valid.
fn finished<K: ByteKind>(
    alloc: Global,
    spans: SpansBuilder,
    valid: Vec<bool>,
) -> Result<Lanes, AllocError>
    ensures { IfOk result (λ out. lanes_rows out ≡ masked valid.items (map K.datum spans)) }
{
    let spans = spans.finish(alloc)?;
    let valid = Bits::from_bools(alloc, valid.as_slice())?;
    let validity = validity_by(alloc, valid, spans.len())?;
    Ok(K::lanes(spans, validity))
}

// The bytes of that row of the column of that number, beside whether it isn't null, if it is there, and null
// or of the kind.
#[inline(always)]
fn row_at<K: ByteKind>(columns: &[Lanes], number: usize, k: usize) -> Option<(&[u8], bool)>
    ensures { IfSome result (λ row. shown_row K.datum row.1 row.0.now ≡ get_or (get_or (lanes_each columns.now) number []) k null) }
{
    match columns.get(number) {
        Some(lanes) => row_of::<K>(lanes, k),
        None => None,
    }
}

// The same of one column.
#[inline(always)]
fn row_of<K: ByteKind>(lanes: &Lanes, k: usize) -> Option<(&[u8], bool)>
    ensures { IfSome result (λ row. shown_row K.datum row.1 row.0.now ≡ get_or (lanes_rows lanes.now) k null) }
{
    match K::spans_of(lanes) {
        Some((spans, validity)) => span_at(spans, validity, k),
        None => boxed_at::<K>(lanes, k),
    }
}

// The bytes of that row, beside whether it is valid, if it is there.
#[inline(always)]
fn span_at<'a>(spans: &'a Spans, validity: &Validity, k: usize) -> Option<(&'a [u8], bool)>
    ensures { IfSome result (λ row. (f : List ℕ → Datum) → shown_row f row.1 row.0.now ≡ get_or (shown validity.now (map f (spans_in spans.now))) k null) }
{
    if !validity.is_valid(k) {
        return Some(("".as_bytes(), false));
    }
    if k < spans.len() {
        return Some((spans.span(k), true));
    }
    None
}

// The same of a row that is a value by itself.
#[inline(never)]
fn boxed_at<K: ByteKind>(lanes: &Lanes, k: usize) -> Option<(&[u8], bool)>
    ensures { IfSome result (λ row. shown_row K.datum row.1 row.0.now ≡ get_or (lanes_rows lanes.now) k null) }
{
    match lanes {
        Lanes::Same(value, count) => {
            if k < *count {
                K::bytes_of(value.as_ref())
            } else {
                None
            }
        }
        Lanes::Values(values) => match values.as_slice().get(k) {
            Some(value) => K::bytes_of(value),
            None => None,
        },
        _ => None,
    }
}

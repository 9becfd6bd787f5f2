// Whether values in buffers are null.
ghost use Rattle.std.specs.Prelude.{◌≡◌, IfOk, IfSome, length, map};
ghost use Rattle.std.proofs.Math.ListN.{replicate};
ghost use Rattle.vx_value.specs.Types.{bool};
ghost use Rattle.vx_array.specs.Rows.{lanes_rows};
ghost use Rattle.vx_array_kernels.specs.Found.{Finds};
ghost use Rattle.vx_array_kernels.specs.Truths.{null_told, value_told, AreValues, IsNulls, TellsNulls};

use crate::likeness::{Texts, texts_there};
use crate::truths::{turned, valid_rows};
use std::alloc::{AllocError, Global};
use std::sync::Arc;
use vx_array::{BitPart, Lanes, Validity};
use vx_array_loops::Bits;
use vx_value::Value;

/// Whether each row is null. There is an answer for one value in all rows, and for rows in
/// buffers.
pub fn is_null(alloc: Global, input: &Lanes) -> Result<Option<Lanes>, AllocError>
    ensures { Finds (map null_told (lanes_rows input.now)) result }
{
    if let Lanes::Same(value, count) = input {
        return Ok(Some(repeated(alloc, value.is_null(), *count)?));
    }
    match value_rows(alloc, input.len(), input)? {
        Some(values) => Ok(Some(truths(alloc, turned(alloc, &values)?)?)),
        None => Ok(None),
    }
}

/// Whether each row isn't null. There is an answer as for `is_null`.
pub fn is_not_null(alloc: Global, input: &Lanes) -> Result<Option<Lanes>, AllocError>
    ensures { Finds (map value_told (lanes_rows input.now)) result }
{
    if let Lanes::Same(value, count) = input {
        return Ok(Some(repeated(alloc, !value.is_null(), *count)?));
    }
    match value_rows(alloc, input.len(), input)? {
        Some(values) => Ok(Some(truths(alloc, values)?)),
        None => Ok(None),
    }
}

/// Of so many rows those that are null. There is an answer for rows in buffers.
pub fn null_rows(alloc: Global, count: usize, input: &Lanes) -> Result<Option<Bits>, AllocError>
    requires { length (lanes_rows input.now) ≡ count }
    ensures { IfOk result (λ found. IfSome found (λ bits. IsNulls bits (lanes_rows input.now))) }
{
    match value_rows(alloc, count, input)? {
        Some(values) => Ok(Some(turned(alloc, &values)?)),
        None => Ok(None),
    }
}

// Which of so many rows aren't null, if they are in buffers.
fn value_rows(alloc: Global, count: usize, input: &Lanes) -> Result<Option<Bits>, AllocError>
    requires { length (lanes_rows input.now) ≡ count }
    ensures { IfOk result (λ found. IfSome found (λ bits. AreValues bits (lanes_rows input.now))) }
{
    if let Lanes::Texts(spans, validity) = input {
        let texts = Texts {
            count,
            spans,
            validity,
        };
        return Ok(Some(texts_there(alloc, texts)?));
    }
    match validity_of(input) {
        Some(validity) => Ok(Some(valid_rows(alloc, count, validity)?)),
        None => Ok(None),
    }
}

// The validity that says which rows are null, if there is one.
fn validity_of(lanes: &Lanes) -> Option<&Validity>
    ensures { IfSome result (λ v. TellsNulls v.now (lanes_rows lanes.now)) }
{
    match lanes {
        Lanes::Bools(_, validity) => Some(validity),
        Lanes::Numbers(_, validity) => Some(validity),
        Lanes::Floats(_, validity) => Some(validity),
        Lanes::Octets(_, validity) => Some(validity),
        Lanes::Structs(_, _, validity) => Some(validity),
        _ => None,
    }
}

// Truth values, all of them valid.
fn truths(alloc: Global, told: Bits) -> Result<Lanes, AllocError>
    ensures { IfOk result (λ out. lanes_rows out ≡ map bool told) }
{
    Ok(Lanes::Bools(BitPart::new(alloc, told)?, Validity::All))
}

// One truth value in so many rows.
fn repeated(alloc: Global, told: bool, count: usize) -> Result<Lanes, AllocError>
    ensures { IfOk result (λ out. lanes_rows out ≡ replicate count (bool told)) }
{
    Ok(Lanes::Same(Arc::new(alloc, Value::Bool(told))?, count))
}

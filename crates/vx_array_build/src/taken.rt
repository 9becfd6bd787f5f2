// Lanes of rows that are named.
ghost use Rattle.std.specs.Prelude.{◌≡◌, ◌+◌, ℕ, List, IfOk, length, get_or, map, pos};
ghost use Rattle.vx_array.specs.Kinds.{bits_in, floats_in, format_in, numbers_in, spans_in};
ghost use Rattle.vx_array.specs.Rows.{lanes_each, lanes_rows};
ghost use Rattle.vx_array_build.specs.Taken.{AreWithin, IsTaken, rows_at};

use crate::gather::{are_within, gather, gather_bits};
use crate::spans_builder::SpansBuilder;
use std::alloc::{AllocError, Global};
use std::sync::Arc;
use vx_array::{BitPart, Floats, Lanes, Numbers, Part, Spans, Stretch, Validity, value_at};
use vx_array_loops::Number;

// The rows of these indices, null where there is none.
#[cycle(take)]
pub(crate) fn taken(alloc: Global, lanes: &Lanes, indices: &[usize]) -> Result<Lanes, AllocError>
    ensures { IfOk result (λ l. lanes_rows l ≡ rows_at (lanes_rows lanes.now) indices.now) }
{
    if !are_within(indices, lanes.len()) {
        return boxed(alloc, lanes, indices);
    }
    match lanes {
        Lanes::Same(value, _) => Ok(Lanes::Same(value.clone()?, indices.len())),
        Lanes::Bools(bits, validity) => {
            let bits = BitPart::new(alloc, gather_bits(alloc, bits, indices)?)?;
            Ok(Lanes::Bools(bits, validity_taken(alloc, validity, indices)?))
        }
        Lanes::Numbers(numbers, validity) => {
            let numbers = numbers_taken(alloc, numbers, indices)?;
            Ok(Lanes::Numbers(numbers, validity_taken(alloc, validity, indices)?))
        }
        Lanes::Floats(floats, validity) => {
            let floats = floats_taken(alloc, floats, indices)?;
            Ok(Lanes::Floats(floats, validity_taken(alloc, validity, indices)?))
        }
        Lanes::Texts(spans, validity) => {
            let spans = spans_taken(alloc, spans, indices)?;
            Ok(Lanes::Texts(spans, validity_taken(alloc, validity, indices)?))
        }
        Lanes::Octets(spans, validity) => {
            let spans = spans_taken(alloc, spans, indices)?;
            Ok(Lanes::Octets(spans, validity_taken(alloc, validity, indices)?))
        }
        Lanes::Structs(fields, stretch, validity) => {
            let shifted = shifted(alloc, *stretch, indices)?;
            let fields = each_taken(alloc, fields.as_slice(), shifted.as_slice())?;
            let validity = validity_taken(alloc, validity, indices)?;
            let rows = Stretch::first(indices.len());
            Ok(Lanes::Structs(Arc::new(alloc, fields)?, rows, validity))
        }
        _ => boxed(alloc, lanes, indices),
    }
}

// The rows of these indices of each of the lanes.
#[cycle(take)]
fn each_taken(alloc: Global, fields: &[Lanes], indices: &[usize]) -> Result<Vec<Lanes>, AllocError>
    ensures { IfOk result (λ ls. lanes_each ls.items ≡ map (λ rows. rows_at rows indices.now) (lanes_each fields.now)) }
{
    let mut each = Vec::with_capacity(alloc, fields.len())?;
    for field in fields {
        each.push(taken(alloc, field, indices)?)?;
    }
    Ok(each)
}

// The indices of the same rows of a stretch in the lanes that it is one of.
fn shifted(alloc: Global, stretch: Stretch, indices: &[usize]) -> Result<Vec<usize>, AllocError>
    requires { AreWithin indices.now stretch.len }
    ensures { IfOk result (λ v. v.items ≡ map (λ i. stretch.from + i) indices.now) }
{
    let mut shifted = Vec::with_capacity(alloc, indices.len())?;
    for i in 0..indices.len() {
        shifted.push(stretch.from() + indices[i])?;
    }
    Ok(shifted)
}

// The rows of these indices, in boxes.
fn boxed(alloc: Global, lanes: &Lanes, indices: &[usize]) -> Result<Lanes, AllocError>
    ensures { IfOk result (λ l. lanes_rows l ≡ rows_at (lanes_rows lanes.now) indices.now) }
{
    let mut values = Vec::with_capacity(alloc, indices.len())?;
    for i in 0..indices.len() {
        values.push(value_at(alloc, lanes, indices[i])?)?;
    }
    Ok(Lanes::Values(Part::new(alloc, values)?))
}

// The validity of the rows of these indices.
fn validity_taken(
    alloc: Global,
    validity: &Validity,
    indices: &[usize],
) -> Result<Validity, AllocError>
    ensures { IfOk result (λ v. IsTaken validity.now indices.now v) }
{
    match validity {
        Validity::All => Ok(Validity::All),
        Validity::Nothing => Ok(Validity::Nothing),
        Validity::Rows(bits) => {
            let bits = gather_bits(alloc, bits, indices)?;
            Ok(Validity::Rows(BitPart::new(alloc, bits)?))
        }
    }
}

// The bytes of the rows of these indices.
fn spans_taken(alloc: Global, spans: &Spans, indices: &[usize]) -> Result<Spans, AllocError>
    requires { AreWithin indices.now (length (spans_in spans.now)) }
    ensures { IfOk result (λ s. (d : List ℕ) → spans_in s ≡ map (λ i. get_or (spans_in spans.now) i d) indices.now) }
{
    let mut taken = SpansBuilder::with_capacity(alloc, indices.len())?;
    for i in 0..indices.len() {
        taken = taken.push(spans.span(indices[i]))?;
    }
    taken.finish(alloc)
}

// The numbers of these indices.
fn numbers_taken(alloc: Global, numbers: &Numbers, indices: &[usize]) -> Result<Numbers, AllocError>
    requires { AreWithin indices.now (length (numbers_in numbers.now)) }
    ensures { IfOk result (λ n. numbers_in n ≡ map (λ i. get_or (numbers_in numbers.now) i (pos 0)) indices.now) }
{
    match numbers {
        Numbers::U8(numbers) => Ok(Numbers::U8(gathered(alloc, numbers, indices)?)),
        Numbers::U16(numbers) => Ok(Numbers::U16(gathered(alloc, numbers, indices)?)),
        Numbers::U32(numbers) => Ok(Numbers::U32(gathered(alloc, numbers, indices)?)),
        Numbers::U64(numbers) => Ok(Numbers::U64(gathered(alloc, numbers, indices)?)),
        Numbers::I8(numbers) => Ok(Numbers::I8(gathered(alloc, numbers, indices)?)),
        Numbers::I16(numbers) => Ok(Numbers::I16(gathered(alloc, numbers, indices)?)),
        Numbers::I32(numbers) => Ok(Numbers::I32(gathered(alloc, numbers, indices)?)),
        Numbers::I64(numbers) => Ok(Numbers::I64(gathered(alloc, numbers, indices)?)),
    }
}

// The floating-point numbers of these indices.
fn floats_taken(alloc: Global, floats: &Floats, indices: &[usize]) -> Result<Floats, AllocError>
    requires { AreWithin indices.now (length (floats_in floats.now)) }
    ensures format { IfOk result (λ f. format_in f ≡ format_in floats.now) }
    ensures bits { IfOk result (λ f. map (λ b. pos b) (bits_in f) ≡ map (λ i. get_or (map (λ b. pos b) (bits_in floats.now)) i (pos 0)) indices.now) }
{
    match floats {
        Floats::F32(bits) => Ok(Floats::F32(gathered(alloc, bits, indices)?)),
        Floats::F64(bits) => Ok(Floats::F64(gathered(alloc, bits, indices)?)),
    }
}

// The numbers of these indices, of one width.
fn gathered<T: Number>(
    alloc: Global,
    numbers: &Part<T>,
    indices: &[usize],
) -> Result<Part<T>, AllocError>
    requires { AreWithin indices.now (length numbers.now) }
    ensures { IfOk result (λ p. map T.number p ≡ map (λ i. get_or (map T.number numbers.now) i (pos 0)) indices.now) }
{
    let gathered = gather(alloc, numbers.as_slice(), T::zero(), indices)?;
    Part::new(alloc, gathered)
}

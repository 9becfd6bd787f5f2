// Bits of a buffer's bytes, and which rows they say are null.
ghost use Rattle.std.specs.Prelude.{◌≡◌, ◌/◌, ◌<◌, ℕ, IfOk, IfSome, Some, false, get_or, length, true};
ghost use Rattle.vx_array.specs.declared.validity.Validity.{Validity as Valid};
ghost use Rattle.vx_data_buffers.specs.Arrays.{AreBits, Tells, if_nullable};
ghost use Rattle.vx_data_buffers.specs.Bytes.{bit_of, bytes_in};

use crate::Buffer;
use crate::buffer::bytes_at;
use std::alloc::{AllocError, Global};
use vx_array::{BitPart, Validity};
use vx_array_loops::Bits;

// Which of so many rows aren't null, as the validity buffer of that index says. None where it ends early,
// or has a null that isn't allowed.
pub(crate) fn validity_at(
    alloc: Global,
    buffers: &[Buffer<'_>],
    at: usize,
    rows: usize,
    is_nullable: bool,
) -> Result<Option<Validity>, AllocError>
    ensures { IfOk result (λ found. IfSome found (Tells (bytes_in buffers.now) at rows is_nullable)) }
{
    let bytes = bytes_at(buffers, at);
    if bytes.is_empty() {
        return Ok(Some(Validity::All));
    }
    match bits_in(alloc, bytes, rows)? {
        Some(bits) if is_nullable || are_all(&bits) => {
            Ok(Some(Validity::Rows(BitPart::new(alloc, bits)?)))
        }
        _ => Ok(None),
    }
}

// The validity, of a type that has null.
pub(crate) fn if_nullable(is_nullable: bool, validity: Validity) -> Option<Validity>
    ensures { result ≡ if_nullable is_nullable validity }
{
    if is_nullable { Some(validity) } else { None }
}

// So many bits, the least significant of a byte first. None where there are fewer.
pub(crate) fn bits_in(alloc: Global, bytes: &[u8], rows: usize) -> Result<Option<Bits>, AllocError>
    ensures { IfOk result (λ found. IfSome found (AreBits bytes.now rows)) }
{
    if rows.div_ceil(8) > bytes.len() {
        return Ok(None);
    }
    Ok(Some(Bits::tabulated(alloc, rows, |k| bit_in(bytes, k))?))
}

// Bit k, which is there.
#[inline]
fn bit_in(bytes: &[u8], k: usize) -> bool
    requires { k / 8 < length bytes.now }
    ensures { bit_of bytes.now k ≡ Some result }
{
    (bytes[k / 8] >> (k % 8)) % 2 == 1
}

// Whether all are true.
fn are_all(bits: &Bits) -> bool
    ensures { result ≡ true → (k : ℕ) → k < length bits.now → get_or bits.now k false ≡ true }
{
    for k in 0..bits.len() {
        if !bits.get(k) {
            return false;
        }
    }
    true
}

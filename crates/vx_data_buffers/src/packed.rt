// Truth values as bits of bytes.
ghost use Rattle.std.specs.Prelude.{◌≡◌, ◌+◌, ◌*◌, ◌<◌, IfOk, false, get_or, if◌then◌else◌, length};
ghost use Rattle.vx_array.specs.Shown.{shown_count};
ghost use Rattle.vx_data_buffers.specs.Laid.{SayValid, packed_bits, packed_bytes};

use std::alloc::{AllocError, Global};
use vx_array::Validity;
use vx_array_loops::{Bits, tabulated};

// The validity buffer of so many rows, which has no bytes where all are valid.
pub(crate) fn validity_bytes(
    alloc: Global,
    validity: &Validity,
    rows: usize,
) -> Result<Vec<u8>, AllocError>
    requires { shown_count validity.now rows ≡ rows }
    ensures { IfOk result (λ bytes. SayValid bytes.items rows validity.now) }
{
    match validity {
        Validity::All => Ok(Vec::new(alloc)),
        Validity::Nothing => packed(alloc, &Bits::zeros(alloc, rows)?),
        Validity::Rows(bits) => packed(alloc, &bits.first(alloc, rows)?),
    }
}

// The bits of the truth values, the least significant of a byte first.
pub(crate) fn packed(alloc: Global, bits: &Bits) -> Result<Vec<u8>, AllocError>
    ensures { IfOk result (λ bytes. bytes.items ≡ packed_bytes bits.now) }
{
    tabulated(alloc, bits.len().div_ceil(8), 0, |k| byte_at(bits, k))
}

// The byte of that index, whose bits behind the last row are 0.
#[inline]
fn byte_at(bits: &Bits, k: usize) -> u8
    requires { k * 8 < length bits.now }
    ensures { result ≡ packed_bits (λ j. get_or bits.now (k * 8 + j) false) 8 }
{
    let _count = bits.len();
    let first = k * 8;
    let byte = joined(has(bits, first, 7), 0);
    let byte = joined(has(bits, first, 6), byte);
    let byte = joined(has(bits, first, 5), byte);
    let byte = joined(has(bits, first, 4), byte);
    let byte = joined(has(bits, first, 3), byte);
    let byte = joined(has(bits, first, 2), byte);
    let byte = joined(has(bits, first, 1), byte);
    joined(has(bits, first, 0), byte)
}

// Whether that row is there and true.
#[inline]
fn has(bits: &Bits, first: usize, j: usize) -> bool
    requires row { first < length bits.now }
    requires within { j < 8 }
    ensures { result ≡ get_or bits.now (first + j) false }
{
    j < bits.len() - first && bits.get(first + j)
}

// The bits of a byte with one more before them.
#[inline]
fn joined(bit: bool, rest: u8) -> u8
    requires { rest < 128 }
    ensures { result ≡ (if bit then 1 else 0) + 2 * rest }
{
    bit as u8 + 2 * rest
}

// Items of buffers by their indices.
ghost use Rattle.std.specs.Prelude.{◌≡◌, ◌<◌, ◌↔◌, ℕ, Bool, IfOk, IsTrue, length, get_or, map, false};
ghost use Rattle.vx_array_build.specs.Taken.{AreWithin, true_rows};

use std::alloc::{AllocError, Global};
use vx_array::BitPart;
use vx_array_loops::{Bits, tabulated};

/// Whether each index is one of so many rows.
pub fn are_within(indices: &[usize], rows: usize) -> bool
    ensures { IsTrue result ↔ AreWithin indices.now rows }
{
    indices.iter().all(|i| *i < rows)
}

// The items of these indices, written over a list of one that is given.
pub(crate) fn gather<T: Copy + Drop>(
    alloc: Global,
    items: &[T],
    first: T,
    indices: &[usize],
) -> Result<Vec<T>, AllocError>
    requires { AreWithin indices.now (length items.now) }
    ensures long { IfOk result (λ out. length out.items ≡ length indices.now) }
    ensures each { IfOk result (λ out. (k : ℕ) (x : T) → k < length indices.now → x ≡ get_or out.items k x → x ≡ get_or items.now (get_or indices.now k 0) x) }
{
    tabulated(alloc, indices.len(), first, |k| item_at(items, indices, k))
}

// The item of the index at that place.
#[inline(always)]
fn item_at<T: Copy + Drop>(items: &[T], indices: &[usize], k: usize) -> T
    requires place { k < length indices.now }
    requires within { get_or indices.now k 0 < length items.now }
    ensures { result ≡ get_or items.now (get_or indices.now k 0) result }
{
    items[indices[k]]
}

// The bits of these indices, false where there is none.
pub(crate) fn gather_bits(
    alloc: Global,
    bits: &BitPart,
    indices: &[usize],
) -> Result<Bits, AllocError>
    ensures long { IfOk result (λ out. length out ≡ length indices.now) }
    ensures each { IfOk result (λ out. (k : ℕ) → k < length indices.now → get_or out k false ≡ get_or bits.now (get_or indices.now k 0) false) }
{
    Bits::tabulated(alloc, indices.len(), |k| bit_at(bits, indices, k))
}

// The bit of the index at that place.
#[inline(always)]
fn bit_at(bits: &BitPart, indices: &[usize], k: usize) -> bool
    requires { k < length indices.now }
    ensures { result ≡ get_or bits.now (get_or indices.now k 0) false }
{
    bits.has(indices[k])
}

// The indices at which the mask is true.
pub(crate) fn true_rows(alloc: Global, mask: &Bits) -> Result<Vec<usize>, AllocError>
    ensures { IfOk result (λ v. v.items ≡ true_rows mask.now) }
{
    let mut found = Vec::with_capacity(alloc, mask.count_ones())?;
    for i in 0..mask.len() {
        if !mask.get(i) {
            continue;
        }
        found.push(i)?;
    }
    Ok(found)
}

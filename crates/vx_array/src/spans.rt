// Bytes of rows that lie in one buffer.
ghost use Rattle.std.specs.Prelude.{◌≡◌, ◌≤◌, ◌<◌, ◌+◌, ◌-◌, IfOk, get_or, length, map, take, drop};
ghost use Rattle.std.specs.List.{range_with_len};
ghost use Rattle.vx_array.specs.Kinds.{span_at, spans_in};

use crate::Part;
use std::alloc::AllocError;
use std::sync::Arc;

/// Bytes of rows: row k goes from where offset k says up to where offset k + 1 says. There is one row fewer
/// than offsets. Where an offset goes back or behind the end, what it cuts off is no part of the row.
#[derive(Debug)]
pub struct Spans {
    pub(crate) offsets: Part<usize>,
    pub(crate) bytes: Arc<Vec<u8>>,
}

impl Drop for Spans {
    fn drop(self) {
        let Spans { offsets, bytes } = self;
        drop(offsets);
        drop(bytes);
    }
}

impl Spans {
    /// The rows that these offsets cut out of the bytes.
    pub fn new(offsets: Part<usize>, bytes: Arc<Vec<u8>>) -> Spans
        ensures offsets { result.offsets ≡ offsets }
        ensures bytes { result.bytes ≡ bytes }
    {
        Spans { offsets, bytes }
    }

    /// How many rows there are.
    #[tactic(auto, using(crate::proofs::Spanned::length_spans))]
    pub fn len(&self) -> usize
        ensures { result ≡ length (spans_in self.now) }
    {
        self.offsets.len().saturating_sub(1)
    }

    /// The bytes of that row. Asks an index below `len`.
    #[tactic(auto, using(crate::proofs::Spanned::length_spans))]
    pub fn span(&self, k: usize) -> &[u8]
        requires { k < length (spans_in self.now) }
        ensures { result.now ≡ get_or (spans_in self.now) k result.now }
    {
        let offsets = self.offsets.as_slice();
        cut(self.bytes.as_slice(), offsets[k], offsets[k + 1])
    }

    /// The offsets, and the bytes that they cut.
    pub fn buffers(&self) -> (&[usize], &[u8])
        ensures { spans_in self.now ≡ map (span_at result.0.now result.1.now) (range_with_len 0 (length result.0.now - 1)) }
    {
        (self.offsets.as_slice(), self.bytes.as_slice())
    }

    /// So many rows from one on, in the same buffers. Asks rows that are there.
    #[tactic(auto, using(crate::proofs::Spanned::length_spans))]
    pub fn slice(&self, from: usize, len: usize) -> Result<Spans, AllocError>
        requires { from + len ≤ length (spans_in self.now) }
        ensures { IfOk result (λ s. spans_in s ≡ take len (drop from (spans_in self.now))) }
    {
        let count = (self.offsets.len() - from).min(len.saturating_add(1));
        Ok(Spans {
            offsets: self.offsets.slice(from, count)?,
            bytes: self.bytes.clone()?,
        })
    }
}

impl Clone for Spans {
    ghost is_clone = { λ s copy. spans_in copy ≡ spans_in s };

    fn clone(&self) -> Result<Spans, AllocError> {
        Ok(Spans {
            offsets: self.offsets.clone()?,
            bytes: self.bytes.clone()?,
        })
    }
}

// The bytes from one place up to another, as far as there are any.
fn cut(bytes: &[u8], from: usize, to: usize) -> &[u8]
    ensures { result.now ≡ take (to - from) (drop from bytes.now) }
{
    let start = from.min(bytes.len());
    let end = to.min(bytes.len()).max(start);
    &bytes[start..end]
}

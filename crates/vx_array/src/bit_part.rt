// Rows of bits, which others may share.
ghost use Rattle.std.specs.Prelude.{◌≡◌, ◌≤◌, ◌<◌, ◌+◌, ⊤, IfOk, MatchOption, false, get_or, length, take, drop};

use std::alloc::{AllocError, Global};
use std::marker::Model;
use std::sync::Arc;
use vx_array_loops::Bits;

/// So many truth values of a buffer of bits from one on. Clones and slices share the buffer.
#[derive(Debug)]
pub struct BitPart {
    bits: Arc<Bits>,
    from: usize,
    len: usize,
}

impl Drop for BitPart {
    fn drop(self) {
        let BitPart {
            bits,
            from: _,
            len: _,
        } = self;
        drop(bits);
    }
}

impl Model for BitPart {
    ghost use Rattle.std.specs.Prelude.{◌≤◌, ◌<◌, ◌+◌, ◌^◌, List, Bool, length, take, drop};

    ghost Value = { List Bool };

    ghost view = { λ p. take p.len (drop p.from p.bits.value) };

    ghost invariant = { λ p. (p.from + p.len ≤ length p.bits.value) × (p.from + p.len < 2 ^ 64) };
}

impl BitPart {
    /// All bits. Asks for one block, which their owners share.
    pub fn new(alloc: Global, bits: Bits) -> Result<BitPart, AllocError>
        ensures { IfOk result (λ p. p ≡ bits) }
    {
        let len = bits.len();
        Ok(BitPart {
            bits: Arc::new(alloc, bits)?,
            from: 0,
            len,
        })
    }

    /// How many there are.
    pub fn len(&self) -> usize
        ensures { result ≡ length self.now }
    {
        self.len
    }

    /// Whether that row is true. Asks an index below `len`.
    #[inline]
    pub fn get(&self, k: usize) -> bool
        requires { k < length self.now }
        ensures { result ≡ get_or self.now k false }
    {
        self.bits.get(self.from + k)
    }

    /// Whether that row is there and true.
    #[inline]
    pub fn has(&self, k: usize) -> bool
        ensures { result ≡ get_or self.now k false }
    {
        if k < self.len() {
            return self.get(k);
        }
        false
    }

    /// The bits where they are all of a buffer, so that its words begin with the first.
    pub fn whole(&self) -> Option<&Bits>
        ensures { MatchOption result ⊤ (λ bits. bits.now ≡ self.now) }
    {
        if self.from == 0 && self.len == self.bits.len() {
            Some(self.bits.as_ref())
        } else {
            None
        }
    }

    /// The same bits in words of their own.
    pub fn to_bits(&self, alloc: Global) -> Result<Bits, AllocError>
        ensures { IfOk result (λ bits. bits ≡ self.now) }
    {
        self.bits.part(alloc, self.from, self.len)
    }

    /// The first so many in words that begin with them, copied. Asks rows that are there.
    pub fn first(&self, alloc: Global, count: usize) -> Result<Bits, AllocError>
        requires { count ≤ length self.now }
        ensures { IfOk result (λ bits. bits ≡ take count self.now) }
    {
        match self.whole() {
            Some(bits) if bits.len() == count => bits.clone(),
            _ => self.slice(0, count)?.to_bits(alloc),
        }
    }

    /// So many of them from one on, in the same buffer. Asks rows that are there.
    pub fn slice(&self, from: usize, len: usize) -> Result<BitPart, AllocError>
        requires { from + len ≤ length self.now }
        ensures { IfOk result (λ p. p ≡ take len (drop from self.now)) }
    {
        Ok(BitPart {
            bits: self.bits.clone()?,
            from: self.from + from,
            len,
        })
    }
}

impl Clone for BitPart {
    ghost is_clone = { λ p copy. copy ≡ p };

    fn clone(&self) -> Result<BitPart, AllocError> {
        Ok(BitPart {
            bits: self.bits.clone()?,
            from: self.from,
            len: self.len,
        })
    }
}

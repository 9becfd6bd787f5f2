// For each row whether it is meant.
ghost use Rattle.std.specs.Prelude.{◌≡◌, ◌==◌, ◌↔◌, ◌<◌, ◌≤◌, ℕ, Ok, IsTrue, true, false, length, get_or};
ghost use Rattle.std.specs.Bool.{beq};
ghost use Rattle.std.specs.Cmp.Lexicographic.{pointwise};
ghost use Rattle.std.specs.Cmp.Rules.{comparing};
ghost use Rattle.std.proofs.Common.{rules};
ghost use Rattle.vx_dtype.specs.Returns.{ReturnsOrOom};
ghost use Rattle.vx_eval_masks.specs.Masks.{true_rows, count_true, runs, up_to, IsAll, IsRunFrom, both, but};

use crate::bits;
use std::alloc::{AllocError, Global};
use std::marker::Model;
use vx_dtype::VortexResult;

/// A truth value for each row, in a byte each.
#[derive(Debug, Drop)]
pub struct RowMask {
    bits: Vec<bool>,
}

impl Model for RowMask {
    ghost use Rattle.std.specs.Prelude.{List, Bool};

    ghost Value = { List Bool };

    ghost view = { λ m. m.bits.items };
}

impl RowMask {
    /// The mask of these truth values, one for each row, in the memory of their `Vec`.
    pub fn new(bits: Vec<bool>) -> RowMask
        ensures { result ≡ bits.items }
    {
        RowMask { bits }
    }

    /// The number of rows.
    pub fn len(&self) -> usize
        ensures { result ≡ length self.now }
    {
        self.bits.len()
    }

    /// Whether there is no row.
    pub fn is_empty(&self) -> bool
        ensures { result ≡ (length self.now == 0) }
    {
        self.bits.is_empty()
    }

    /// Whether the mask is true at that row. Asks an index below `len`.
    pub fn get(&self, index: usize) -> bool
        requires { index < length self.now }
        ensures { result ≡ get_or self.now index false }
    {
        self.bits[index]
    }

    /// The truth values, row by row.
    pub fn as_slice(&self) -> &[bool]
        ensures { result.now ≡ self.now }
    {
        self.bits.as_slice()
    }

    /// The number of rows at which the mask is true. It looks at each row.
    pub fn count(&self) -> usize
        ensures { result ≡ count_true self.now }
    {
        bits::count(self.bits.as_slice())
    }

    /// Whether the mask is true at each row. It looks no further than the first at which it isn't.
    pub fn is_all(&self) -> bool
        ensures { IsTrue result ↔ IsAll self.now }
    {
        bits::is_all(self.bits.as_slice())
    }

    /// The row behind the run of true rows that goes on at that one. Asks a row at which the mask
    /// is true.
    pub fn run_end(&self, start: usize) -> usize
        requires within { start < length self.now }
        requires here { get_or self.now start false ≡ true }
        ensures { IsRunFrom self.now start result }
    {
        bits::run_end(self.bits.as_slice(), start)
    }

    /// The maximal stretches of true rows, in order, each as its first row and the row behind its
    /// last one. Refuses with `OutOfMemory` (1) alone.
    pub fn runs(&self, alloc: Global) -> VortexResult<Vec<(usize, usize)>>
        ensures { ReturnsOrOom (λ v. v.items) result (Ok (runs self.now)) }
    {
        bits::runs(alloc, self.bits.as_slice())
    }

    /// The number of runs if it is at most that, and else None. It looks no further than one run
    /// more, and takes no memory.
    pub fn runs_within(&self, most: usize) -> Option<usize>
        ensures { result ≡ up_to most (length (runs self.now)) }
    {
        bits::runs_within(self.bits.as_slice(), most)
    }

    /// The rows at which the mask is true, in order. Refuses with `OutOfMemory` (1) alone.
    pub fn indices(&self, alloc: Global) -> VortexResult<Vec<usize>>
        ensures { ReturnsOrOom (λ v. v.items) result (Ok (true_rows self.now)) }
    {
        bits::indices(alloc, self.bits.as_slice())
    }

    /// The mask that is true where both are. Asks masks of one length. Refuses with `OutOfMemory`
    /// (1) alone.
    pub fn and(&self, alloc: Global, other: &RowMask) -> VortexResult<RowMask>
        requires { length other.now ≡ length self.now }
        ensures { ReturnsOrOom (λ m. m) result (Ok (both self.now other.now)) }
    {
        let bits = bits::and(alloc, self.bits.as_slice(), other.bits.as_slice())?;
        Ok(RowMask { bits })
    }

    /// The mask that is true where this one is and the other isn't. Asks masks of one length.
    /// Refuses with `OutOfMemory` (1) alone.
    pub fn and_not(&self, alloc: Global, other: &RowMask) -> VortexResult<RowMask>
        requires { length other.now ≡ length self.now }
        ensures { ReturnsOrOom (λ m. m) result (Ok (but self.now other.now)) }
    {
        let bits = bits::and_not(alloc, self.bits.as_slice(), other.bits.as_slice())?;
        Ok(RowMask { bits })
    }

    /// Leaves the mask true only where the rest is, too, and takes these rows out of the rest; both
    /// in place. Asks masks of one length.
    pub fn claim(&mut self, rest: &mut RowMask)
        requires { length rest.old ≡ length self.old }
        ensures claimed { self.new ≡ both self.old rest.old }
        ensures left { rest.new ≡ but rest.old self.old }
    {
        bits::claim(self.bits.as_mut_slice(), rest.bits.as_mut_slice());
    }
}

impl Clone for RowMask {
    ghost is_clone = { λ mask copy. copy ≡ mask };

    fn clone(&self) -> Result<RowMask, AllocError> {
        Ok(RowMask {
            bits: self.bits.clone()?,
        })
    }
}

impl PartialEq for RowMask {
    ghost eq = { pointwise beq };

    ghost laws = { Prim.search (comparing, rules) };

    fn eq(&self, other: &RowMask) -> bool {
        self.bits == other.bits
    }
}

impl Eq for RowMask {
    ghost laws = { Prim.search (comparing, rules) };
}

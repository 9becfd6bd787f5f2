// Truth values as bits.
ghost use Rattle.std.specs.Prelude.{◌≡◌, ◌<◌, ◌≤◌, ◌+◌, ◌*◌, ◌%◌, ◌++◌, ◌==◌, ℕ, Bool, IfOk, IfSome, List, [], false, true, length, get_or, map, not, take, drop};
ghost use Rattle.std.specs.Simd.Lanes.{zip2};
ghost use Rattle.std.proofs.Math.ListN.{replicate};
ghost use Rattle.vx_array_loops.specs.Logic.{and_valid, both, but, either, or_valid, unless};
ghost use Rattle.vx_array_loops.specs.WordBits.{bit_of, count_true, each_row, first_bits, words_for};

use crate::count::count_bits;
use crate::fill::tabulated;
use crate::words::{combine_four, combine_words, window_of, write_words};
use std::alloc::{AllocError, Global};
use std::marker::Model;

/// Truth values, 64 a word: row i is bit i % 64 of word i / 64, least first. What a word holds behind the
/// last row is never looked at.
#[derive(Debug, Drop)]
pub struct Bits {
    words: Vec<u64>,
    len: usize,
}

impl Model for Bits {
    ghost use Rattle.std.specs.Prelude.{◌≡◌, List, Bool, length};
    ghost use Rattle.vx_array_loops.specs.WordBits.{first_bits, words_for};

    ghost Value = { List Bool };

    ghost view = { λ b. first_bits b.len b.words.items };

    ghost invariant = { λ b. length b.words.items ≡ words_for b.len };
}

impl Bits {
    /// So many that are false.
    pub fn zeros(alloc: Global, len: usize) -> Result<Bits, AllocError>
        ensures { IfOk result (λ b. b ≡ replicate len false) }
    {
        let words = vec![in alloc; 0u64; len.div_ceil(64)]?;
        Ok(Bits { words, len })
    }

    /// No row yet, and room for so many.
    pub fn with_capacity(alloc: Global, rows: usize) -> Result<Bits, AllocError>
        ensures { IfOk result (λ b. b ≡ []) }
    {
        let words = Vec::with_capacity(alloc, rows.div_ceil(64))?;
        Ok(Bits { words, len: 0 })
    }

    /// What the function gives at each of so many rows.
    #[inline(always)]
    pub fn tabulated<F: Fn(usize) -> bool>(
        alloc: Global,
        len: usize,
        f: F,
    ) -> Result<Bits, AllocError>
        requires { (k : ℕ) → k < len → F.pre f k }
        ensures long { IfOk result (λ b. length b ≡ len) }
        ensures each { IfOk result (λ b. (k : ℕ) (x : Bool) → k < len → x ≡ get_or b k false → F.post f k x) }
    {
        let mut bits = Bits::zeros(alloc, len)?;
        bits.write(false, f);
        Ok(bits)
    }

    /// Writes what the function gives at each row, in code for tests of wide numbers, of more than 16 bits,
    /// or of others.
    #[inline(always)]
    pub fn write<F: Fn(usize) -> bool>(&mut self, wide: bool, f: F)
        requires { (k : ℕ) → k < length self.old → F.pre f k }
        ensures long { length self.new ≡ length self.old }
        ensures each { (k : ℕ) (x : Bool) → k < length self.old → x ≡ get_or self.new k false → F.post f k x }
    {
        write_words(self.words.as_mut_slice(), self.len, wide, &f);
    }

    /// The number of rows.
    pub fn len(&self) -> usize
        ensures { result ≡ length self.now }
    {
        self.len
    }

    /// Whether there is no row.
    pub fn is_empty(&self) -> bool
        ensures { result ≡ (length self.now == 0) }
    {
        self.len() == 0
    }

    /// Whether that row is true. Asks an index below `len`.
    #[inline]
    pub fn get(&self, k: usize) -> bool
        requires { k < length self.now }
        ensures { result ≡ get_or self.now k false }
    {
        self.words[k / 64] >> (k % 64) & 1 == 1
    }

    /// The 64 rows from one on, least first; what stands for those behind the last row may be anything.
    #[inline(always)]
    pub fn window(&self, from: usize) -> u64
        ensures { (i : ℕ) → i < 64 → from + i < length self.now → bit_of result i ≡ get_or self.now (from + i) false }
    {
        window_of(self.words.as_slice(), from)
    }

    /// The words; what they hold behind the last row may be anything.
    pub fn words(&self) -> &[u64]
        ensures long { length result.now ≡ words_for (length self.now) }
        ensures bits { first_bits (length self.now) result.now ≡ self.now }
    {
        self.words.as_slice()
    }

    // Writes what the function gives of each word and the other's. It gives a truth value of both at each
    // bit.
    #[inline(always)]
    fn combine<F: Fn(u64, u64) -> u64>(&mut self, other: &Bits, f: F)
        requires long { length other.now ≡ length self.old }
        requires call { F.IsAlwaysCallable f }
        ensures { (g : Bool → Bool → Bool) → ((a b w i : ℕ) → F.post f a b w → i < 64 → bit_of w i ≡ g (bit_of a i) (bit_of b i)) → self.new ≡ zip2 g self.old other.now }
    {
        combine_words(self.words.as_mut_slice(), other.words.as_slice(), f);
    }

    /// Lets those stay true that the other has, too. Asks equally many.
    pub fn and_with(&mut self, other: &Bits)
        requires { length other.now ≡ length self.old }
        ensures { self.new ≡ both self.old other.now }
    {
        self.combine(other, |a, b| a & b);
    }

    /// Lets those be true, too, that the other has. Asks equally many.
    pub fn or_with(&mut self, other: &Bits)
        requires { length other.now ≡ length self.old }
        ensures { self.new ≡ either self.old other.now }
    {
        self.combine(other, |a, b| a | b);
    }

    /// Lets those stay true that the other hasn't. Asks equally many.
    pub fn and_not_with(&mut self, other: &Bits)
        requires { length other.now ≡ length self.old }
        ensures { self.new ≡ but self.old other.now }
    {
        self.combine(other, |a, b| a & (b ^ u64::MAX));
    }

    /// Lets those be true, too, that the other hasn't. Asks equally many.
    pub fn or_not_with(&mut self, other: &Bits)
        requires { length other.now ≡ length self.old }
        ensures { self.new ≡ unless self.old other.now }
    {
        self.combine(other, |a, b| a | (b ^ u64::MAX));
    }

    // Writes what the function gives of each word and those of three others. It gives a truth value of
    // all four at each bit.
    #[inline(always)]
    fn combine_three<F: Fn(u64, u64, u64, u64) -> u64>(
        &mut self,
        second: &Bits,
        third: &Bits,
        fourth: &Bits,
        f: F,
    )
        requires second { length second.now ≡ length self.old }
        requires third { length third.now ≡ length self.old }
        requires fourth { length fourth.now ≡ length self.old }
        requires call { F.IsAlwaysCallable f }
        ensures { (g : Bool → Bool → Bool → Bool → Bool) → ((p q r s w i : ℕ) → F.post f p q r s w → i < 64 → bit_of w i ≡ g (bit_of p i) (bit_of q i) (bit_of r i) (bit_of s i)) →
            self.new ≡ each_row (length self.old) (λ k. g (get_or self.old k false) (get_or second.now k false) (get_or third.now k false) (get_or fourth.now k false)) }
    {
        combine_four(
            self.words.as_mut_slice(),
            second.words.as_slice(),
            third.words.as_slice(),
            fourth.words.as_slice(),
            f,
        );
    }

    /// Of the rows at which `truth` is valid, makes those at which its And with `other` is, which is valid
    /// where `other_valid` says so. Asks equally many.
    pub fn and_validity(&mut self, truth: &Bits, other_valid: &Bits, other: &Bits)
        requires truth { length truth.now ≡ length self.old }
        requires valid { length other_valid.now ≡ length self.old }
        requires other { length other.now ≡ length self.old }
        ensures { self.new ≡ each_row (length self.old) (λ k. and_valid (get_or self.old k false) (get_or truth.now k false) (get_or other_valid.now k false) (get_or other.now k false)) }
    {
        self.combine_three(
            truth,
            other_valid,
            other,
            |v, a, w, b| v & w | v & (a ^ u64::MAX) | w & (b ^ u64::MAX),
        );
    }

    /// The same of their Or.
    pub fn or_validity(&mut self, truth: &Bits, other_valid: &Bits, other: &Bits)
        requires truth { length truth.now ≡ length self.old }
        requires valid { length other_valid.now ≡ length self.old }
        requires other { length other.now ≡ length self.old }
        ensures { self.new ≡ each_row (length self.old) (λ k. or_valid (get_or self.old k false) (get_or truth.now k false) (get_or other_valid.now k false) (get_or other.now k false)) }
    {
        self.combine_three(
            truth,
            other_valid,
            other,
            |v, a, w, b| v & w | v & a | w & b,
        );
    }

    /// The truth values, as many as there are.
    pub fn to_bools(&self, alloc: Global) -> Result<Vec<bool>, AllocError>
        ensures { IfOk result (λ v. v.items ≡ self.now) }
    {
        tabulated(alloc, self.len(), false, |k| self.get(k))
    }

    /// The truth values as bits.
    pub fn from_bools(alloc: Global, truths: &[bool]) -> Result<Bits, AllocError>
        ensures { IfOk result (λ b. b ≡ truths.now) }
    {
        Bits::tabulated(alloc, truths.len(), |k| truths[k])
    }

    /// Those of so many rows from one on, in words of their own. Asks rows that are there.
    pub fn part(&self, alloc: Global, from: usize, len: usize) -> Result<Bits, AllocError>
        requires { from + len ≤ length self.now }
        ensures { IfOk result (λ b. b ≡ take len (drop from self.now)) }
    {
        let words = tabulated(alloc, len.div_ceil(64), 0u64, |j| self.word_behind(from, j))?;
        Ok(Bits { words, len })
    }

    // The word of that number of the rows from one on. Asks a row that is there.
    #[inline(always)]
    fn word_behind(&self, from: usize, j: usize) -> u64
        requires { from + 64 * j < length self.now }
        ensures { (i : ℕ) → i < 64 → from + 64 * j + i < length self.now → bit_of result i ≡ get_or self.now (from + 64 * j + i) false }
    {
        let _ = self.len();
        self.window(from + 64 * j)
    }

    /// The same rows and those of the other behind them, copied word by word. There is an answer where the
    /// rows so far fill whole words, and all together can be counted.
    pub fn append(self, other: &Bits) -> Result<Option<Bits>, AllocError>
        ensures { IfOk result (λ found. IfSome found (λ b. b ≡ self ++ other.now)) }
    {
        let Bits { mut words, len } = self;
        let Some(sum) = sum_of_whole(len, other.len) else {
            return Ok(None);
        };
        words.extend_from_slice(other.words.as_slice())?;
        Ok(Some(Bits { words, len: sum }))
    }

    /// How many are true.
    pub fn count_ones(&self) -> usize
        ensures { result ≡ count_true self.now }
    {
        count_bits(self.words.as_slice(), self.len)
    }
}

// So many rows more than some that fill whole words.
fn sum_of_whole(count: usize, more: usize) -> Option<usize>
    ensures { IfSome result (λ sum. (sum ≡ count + more) × (count % 64 ≡ 0)) }
{
    if count % 64 == 0 {
        return count.checked_add(more);
    }
    None
}

impl Clone for Bits {
    ghost is_clone = { λ b copy. copy ≡ b };

    fn clone(&self) -> Result<Bits, AllocError> {
        Ok(Bits {
            words: self.words.clone()?,
            len: self.len,
        })
    }
}

// Words of 64 bits.
ghost use Rattle.std.specs.Prelude.{◌≡◌, ◌<◌, ◌≤◌, ◌+◌, ◌*◌, ◌^◌, ℕ, Bool, length, get_or, ◌==◌};
ghost use Rattle.vx_array_loops.specs.WordBits.{bit, bit_of};

use std::simd::prelude::*;

/// What the function gives at so many places from one on, as the first bits of a word. Asks at most 64. Of
/// wide numbers a compiler packs 32 bits a place at once, of others 8.
#[inline(always)]
pub fn word_of<F: Fn(usize) -> bool>(f: &F, from: usize, count: usize, wide: bool) -> u64
    requires few { count ≤ 64 }
    requires room { from + count < 2 ^ 64 }
    requires call { (i : ℕ) → i < from + count → F.pre f.now i }
    ensures { (i : ℕ) (b : Bool) → i < count → b ≡ bit_of result i → F.post f.now (from + i) b }
{
    if wide {
        wide_word_of(f, from, count)
    } else {
        narrow_word_of(f, from, count)
    }
}

// The same by way of 32 bits a place.
#[inline(always)]
fn wide_word_of<F: Fn(usize) -> bool>(f: &F, from: usize, count: usize) -> u64
    requires few { count ≤ 64 }
    requires room { from + count < 2 ^ 64 }
    requires call { (i : ℕ) → i < from + count → F.pre f.now i }
    ensures { (i : ℕ) (b : Bool) → i < count → b ≡ bit_of result i → F.post f.now (from + i) b }
{
    let mut block = [0u32; 64];
    for i in 0..count {
        block[i] = u32::from(f(from + i));
    }
    wide_packed(&block)
}

// The word whose bits are one where the numbers are.
#[inline(always)]
fn wide_packed(block: &[u32; 64]) -> u64
    ensures { (i : ℕ) → i < 64 → bit_of result i ≡ (get_or block.now i 0 == 1) }
{
    u32x64::from_array(*block)
        .simd_eq(u32x64::splat(1))
        .to_bitmask()
}

// The same by way of 8 bits a place.
#[inline(always)]
fn narrow_word_of<F: Fn(usize) -> bool>(f: &F, from: usize, count: usize) -> u64
    requires few { count ≤ 64 }
    requires room { from + count < 2 ^ 64 }
    requires call { (i : ℕ) → i < from + count → F.pre f.now i }
    ensures { (i : ℕ) (b : Bool) → i < count → b ≡ bit_of result i → F.post f.now (from + i) b }
{
    let mut block = [0u8; 64];
    for i in 0..count {
        block[i] = u8::from(f(from + i));
    }
    packed(&block)
}

// The word whose bits are one where the bytes are.
#[inline(always)]
fn packed(block: &[u8; 64]) -> u64
    ensures { (i : ℕ) → i < 64 → bit_of result i ≡ (get_or block.now i 0 == 1) }
{
    u8x64::from_array(*block)
        .simd_eq(u8x64::splat(1))
        .to_bitmask()
}

/// Writes what the function gives at each of so many places as a bit. Asks room for them, and looks at no
/// bit that was there.
#[inline(always)]
pub fn write_words<F: Fn(usize) -> bool>(words: &mut [u64], count: usize, wide: bool, f: &F)
    requires room { count ≤ 64 * length words.old }
    requires call { (i : ℕ) → i < count → F.pre f.now i }
    ensures { (k : ℕ) (b : Bool) → k < count → b ≡ bit words.new k → F.post f.now k b }
{
    let whole = count / 64;
    for j in 0..whole {
        words[j] = word_of(f, 64 * j, 64, wide);
    }
    let rest = count % 64;
    if rest == 0 {
        return;
    }
    words[whole] = word_of(f, 64 * whole, rest, wide);
}

/// Writes what the function gives of each word and the one beside it in its place.
#[inline(always)]
pub fn combine_words<F: Fn(u64, u64) -> u64>(words: &mut [u64], others: &[u64], f: F)
    requires long { length others.now ≡ length words.old }
    requires call { F.IsAlwaysCallable f }
    ensures { (j w : ℕ) → j < length words.old → w ≡ get_or words.new j 0 → F.post f (get_or words.old j 0) (get_or others.now j 0) w }
{
    for j in 0..words.len() {
        words[j] = f(words[j], others[j]);
    }
}

/// The same of four words side by side.
#[inline(always)]
pub fn combine_four<F: Fn(u64, u64, u64, u64) -> u64>(
    words: &mut [u64],
    seconds: &[u64],
    thirds: &[u64],
    fourths: &[u64],
    f: F,
)
    requires seconds { length seconds.now ≡ length words.old }
    requires thirds { length thirds.now ≡ length words.old }
    requires fourths { length fourths.now ≡ length words.old }
    requires call { F.IsAlwaysCallable f }
    ensures { (j w : ℕ) → j < length words.old → w ≡ get_or words.new j 0 → F.post f (get_or words.old j 0) (get_or seconds.now j 0) (get_or thirds.now j 0) (get_or fourths.now j 0) w }
{
    for j in 0..words.len() {
        words[j] = f(words[j], seconds[j], thirds[j], fourths[j]);
    }
}

/// The 64 bits from one on, those behind the last word zero.
#[inline(always)]
pub fn window_of(words: &[u64], from: usize) -> u64
    ensures { (i : ℕ) → i < 64 → bit_of result i ≡ bit words.now (from + i) }
{
    let low = word_at(words, from / 64) >> (from % 64);
    if from % 64 == 0 {
        return low;
    }
    low | word_at(words, from / 64 + 1) << (64 - from % 64)
}

// The word of that number, zero where there is none.
#[inline(always)]
fn word_at(words: &[u64], j: usize) -> u64
    ensures { result ≡ get_or words.now j 0 }
{
    if j < words.len() { words[j] } else { 0 }
}

// Rows that are written where a mask is true.
ghost use Rattle.std.specs.Prelude.{◌≡◌, ◌<◌, ◌≤◌, ◌+◌, ℕ, Bool, false, true, length, get_or, ◌==◌, if◌then◌else◌};
ghost use Rattle.vx_array_loops.specs.WordBits.{bit_of};

use crate::bits::Bits;

/// Writes what the function gives at each row at which the mask is true. The others stay.
#[inline(always)]
pub fn write_where<T: Copy + Drop, F: Fn(usize) -> T>(rows: &mut [T], mask: &Bits, f: F)
    requires long { length mask.now ≡ length rows.old }
    requires call { (i : ℕ) → i < length rows.old → F.pre f i }
    ensures on { (i : ℕ) (x : T) → i < length rows.old → get_or mask.now i false ≡ true → x ≡ get_or rows.new i x → F.post f i x }
    ensures off { (i : ℕ) (x : T) → i < length rows.old → get_or mask.now i false ≡ false → x ≡ get_or rows.new i x → x ≡ get_or rows.old i x }
{
    let words = mask.words();
    let whole = rows.len() / 64;
    for j in 0..whole {
        write_word(rows, words[j], 64 * j, 64, &f);
    }
    let rest = rows.len() % 64;
    if rest > 0 {
        write_word(rows, words[whole], 64 * whole, rest, &f);
    }
}

// The same of so many rows from one on, where a word's first bits are one. Asks at most 64.
#[inline(always)]
fn write_word<T: Copy + Drop, F: Fn(usize) -> T>(
    rows: &mut [T],
    word: u64,
    from: usize,
    count: usize,
    f: &F,
)
    requires few { count ≤ 64 }
    requires room { from + count ≤ length rows.old }
    requires call { (i : ℕ) → i < length rows.old → F.pre f.now i }
    ensures on { (i : ℕ) (x : T) → i < count → bit_of word i ≡ true → x ≡ get_or rows.new (from + i) x → F.post f.now (from + i) x }
    ensures off { (i : ℕ) (x : T) → i < count → bit_of word i ≡ false → x ≡ get_or rows.new (from + i) x → x ≡ get_or rows.old (from + i) x }
    ensures before { (i : ℕ) (x : T) → i < from → x ≡ get_or rows.new i x → x ≡ get_or rows.old i x }
    ensures behind { (i : ℕ) (x : T) → from + count ≤ i → x ≡ get_or rows.new i x → x ≡ get_or rows.old i x }
{
    let bytes = spread(word);
    for i in 0..count {
        let x = f(from + i);
        let y = rows[from + i];
        rows[from + i] = either(bytes[i] == 1, x, y);
    }
}

// The bits of a word, one a byte, least first.
#[inline(always)]
fn spread(word: u64) -> [u8; 64]
    ensures long { length result ≡ 64 }
    ensures each { (i : ℕ) → i < 64 → (get_or result i 0 == 1) ≡ bit_of word i }
{
    let mut bytes = [0u8; 64];
    for i in 0..64 {
        bytes[i] = u8::from(has_bit(word, i));
    }
    bytes
}

// Whether that bit of the word is one, looked up in its byte, so that compilers test 16 of them at once.
// Asks an index below 64.
#[inline(always)]
fn has_bit(word: u64, i: usize) -> bool
    requires { i < 64 }
    ensures { result ≡ bit_of word i }
{
    let byte = ((word >> (8 * (i / 8))) % 256) as u8;
    byte & (1 << (i % 8)) != 0
}

// The first where that is true, else the other.
#[inline(always)]
fn either<T: Copy + Drop>(first: bool, x: T, y: T) -> T
    ensures { result ≡ (if first then x else y) }
{
    if first { x } else { y }
}

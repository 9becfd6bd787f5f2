// Rows that are written one after another.
ghost use Rattle.std.specs.Prelude.{◌≡◌, ◌<◌, ℕ, Bool, IfOk, MatchOption, false, true, length, get_or};

use std::alloc::{AllocError, Global};

/// What the function gives at each of so many rows. The list is made of the first value, and then written
/// over, so that the loop asks for no memory.
#[inline(always)]
pub fn tabulated<T: Copy + Drop, F: Fn(usize) -> T>(
    alloc: Global,
    count: usize,
    first: T,
    f: F,
) -> Result<Vec<T>, AllocError>
    requires { (i : ℕ) → i < count → F.pre f i }
    ensures long { IfOk result (λ out. length out.items ≡ count) }
    ensures each { IfOk result (λ out. (i : ℕ) (x : T) → i < count → x ≡ get_or out.items i x → F.post f i x) }
{
    let mut out = vec![in alloc; first; count]?;
    for i in 0..count {
        out[i] = f(i);
    }
    Ok(out)
}

/// Writes what the function gives at each row.
#[inline(always)]
pub fn write_rows<T: Copy + Drop, F: Fn(usize) -> T>(rows: &mut [T], f: F)
    requires { (i : ℕ) → i < length rows.old → F.pre f i }
    ensures { (i : ℕ) (x : T) → i < length rows.old → x ≡ get_or rows.new i x → F.post f i x }
{
    for i in 0..rows.len() {
        rows[i] = f(i);
    }
}

/// The same of a function that raises a flag, beside whether it raised one at some row.
#[inline(always)]
pub fn write_flagged<T: Copy + Drop, F: Fn(usize) -> (T, bool)>(rows: &mut [T], f: F) -> bool
    requires { (i : ℕ) → i < length rows.old → F.pre f i }
    ensures each { (i : ℕ) (x : T) → i < length rows.old → x ≡ get_or rows.new i x → (raised : Bool) × F.post f i (x, raised) }
    ensures clear { result ≡ false → (i : ℕ) (x : T) → i < length rows.old → x ≡ get_or rows.new i x → F.post f i (x, false) }
    ensures raised { result ≡ true → (i : ℕ) × (x : T) × (i < length rows.old) × F.post f i (x, true) }
{
    let mut raised = false;
    for i in 0..rows.len() {
        let (x, over) = f(i);
        rows[i] = x;
        raised |= over;
    }
    raised
}

/// The first of so many rows at which the function gives true.
#[inline(always)]
pub fn first_where<F: Fn(usize) -> bool>(count: usize, f: F) -> Option<usize>
    requires { (i : ℕ) → i < count → F.pre f i }
    ensures none { MatchOption result ((i : ℕ) → i < count → F.post f i false) (λ row. (i : ℕ) → i < row → F.post f i false) }
    ensures some { MatchOption result (Unit {0}) (λ row. (row < count) × F.post f row true) }
{
    for i in 0..count {
        if f(i) {
            return Some(i);
        }
    }
    None
}

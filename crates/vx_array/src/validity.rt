// Which rows aren't null.
ghost use Rattle.std.specs.Prelude.{◌≡◌, ◌+◌, ◌&&◌, ℕ, IfOk, List, min, length, get_or, false, take, drop};
ghost use Rattle.vx_value.specs.Types.{Datum};
ghost use Rattle.vx_array.specs.Shown.{HasRows, is_valid, shown, shown_count};

use crate::BitPart;
use std::alloc::{AllocError, Global};
use vx_array_loops::Bits;

/// Which rows aren't null.
#[derive(Debug)]
pub enum Validity {
    /// All of them.
    All,
    /// None of them.
    Nothing,
    /// The rows that are true, of as many as there are truth values.
    Rows(BitPart),
}

impl Drop for Validity {
    fn drop(self) {
        match self {
            Validity::Rows(rows) => drop(rows),
            Validity::All | Validity::Nothing => {}
        }
    }
}

impl Validity {
    /// Whether the row isn't null.
    #[inline]
    pub fn is_valid(&self, i: usize) -> bool
        ensures { result ≡ is_valid self.now i }
    {
        match self {
            Validity::All => true,
            Validity::Nothing => false,
            Validity::Rows(bits) => bits.has(i),
        }
    }

    /// How many rows there are, of so many values.
    pub fn count(&self, values: usize) -> usize
        ensures { result ≡ shown_count self.now values }
    {
        match self {
            Validity::All => values,
            Validity::Nothing => values,
            Validity::Rows(bits) => bits.len().min(values),
        }
    }

    /// The rows that aren't null by this one and by the other, as far as both say so. Takes memory for rows
    /// only where neither is `All`.
    pub fn and(&self, alloc: Global, other: &Validity) -> Result<Validity, AllocError>
        ensures each { IfOk result (λ v. (k : ℕ) → is_valid v k ≡ (is_valid self.now k && is_valid other.now k)) }
        ensures count { IfOk result (λ v. (n : ℕ) → shown_count v n ≡ shown_count self.now (shown_count other.now n)) }
    {
        match (self, other) {
            (Validity::All, _) => other.clone(),
            (_, Validity::All) => self.clone(),
            (Validity::Nothing, Validity::Nothing) => Ok(Validity::Nothing),
            (Validity::Nothing, Validity::Rows(bits)) | (Validity::Rows(bits), Validity::Nothing) =>
                {
                    let none = Bits::zeros(alloc, bits.len())?;
                    Ok(Validity::Rows(BitPart::new(alloc, none)?))
                }
            (Validity::Rows(bits), Validity::Rows(others)) => {
                Ok(Validity::Rows(BitPart::new(alloc, both(alloc, bits, others)?)?))
            }
        }
    }

    /// That of so many rows from one on. Asks rows that are there.
    pub fn slice(&self, from: usize, len: usize) -> Result<Validity, AllocError>
        requires { HasRows self.now (from + len) }
        ensures { IfOk result (λ v. (ds : List Datum) → shown v (take len (drop from ds)) ≡ take len (drop from (shown self.now ds))) }
    {
        match self {
            Validity::All => Ok(Validity::All),
            Validity::Nothing => Ok(Validity::Nothing),
            Validity::Rows(bits) => Ok(Validity::Rows(bits.slice(from, len)?)),
        }
    }
}

// Whether both are true, as far as both last.
fn both(alloc: Global, bits: &BitPart, others: &BitPart) -> Result<Bits, AllocError>
    ensures long { IfOk result (λ joined. length joined ≡ min (length bits.now) (length others.now)) }
    ensures each { IfOk result (λ joined. (k : ℕ) → get_or joined k false ≡ (get_or bits.now k false && get_or others.now k false)) }
{
    let count = bits.len().min(others.len());
    let mut joined = bits.first(alloc, count)?;
    joined.and_with(&others.first(alloc, count)?);
    Ok(joined)
}

impl Clone for Validity {
    ghost is_clone = { λ v copy. copy ≡ v };

    fn clone(&self) -> Result<Validity, AllocError> {
        match self {
            Validity::All => Ok(Validity::All),
            Validity::Nothing => Ok(Validity::Nothing),
            Validity::Rows(bits) => Ok(Validity::Rows(bits.clone()?)),
        }
    }
}

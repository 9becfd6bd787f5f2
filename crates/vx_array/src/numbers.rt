// Whole numbers of each width.
ghost use Rattle.std.specs.Prelude.{◌≡◌, ◌≤◌, ◌<◌, ◌+◌, IfOk, get_or, length, map, pos, take, drop};
ghost use Rattle.vx_array.specs.Kinds.{numbers_in};

use crate::Part;
use std::alloc::AllocError;
use vx_array_loops::Number;

/// Whole numbers in a buffer of their own width.
#[derive(Debug)]
pub enum Numbers {
    /// Of 8 bits without a sign.
    U8(Part<u8>),
    /// Of 16 bits without a sign.
    U16(Part<u16>),
    /// Of 32 bits without a sign.
    U32(Part<u32>),
    /// Of 64 bits without a sign.
    U64(Part<u64>),
    /// Of 8 bits with a sign.
    I8(Part<i8>),
    /// Of 16 bits with a sign.
    I16(Part<i16>),
    /// Of 32 bits with a sign.
    I32(Part<i32>),
    /// Of 64 bits with a sign.
    I64(Part<i64>),
}

impl Drop for Numbers {
    fn drop(self) {
        match self {
            Numbers::U8(part) => drop(part),
            Numbers::U16(part) => drop(part),
            Numbers::U32(part) => drop(part),
            Numbers::U64(part) => drop(part),
            Numbers::I8(part) => drop(part),
            Numbers::I16(part) => drop(part),
            Numbers::I32(part) => drop(part),
            Numbers::I64(part) => drop(part),
        }
    }
}

impl Numbers {
    /// How many there are.
    pub fn len(&self) -> usize
        ensures { result ≡ length (numbers_in self.now) }
    {
        match self {
            Numbers::U8(numbers) => numbers.len(),
            Numbers::U16(numbers) => numbers.len(),
            Numbers::U32(numbers) => numbers.len(),
            Numbers::U64(numbers) => numbers.len(),
            Numbers::I8(numbers) => numbers.len(),
            Numbers::I16(numbers) => numbers.len(),
            Numbers::I32(numbers) => numbers.len(),
            Numbers::I64(numbers) => numbers.len(),
        }
    }

    /// The number of that row. Asks an index below `len`.
    pub fn number(&self, i: usize) -> i128
        requires { i < length (numbers_in self.now) }
        ensures { result ≡ get_or (numbers_in self.now) i (pos 0) }
    {
        match self {
            Numbers::U8(numbers) => number_of(numbers, i),
            Numbers::U16(numbers) => number_of(numbers, i),
            Numbers::U32(numbers) => number_of(numbers, i),
            Numbers::U64(numbers) => number_of(numbers, i),
            Numbers::I8(numbers) => number_of(numbers, i),
            Numbers::I16(numbers) => number_of(numbers, i),
            Numbers::I32(numbers) => number_of(numbers, i),
            Numbers::I64(numbers) => number_of(numbers, i),
        }
    }

    /// So many of them from one on, in the same buffer. Asks rows that are there.
    pub fn slice(&self, from: usize, len: usize) -> Result<Numbers, AllocError>
        requires { from + len ≤ length (numbers_in self.now) }
        ensures { IfOk result (λ n. numbers_in n ≡ take len (drop from (numbers_in self.now))) }
    {
        match self {
            Numbers::U8(numbers) => Ok(Numbers::U8(sliced(numbers, from, len)?)),
            Numbers::U16(numbers) => Ok(Numbers::U16(sliced(numbers, from, len)?)),
            Numbers::U32(numbers) => Ok(Numbers::U32(sliced(numbers, from, len)?)),
            Numbers::U64(numbers) => Ok(Numbers::U64(sliced(numbers, from, len)?)),
            Numbers::I8(numbers) => Ok(Numbers::I8(sliced(numbers, from, len)?)),
            Numbers::I16(numbers) => Ok(Numbers::I16(sliced(numbers, from, len)?)),
            Numbers::I32(numbers) => Ok(Numbers::I32(sliced(numbers, from, len)?)),
            Numbers::I64(numbers) => Ok(Numbers::I64(sliced(numbers, from, len)?)),
        }
    }
}

impl Clone for Numbers {
    ghost is_clone = { λ n copy. copy ≡ n };

    fn clone(&self) -> Result<Numbers, AllocError> {
        match self {
            Numbers::U8(numbers) => Ok(Numbers::U8(numbers.clone()?)),
            Numbers::U16(numbers) => Ok(Numbers::U16(numbers.clone()?)),
            Numbers::U32(numbers) => Ok(Numbers::U32(numbers.clone()?)),
            Numbers::U64(numbers) => Ok(Numbers::U64(numbers.clone()?)),
            Numbers::I8(numbers) => Ok(Numbers::I8(numbers.clone()?)),
            Numbers::I16(numbers) => Ok(Numbers::I16(numbers.clone()?)),
            Numbers::I32(numbers) => Ok(Numbers::I32(numbers.clone()?)),
            Numbers::I64(numbers) => Ok(Numbers::I64(numbers.clone()?)),
        }
    }
}

// The number of that row.
fn number_of<T: Number>(numbers: &Part<T>, i: usize) -> i128
    requires { i < length numbers.now }
    ensures { result ≡ get_or (map T.number numbers.now) i (pos 0) }
{
    numbers.as_slice()[i].widened()
}

// So many of them from one on.
fn sliced<T: Number>(numbers: &Part<T>, from: usize, len: usize) -> Result<Part<T>, AllocError>
    requires { from + len ≤ length numbers.now }
    ensures { IfOk result (λ p. map T.number p ≡ take len (drop from (map T.number numbers.now))) }
{
    let part = numbers.slice(from, len)?;
    Ok(part)
}

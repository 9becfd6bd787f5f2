// Floating-point numbers of each format.
ghost use Rattle.std.specs.Prelude.{◌≡◌, ◌≤◌, ◌<◌, ◌+◌, IfOk, IfSome, get_or, length, map, pos, take, drop};
ghost use Rattle.vx_array.specs.Kinds.{bits_in, floats_in, format_in, numbers_in};

use crate::{Numbers, Part};
use std::alloc::AllocError;
use vx_dtype::FloatType;
use vx_floats::Float;

/// Floating-point numbers in a buffer of their bits. Bits of whichever NaN stand for the quiet one.
#[derive(Debug)]
pub enum Floats {
    /// Of 32 bits.
    F32(Part<u32>),
    /// Of 64 bits.
    F64(Part<u64>),
}

impl Drop for Floats {
    fn drop(self) {
        match self {
            Floats::F32(bits) => drop(bits),
            Floats::F64(bits) => drop(bits),
        }
    }
}

impl Floats {
    /// The floating-point numbers of these bits, in the same buffer. None where the bits aren't held in the
    /// format's width.
    pub fn from_bits(float_type: FloatType, bits: &Numbers) -> Result<Option<Floats>, AllocError>
        ensures format { IfOk result (λ found. IfSome found (λ f. format_in f ≡ float_type)) }
        ensures bits { IfOk result (λ found. IfSome found (λ f. numbers_in bits.now ≡ map (λ b. pos b) (bits_in f))) }
    {
        match (float_type, bits) {
            (FloatType::F32, Numbers::U32(bits)) => Ok(Some(Floats::F32(bits.clone()?))),
            (FloatType::F64, Numbers::U64(bits)) => Ok(Some(Floats::F64(bits.clone()?))),
            _ => Ok(None),
        }
    }

    /// The bits of floating-point numbers of the format, in the same buffer. None where these are of another.
    pub fn to_bits(&self, float_type: FloatType) -> Result<Option<Numbers>, AllocError>
        ensures format { IfOk result (λ found. IfSome found (λ _. format_in self.now ≡ float_type)) }
        ensures bits { IfOk result (λ found. IfSome found (λ n. numbers_in n ≡ map (λ b. pos b) (bits_in self.now))) }
    {
        match (float_type, self) {
            (FloatType::F32, Floats::F32(bits)) => Ok(Some(Numbers::U32(bits.clone()?))),
            (FloatType::F64, Floats::F64(bits)) => Ok(Some(Numbers::U64(bits.clone()?))),
            _ => Ok(None),
        }
    }

    /// The format.
    pub fn float_type(&self) -> FloatType
        ensures { result ≡ format_in self.now }
    {
        match self {
            Floats::F32(_) => FloatType::F32,
            Floats::F64(_) => FloatType::F64,
        }
    }

    /// How many there are.
    pub fn len(&self) -> usize
        ensures { result ≡ length (floats_in self.now) }
    {
        match self {
            Floats::F32(bits) => bits.len(),
            Floats::F64(bits) => bits.len(),
        }
    }

    /// The floating-point number of that row. Asks an index below `len`.
    pub fn float(&self, i: usize) -> Float
        requires { i < length (floats_in self.now) }
        ensures { result ≡ get_or (floats_in self.now) i result }
    {
        match self {
            Floats::F32(bits) => Float::from_f32_bits(bits.as_slice()[i]),
            Floats::F64(bits) => Float::from_f64_bits(bits.as_slice()[i]),
        }
    }

    /// So many of them from one on, in the same buffer. Asks rows that are there.
    pub fn slice(&self, from: usize, len: usize) -> Result<Floats, AllocError>
        requires { from + len ≤ length (floats_in self.now) }
        ensures { IfOk result (λ f. floats_in f ≡ take len (drop from (floats_in self.now))) }
    {
        match self {
            Floats::F32(bits) => Ok(Floats::F32(bits.slice(from, len)?)),
            Floats::F64(bits) => Ok(Floats::F64(bits.slice(from, len)?)),
        }
    }
}

impl Clone for Floats {
    ghost is_clone = { λ f copy. copy ≡ f };

    fn clone(&self) -> Result<Floats, AllocError> {
        match self {
            Floats::F32(bits) => Ok(Floats::F32(bits.clone()?)),
            Floats::F64(bits) => Ok(Floats::F64(bits.clone()?)),
        }
    }
}

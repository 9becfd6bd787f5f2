// Floating-point numbers by their bits.
ghost use Rattle.std.specs.Prelude.{◌≡◌, IsTrue, fold};
ghost use Rattle.vx_floats.specs.declared.float.Float.TheVariants as Float;
ghost use Rattle.vx_floats.specs.Floats.{canonical, float_fed, float_order, format_of, is_canonical, same_float, total_key};

use std::cmp::Ordering;
use std::hash::Hasher;
use std::num::{
    f32_from_bits_with_nan, f32_to_bits_with_nan, f64_from_bits_with_nan, f64_to_bits_with_nan,
};
use vx_dtype::FloatType;

/// A floating-point number of IEEE 754, by its bits.
#[derive(Clone, Copy, Debug)]
pub enum Float {
    /// A number of the format binary32.
    F32(u32),
    /// A number of the format binary64.
    F64(u64),
}

impl Float {
    /// The number of those bits in the format binary32; each NaN is the quiet one, `0x7fc00000`.
    pub fn from_f32_bits(bits: u32) -> Float
        ensures { result ≡ canonical (Float.F32 bits) }
    {
        Float::F32(f32_to_bits_with_nan(f32_from_bits_with_nan(bits)))
    }

    /// The number of those bits in the format binary64; each NaN is the quiet one, `0x7ff8000000000000`.
    pub fn from_f64_bits(bits: u64) -> Float
        ensures { result ≡ canonical (Float.F64 bits) }
    {
        Float::F64(f64_to_bits_with_nan(f64_from_bits_with_nan(bits)))
    }

    /// The number, each NaN as the quiet one.
    pub fn canonical(self) -> Float
        ensures value { result ≡ canonical self }
        ensures once { IsTrue (is_canonical result) }
    {
        match self {
            Float::F32(bits) => Float::from_f32_bits(bits),
            Float::F64(bits) => Float::from_f64_bits(bits),
        }
    }

    /// The format.
    pub fn float_type(self) -> FloatType
        ensures { result ≡ format_of self }
    {
        match self {
            Float::F32(_) => FloatType::F32,
            Float::F64(_) => FloatType::F64,
        }
    }

    /// Whether the number is no NaN but the quiet one.
    pub fn is_canonical(self) -> bool
        ensures { result ≡ is_canonical self }
    {
        self.canonical().is_same(self)
    }

    /// Whether both are one number of one format: the same bits.
    pub fn is_same(self, other: Float) -> bool
        ensures { result ≡ same_float self other }
    {
        match self {
            Float::F32(a) => match other {
                Float::F32(b) => a == b,
                Float::F64(_) => false,
            },
            Float::F64(a) => match other {
                Float::F32(_) => false,
                Float::F64(b) => a == b,
            },
        }
    }

    /// Which comes first in IEEE 754's total order; numbers of 32 bits stand before those of 64.
    pub fn total_order(self, other: Float) -> Ordering
        ensures { result ≡ float_order self other }
    {
        match self {
            Float::F32(a) => match other {
                Float::F32(b) => key_of_32(a).cmp(&key_of_32(b)),
                Float::F64(_) => Ordering::Less,
            },
            Float::F64(a) => match other {
                Float::F32(_) => Ordering::Greater,
                Float::F64(b) => key_of_64(a).cmp(&key_of_64(b)),
            },
        }
    }

    /// Feeds the number to the hasher: its format and its bits.
    pub fn feed<H: Hasher>(self, state: &mut H)
        ensures { state.new ≡ fold H.write state.old (float_fed self) }
    {
        match self {
            Float::F32(bits) => {
                state.write_u8(0);
                state.write_u32(bits);
            }
            Float::F64(bits) => {
                state.write_u8(1);
                state.write_u64(bits);
            }
        }
    }
}

// The place of the bits in the total order.
fn key_of_32(bits: u32) -> u32
    ensures { result ≡ total_key 0x8000_0000 bits }
{
    if bits < 0x8000_0000 {
        bits + 0x8000_0000
    } else {
        0xffff_ffff - bits
    }
}

// The place of the bits in the total order.
fn key_of_64(bits: u64) -> u64
    ensures { result ≡ total_key 0x8000_0000_0000_0000 bits }
{
    if bits < 0x8000_0000_0000_0000 {
        bits + 0x8000_0000_0000_0000
    } else {
        0xffff_ffff_ffff_ffff - bits
    }
}

// What is computed of two numbers, and floating-point arithmetic.
ghost use Rattle.std.specs.Prelude.{◌≡◌, Some};
ghost use Rattle.vx_floats.specs.declared.float.Float.TheVariants as Float;
ghost use Rattle.vx_floats.specs.Floats.{float_result};

use crate::Float;
use crate::remainder::remainder;
use std::num::{
    f32_from_bits_with_nan, f32_to_bits_with_nan, f64_from_bits_with_nan, f64_to_bits_with_nan,
};

/// What is computed of two numbers.
#[derive(Clone, Copy, Debug)]
pub enum Arithmetic {
    /// The left one plus the right one.
    Sum,
    /// The left one minus the right one.
    Difference,
    /// The left one times the right one.
    Product,
    /// The left one by the right one: of whole numbers cut to a whole number.
    Quotient,
    /// What is left of the left one when it is divided by the right one, with the left one's sign.
    Remainder,
}

impl Float {
    /// The arithmetic of IEEE 754 on both, to nearest and to even at a tie; the remainder is that of C's `fmod`,
    /// which is exact. None where the formats differ.
    pub fn compute(self, arithmetic: Arithmetic, other: Float) -> Option<Float>
        ensures { result ≡ float_result arithmetic self other }
    {
        match self {
            Float::F32(a) => match other {
                Float::F32(b) => Some(result_of_32(arithmetic, a, b)),
                Float::F64(_) => None,
            },
            Float::F64(a) => match other {
                Float::F32(_) => None,
                Float::F64(b) => Some(result_of_64(arithmetic, a, b)),
            },
        }
    }
}

// The result on the numbers of those bits.
fn result_of_32(arithmetic: Arithmetic, a: u32, b: u32) -> Float
    ensures { Some result ≡ float_result arithmetic (Float.F32 a) (Float.F32 b) }
{
    let (x, y) = (f32_from_bits_with_nan(a), f32_from_bits_with_nan(b));
    let result = match arithmetic {
        Arithmetic::Sum => x + y,
        Arithmetic::Difference => x - y,
        Arithmetic::Product => x * y,
        Arithmetic::Quotient => x / y,
        Arithmetic::Remainder => return remainder(Float::F32(a), Float::F32(b)),
    };
    Float::F32(f32_to_bits_with_nan(result))
}

// The result on the numbers of those bits.
fn result_of_64(arithmetic: Arithmetic, a: u64, b: u64) -> Float
    ensures { Some result ≡ float_result arithmetic (Float.F64 a) (Float.F64 b) }
{
    let (x, y) = (f64_from_bits_with_nan(a), f64_from_bits_with_nan(b));
    let result = match arithmetic {
        Arithmetic::Sum => x + y,
        Arithmetic::Difference => x - y,
        Arithmetic::Product => x * y,
        Arithmetic::Quotient => x / y,
        Arithmetic::Remainder => return remainder(Float::F64(a), Float::F64(b)),
    };
    Float::F64(f64_to_bits_with_nan(result))
}

// What is left of a number when it is divided by another.
ghost use Rattle.std.specs.Prelude.{◌≡◌, ◌+◌, ◌*◌, ◌%◌, ◌^◌, ◌<◌, ◌≤◌};
ghost use Rattle.std.specs.Float.Ieee.{hid, low, nan, ones, prec, rem, top};
ghost use Rattle.vx_floats.specs.Floats.{format_of};
ghost use Rattle.vx_floats.specs.Parts.{den_of, num_of, with_sign};
ghost use Rattle.vx_floats.specs.Texts.{binary, nearest, number_of, value_of};

use crate::Float;
use crate::parts::{Fraction, Parts, parts_of};
use vx_dtype::FloatType;

// What is left of the number when it is divided by another of its format, with the number's sign. It is exact.
pub(crate) fn remainder(number: Float, divisor: Float) -> Float
    requires { format_of divisor ≡ format_of number }
    ensures { result ≡ number_of (format_of number) (rem (binary (format_of number)) (value_of number) (value_of divisor)) }
{
    let format = number.float_type();
    match parts_of(number) {
        Parts::Nan => no_number(format),
        Parts::Infinite(_) => no_number(format),
        Parts::Finite(left) => match parts_of(divisor) {
            Parts::Nan => no_number(format),
            Parts::Infinite(_) => number,
            Parts::Finite(right) => {
                if right.significand == 0 {
                    no_number(format)
                } else if left.exponent < right.exponent {
                    // The divisor's significand has all its digits then, so that its size is the greater one.
                    number
                } else {
                    rest_of(format, left, right)
                }
            }
        },
    }
}

// What is left of a finite number when it is divided by another one, of which the exponent isn't the greater one.
fn rest_of(format: FloatType, left: Fraction, right: Fraction) -> Float
    requires exponents { right.exponent ≤ left.exponent }
    requires divisor { (0 < right.significand) × (right.significand < 2 ^ prec (binary format)) }
    requires range { right.exponent + 2 ≤ ones (binary format) }
    requires lowest { left.lowest ≡ low (binary format) }
    ensures { result ≡ nearest format left.negative (num_of left % num_of right) (den_of left) }
{
    let places = left.exponent - right.exponent;
    let rest = modulo(left.significand, places, right.significand);
    let hidden = hidden_bit(format);
    let (significand, exponent) = normal(hidden, rest, right.exponent);
    with_sign(format, left.negative, exponent * hidden + significand)
}

// What the lowest bit of the exponent counts.
fn hidden_bit(format: FloatType) -> u64
    ensures { result ≡ hid (binary format) }
{
    match format {
        FloatType::F32 => 0x80_0000,
        FloatType::F64 => 0x10_0000_0000_0000,
    }
}

// number * 2 ^ places modulo the divisor.
fn modulo(number: u64, places: u64, divisor: u64) -> u64
    requires { (0 < divisor) × (divisor < 2 ^ 53) }
    ensures { result ≡ number * 2 ^ places % divisor }
{
    let modulus = u128::from(divisor);
    let mut rest = u128::from(number) % modulus;
    let mut left = places;
    while left > 0 {
        let step = left.min(64);
        rest = (rest << step) % modulus;
        left -= step;
    }
    rest as u64
}

// The same size with the hidden bit in its significand, or with the least exponent.
fn normal(hidden: u64, significand: u64, exponent: u64) -> (u64, u64)
    requires { (significand < 2 * hidden) × (hidden ≤ 2 ^ 52) }
    ensures size { result.0 * 2 ^ result.1 ≡ significand * 2 ^ exponent }
    ensures fits { result.0 < 2 * hidden }
    ensures normal { 0 < result.1 → hidden ≤ result.0 }
    ensures bound { result.1 ≤ exponent }
{
    if significand == 0 {
        return (0, 0);
    }
    let (mut digits, mut power) = (significand, exponent);
    while power > 0 && digits < hidden {
        digits *= 2;
        power -= 1;
    }
    (digits, power)
}

// The number with that sign whose other bits are these.
fn with_sign(format: FloatType, negative: bool, size: u64) -> Float
    requires { size < top (binary format) }
    ensures { result ≡ with_sign format negative size }
{
    match format {
        FloatType::F32 => Float::F32(if negative {
            0x8000_0000 + size as u32
        } else {
            size as u32
        }),
        FloatType::F64 => Float::F64(if negative {
            0x8000_0000_0000_0000 + size
        } else {
            size
        }),
    }
}

// The one NaN of the format.
fn no_number(format: FloatType) -> Float
    ensures { result ≡ number_of format nan }
{
    match format {
        FloatType::F32 => Float::F32(0x7fc0_0000),
        FloatType::F64 => Float::F64(0x7ff8_0000_0000_0000),
    }
}

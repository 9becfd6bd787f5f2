// The parts of a number.
ghost use Rattle.std.specs.Prelude.{◌≡◌, ◌*◌, ◌^◌, ◌<◌, ◌≤◌};
ghost use Rattle.std.specs.Float.Ieee.{top};
ghost use Rattle.vx_floats.specs.Floats.{format_of};
ghost use Rattle.vx_floats.specs.Parts.{HasParts, pattern_of};
ghost use Rattle.vx_floats.specs.Texts.{binary};

use crate::Float;

// What a number is.
#[derive(Clone, Copy)]
pub(crate) enum Parts {
    // No number.
    Nan,
    // An infinity, negative or not.
    Infinite(bool),
    // A finite number.
    Finite(Fraction),
}

// The size of a finite number, which is significand * 2 ^ exponent / 2 ^ lowest, and its sign.
#[derive(Clone, Copy)]
pub(crate) struct Fraction {
    pub(crate) negative: bool,
    pub(crate) significand: u64,
    pub(crate) exponent: u64,
    pub(crate) lowest: u64,
}

// The bits of a number, and what they count in its format.
#[derive(Clone, Copy)]
struct Pattern {
    bits: u64,
    // What the bit of the sign counts.
    sign: u64,
    // What the lowest bit of the exponent counts.
    hidden: u64,
    // The exponent of infinities.
    ones: u64,
    // The least number above zero is 2 ^ -lowest.
    lowest: u64,
}

fn pattern_of(number: Float) -> Pattern
    ensures value { result ≡ pattern_of number }
    ensures bound { result.bits < 2 * top (binary (format_of number)) }
    ensures weights { (0 < result.sign) × (0 < result.hidden) × (result.hidden ≤ 2 ^ 52) }
{
    match number {
        Float::F32(bits) => Pattern {
            bits: u64::from(bits),
            sign: 0x8000_0000,
            hidden: 0x80_0000,
            ones: 0xff,
            lowest: 149,
        },
        Float::F64(bits) => Pattern {
            bits,
            sign: 0x8000_0000_0000_0000,
            hidden: 0x10_0000_0000_0000,
            ones: 0x7ff,
            lowest: 1074,
        },
    }
}

// The parts of the number.
pub(crate) fn parts_of(number: Float) -> Parts
    ensures { HasParts number result }
{
    let pattern = pattern_of(number);
    let negative = pattern.bits >= pattern.sign;
    let field = pattern.bits % pattern.sign / pattern.hidden;
    let digits = pattern.bits % pattern.hidden;
    if field == pattern.ones {
        return if digits == 0 {
            Parts::Infinite(negative)
        } else {
            Parts::Nan
        };
    }
    let (significand, exponent) = if field == 0 {
        (digits, 0)
    } else {
        (pattern.hidden + digits, field - 1)
    };
    Parts::Finite(Fraction {
        negative,
        significand,
        exponent,
        lowest: pattern.lowest,
    })
}

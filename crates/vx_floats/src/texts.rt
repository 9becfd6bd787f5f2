// Numbers as texts.
ghost use Rattle.std.specs.Prelude.{◌≡◌, ◌++◌, [], ◌∷◌, codes, Some};
ghost use Rattle.std.specs.Fmt.{WritesOnOk, sign_text};
ghost use Rattle.std.specs.Option.{option_map, unwrap_or};
ghost use Rattle.hex.specs.Hex.{encode_lower};
ghost use Rattle.vx_floats.specs.Parts.{IsFractionOf, den_of, num_of};
ghost use Rattle.vx_floats.specs.Texts.{bits_text, float_text, fraction_text, has_value_text, scale_of};

use crate::Float;
use crate::decimals::shortest;
use crate::parts::{Fraction, Parts, parts_of};
use std::fmt;
use std::fmt::{Display, Formatter, Write};
use vx_literals::write_decimal;

/// `nan`, `inf`, `-inf`, or the decimal with the fewest digits behind the point that is read as the number, from 1 to 22 of
/// them. `0x` and the bits in hexadecimal digits where no such decimal of at most 38 digits is. Takes no memory.
impl Display for Float {
    ghost output = { λ x. Some (float_text x) };

    fn fmt<W: Write>(&self, f: &mut Formatter<W>) -> fmt::Result {
        match parts_of(*self) {
            Parts::Nan => f.write_str("nan"),
            Parts::Infinite(negative) => write_infinity(negative, f),
            Parts::Finite(fraction) => write_finite(*self, fraction, f),
        }
    }
}

/// Whether the number is written as `nan`, an infinity or a decimal, and not by its bits.
pub fn has_value_text(number: Float) -> bool
    ensures { result ≡ has_value_text number }
{
    match parts_of(number) {
        Parts::Nan => true,
        Parts::Infinite(_negative) => true,
        Parts::Finite(fraction) => shortest(number, fraction).is_some(),
    }
}

// Writes an infinity.
fn write_infinity<W: Write>(negative: bool, f: &mut Formatter<W>) -> fmt::Result
    ensures { WritesOnOk W.write_str_gives f.old result (sign_text negative ++ codes "inf") f.new }
{
    f.write_str(if negative { "-inf" } else { "inf" })
}

// Writes a finite number.
fn write_finite<W: Write>(number: Float, fraction: Fraction, f: &mut Formatter<W>) -> fmt::Result
    requires { IsFractionOf number fraction }
    ensures { WritesOnOk W.write_str_gives f.old result (unwrap_or (option_map (fraction_text fraction.negative (num_of fraction) (den_of fraction)) (scale_of number fraction.negative (num_of fraction) (den_of fraction))) (bits_text number)) f.new }
{
    match shortest(number, fraction) {
        Some(decimal) => {
            f.write_str(if fraction.negative { "-" } else { "" })?;
            write_decimal(decimal.units as i128, decimal.scale, f)
        }
        None => write_bits(number, f),
    }
}

// Writes the bits.
fn write_bits<W: Write>(number: Float, f: &mut Formatter<W>) -> fmt::Result
    ensures { WritesOnOk W.write_str_gives f.old result (bits_text number) f.new }
{
    f.write_str("0x")?;
    match number {
        Float::F32(bits) => write_octets(&bits.to_be_bytes(), f),
        Float::F64(bits) => write_octets(&bits.to_be_bytes(), f),
    }
}

// Writes two hexadecimal digits for each byte.
fn write_octets<W: Write>(octets: &[u8], f: &mut Formatter<W>) -> fmt::Result
    ensures { WritesOnOk W.write_str_gives f.old result (encode_lower octets.now) f.new }
{
    for octet in octets {
        write_octet(*octet, f)?;
    }
    Ok(())
}

// Writes a byte by its two hexadecimal digits.
fn write_octet<W: Write>(octet: u8, f: &mut Formatter<W>) -> fmt::Result
    ensures { WritesOnOk W.write_str_gives f.old result (encode_lower (octet ∷ [])) f.new }
{
    write!(f, "{octet:02x}")
}

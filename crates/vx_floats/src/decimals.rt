// The decimal of a number.
ghost use Rattle.std.specs.Prelude.{◌≡◌, ◌*◌, ◌^◌, ◌<◌, ◌≤◌, IfSome, None, Some, nat_lt, if◌then◌else◌};
ghost use Rattle.std.specs.Float.{ratio_round_half_up};
ghost use Rattle.std.specs.Option.{option_map};
ghost use Rattle.vx_floats.specs.Parts.{IsFractionOf, den_of, num_of};
ghost use Rattle.vx_floats.specs.Texts.{is_enough, nearest, scale_of, units_of};

use crate::Float;
use crate::parts::Fraction;
use fast_float::from_parts;
use std::num::{f32_to_bits_with_nan, f64_to_bits_with_nan};
use vx_dtype::FloatType;
use vx_literals::power_of_ten;

// One more than the units of 38 digits.
const LIMIT: u128 = 100_000_000_000_000_000_000_000_000_000_000_000_000;

// 17 digits tell any two numbers apart: from so many units on, a number lies nearest to the units that lie nearest to it.
const ENOUGH: u128 = 100_000_000_000_000_000;

// So many units, 10 to the scale of which are one.
#[derive(Clone, Copy)]
pub(crate) struct Decimal {
    pub(crate) units: u128,
    pub(crate) scale: u8,
}

// The decimal with the fewest digits behind the point, from 1 to 22, that is read as the number.
pub(crate) fn shortest(number: Float, fraction: Fraction) -> Option<Decimal>
    requires { IsFractionOf number fraction }
    ensures scale { option_map (λ d. d.scale) result ≡ scale_of number fraction.negative (num_of fraction) (den_of fraction) }
    ensures units { IfSome result (λ d. d.units ≡ units_of (num_of fraction) (den_of fraction) d.scale) }
    ensures bounds { IfSome result (λ d. (d.units < 10 ^ 38) × (d.scale ≤ 22)) }
{
    for scale in 1..23 {
        if let Some(units) = units_at(number, fraction, scale) {
            return Some(Decimal { units, scale });
        }
    }
    None
}

// The units at a scale, if so many digits behind the point are enough.
fn units_at(number: Float, fraction: Fraction, scale: u8) -> Option<u128>
    requires fraction { IsFractionOf number fraction }
    requires scale { scale ≤ 22 }
    ensures { result ≡ (if is_enough number fraction.negative (num_of fraction) (den_of fraction) scale then Some (units_of (num_of fraction) (den_of fraction) scale) else None) }
{
    let units = few_units(fraction, scale)?;
    if units >= ENOUGH {
        return Some(units);
    }
    let read = nearest(number.float_type(), fraction.negative, units as u64, scale);
    if read.is_same(number) {
        Some(units)
    } else {
        None
    }
}

// The number that lies nearest to so many units, 10 to the scale of which are one.
fn nearest(format: FloatType, negative: bool, units: u64, scale: u8) -> Float
    ensures { result ≡ nearest format negative units (10 ^ scale) }
{
    let exponent = -i64::from(scale);
    match format {
        FloatType::F32 => {
            Float::F32(f32_to_bits_with_nan(from_parts(negative, units, exponent)))
        }
        FloatType::F64 => {
            Float::F64(f64_to_bits_with_nan(from_parts(negative, units, exponent)))
        }
    }
}

// The units that lie nearest to a fraction at a scale, if they have at most 38 digits.
fn few_units(fraction: Fraction, scale: u8) -> Option<u128>
    requires significand { (fraction.significand < 2 ^ 53) × (0 < fraction.exponent → 0 < fraction.significand) }
    requires scale { scale ≤ 22 }
    ensures { result ≡ (if nat_lt (units_of (num_of fraction) (den_of fraction) scale) (10 ^ 38) then Some (units_of (num_of fraction) (den_of fraction) scale) else None) }
{
    let scaled = u128::from(fraction.significand) * power_of_ten(scale);
    if fraction.exponent > fraction.lowest {
        raised(scaled, fraction.exponent - fraction.lowest)
    } else {
        Some(lowered(scaled, fraction.lowest - fraction.exponent))
    }
}

// number * 2 ^ places, if it has at most 38 digits.
fn raised(number: u128, places: u64) -> Option<u128>
    requires { 0 < number }
    ensures { result ≡ (if nat_lt (number * 2 ^ places) (10 ^ 38) then Some (number * 2 ^ places) else None) }
{
    if places < 127 && number <= (LIMIT - 1) >> places {
        Some(number << places)
    } else {
        None
    }
}

// The whole number nearest to number / 2 ^ places; a half goes up.
fn lowered(number: u128, places: u64) -> u128
    requires { number < 2 ^ 127 }
    ensures value { result ≡ ratio_round_half_up number (2 ^ places) }
    ensures bound { result ≤ number }
{
    if places == 0 {
        number
    } else if places > 128 {
        0
    } else {
        ((number >> (places - 1)) + 1) / 2
    }
}

// The types of decimals.
ghost use Rattle.std.specs.Prelude.{◌≡◌, ◌≤◌, ◌↔◌, IfSome, IsSome};

use std::fmt;
use std::fmt::{Display, Formatter, Write};

/// The type of decimals with so many digits, of which so many stand behind the point: a value is a whole
/// number of units, 10 to the scale of which are one.
#[derive(Clone, Copy, Debug)]
pub struct DecimalType {
    precision: u8,
    scale: u8,
    pub ghost some: { 1 ≤ precision },
    pub ghost wide: { precision ≤ 38 },
    pub ghost within: { scale ≤ precision },
}

impl DecimalType {
    /// The most digits that a decimal may have.
    pub const MAX_PRECISION: u8 = 38;

    /// The type of that precision and scale. None where the precision isn't from 1 to 38, or the scale is above it.
    pub fn new(precision: u8, scale: u8) -> Option<DecimalType>
        ensures some { IsSome result ↔ ((1 ≤ precision) × (precision ≤ 38) × (scale ≤ precision)) }
        ensures value { IfSome result (λ d. (d.precision ≡ precision) × (d.scale ≡ scale)) }
    {
        if precision == 0 || precision > DecimalType::MAX_PRECISION || scale > precision {
            return None;
        }
        Some(DecimalType { precision, scale })
    }

    /// How many digits a value has at most, from 1 to 38.
    pub fn precision(self) -> u8
        ensures precision { result ≡ self.precision }
        ensures some { 1 ≤ result }
        ensures wide { result ≤ 38 }
    {
        self.precision
    }

    /// How many of the digits stand behind the point, at most as many as there are.
    pub fn scale(self) -> u8
        ensures scale { result ≡ self.scale }
        ensures within { result ≤ self.precision }
    {
        self.scale
    }
}

impl Display for DecimalType {
    ghost use Rattle.std.specs.Prelude.{Some};
    ghost use Rattle.vx_dtype.specs.Texts.{atomic_text};
    ghost use Rattle.vx_dtype.specs.Types.{decimals};

    ghost output = { λ d. Some (atomic_text (decimals d.precision d.scale)) };

    fn fmt<W: Write>(&self, f: &mut Formatter<W>) -> fmt::Result {
        f.write_str("decimal(")?;
        self.precision.fmt(f)?;
        f.write_str(", ")?;
        self.scale.fmt(f)?;
        f.write_str(")")
    }
}

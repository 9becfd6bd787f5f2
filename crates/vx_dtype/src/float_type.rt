// The types of floating-point numbers.
ghost use Rattle.std.specs.Prelude.{◌≡◌, Some};
ghost use Rattle.vx_dtype.specs.Texts.{float_type_text};
ghost use Rattle.vx_dtype.specs.Types.{float_type_index, same_float_type};

use std::fmt;
use std::fmt::{Display, Formatter, Write};

/// The types of floating-point numbers, by IEEE 754's formats.
#[derive(Clone, Copy, Debug, PartialEq, Eq, Hash)]
pub enum FloatType {
    /// Numbers of the format binary32.
    F32,
    /// Numbers of the format binary64.
    F64,
}

impl FloatType {
    // The place among the formats.
    pub(crate) fn index(self) -> u8
        ensures { result ≡ float_type_index self }
    {
        match self {
            FloatType::F32 => 0,
            FloatType::F64 => 1,
        }
    }

    /// Whether both are one format.
    pub fn is_same(self, other: FloatType) -> bool
        ensures { result ≡ same_float_type self other }
    {
        self.index() == other.index()
    }

    /// The text of the type, as `f64`.
    pub fn as_str(self) -> &'static str
        ensures { result.now ≡ float_type_text self }
    {
        match self {
            FloatType::F32 => "f32",
            FloatType::F64 => "f64",
        }
    }
}

impl Display for FloatType {
    ghost output = { λ p. Some (float_type_text p) };

    fn fmt<W: Write>(&self, f: &mut Formatter<W>) -> fmt::Result {
        f.write_str(self.as_str())
    }
}

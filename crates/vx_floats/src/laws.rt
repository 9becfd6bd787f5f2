// What is written of numbers is read back.
ghost use Rattle.std.specs.Prelude.{◌≡◌, IsTrue, Some};
ghost use Rattle.vx_floats.specs.Floats.{format_of, is_canonical};
ghost use Rattle.vx_floats.specs.Texts.{float_read, float_text};

use crate::Float;

/// The text of a canonical number is read as that number.
pub fn written_floats_are_read(number: Float)
    ensures { IsTrue (is_canonical number) → float_read (format_of number) (float_text number) ≡ Some number }
{}

// Whole numbers that have buffers of their own width.
ghost use Rattle.std.specs.Prelude.{◌≡◌, ◌^◌, ◌+ℤ◌, ℤ, IfSome, map, pos};
ghost use Rattle.vx_array.specs.Kinds.{numbers_in};

use vx_array::{Numbers, Part};
use vx_array_build::Native;
use vx_array_loops::Number;

/// A whole number of Rust's in buffers of its own width.
pub trait Width: Native {
    /// The numbers of a column, if they have this width.
    fn part(numbers: &Numbers) -> Option<&Part<Self>>
        ensures { IfSome result (λ part. numbers_in numbers.now ≡ map Self.number part.now) };

    /// How far the number's code lies above it.
    ghost above: { ℤ };

    /// The number's code, which has no sign.
    fn code(self) -> u64
        ensures { pos result ≡ Self.number self +ℤ above };
}

impl Width for u8 {
    ghost above = { pos 0 };

    #[inline(always)]
    fn code(self) -> u64 {
        self as u64
    }

    fn part(numbers: &Numbers) -> Option<&Part<u8>> {
        match numbers {
            Numbers::U8(part) => Some(part),
            _ => None,
        }
    }
}

impl Width for u16 {
    ghost above = { pos 0 };

    #[inline(always)]
    fn code(self) -> u64 {
        self as u64
    }

    fn part(numbers: &Numbers) -> Option<&Part<u16>> {
        match numbers {
            Numbers::U16(part) => Some(part),
            _ => None,
        }
    }
}

impl Width for u32 {
    ghost above = { pos 0 };

    #[inline(always)]
    fn code(self) -> u64 {
        self as u64
    }

    fn part(numbers: &Numbers) -> Option<&Part<u32>> {
        match numbers {
            Numbers::U32(part) => Some(part),
            _ => None,
        }
    }
}

impl Width for u64 {
    ghost above = { pos 0 };

    #[inline(always)]
    fn code(self) -> u64 {
        self
    }

    fn part(numbers: &Numbers) -> Option<&Part<u64>> {
        match numbers {
            Numbers::U64(part) => Some(part),
            _ => None,
        }
    }
}

impl Width for i8 {
    ghost above = { pos (2 ^ 63) };

    #[inline(always)]
    fn code(self) -> u64 {
        (self as i128 + 0x8000_0000_0000_0000) as u64
    }

    fn part(numbers: &Numbers) -> Option<&Part<i8>> {
        match numbers {
            Numbers::I8(part) => Some(part),
            _ => None,
        }
    }
}

impl Width for i16 {
    ghost above = { pos (2 ^ 63) };

    #[inline(always)]
    fn code(self) -> u64 {
        (self as i128 + 0x8000_0000_0000_0000) as u64
    }

    fn part(numbers: &Numbers) -> Option<&Part<i16>> {
        match numbers {
            Numbers::I16(part) => Some(part),
            _ => None,
        }
    }
}

impl Width for i32 {
    ghost above = { pos (2 ^ 63) };

    #[inline(always)]
    fn code(self) -> u64 {
        (self as i128 + 0x8000_0000_0000_0000) as u64
    }

    fn part(numbers: &Numbers) -> Option<&Part<i32>> {
        match numbers {
            Numbers::I32(part) => Some(part),
            _ => None,
        }
    }
}

impl Width for i64 {
    ghost above = { pos (2 ^ 63) };

    #[inline(always)]
    fn code(self) -> u64 {
        (self as i128 + 0x8000_0000_0000_0000) as u64
    }

    fn part(numbers: &Numbers) -> Option<&Part<i64>> {
        match numbers {
            Numbers::I64(part) => Some(part),
            _ => None,
        }
    }
}

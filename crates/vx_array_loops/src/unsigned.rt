// Whole numbers without a sign.
ghost use Rattle.std.specs.Prelude.{pos, false};
ghost use Rattle.vx_array_loops.specs.Numbers.{in_range};

use crate::comparison::Comparison;
use crate::computation::Computation;
use crate::number::Number;

impl Number for u8 {
    ghost number = { λ x. pos x };

    ghost fits = { in_range false 8 };

    #[inline(always)]
    fn zero() -> u8 {
        0
    }

    #[inline(always)]
    fn widened(self) -> i128 {
        self as i128
    }

    #[inline(always)]
    fn narrowed(n: i128) -> Option<u8> {
        if n < 0 || n > u8::MAX as i128 {
            return None;
        }
        Some(n as u8)
    }

    #[inline(always)]
    fn holds(self, comparison: Comparison, other: u8) -> bool {
        match comparison {
            Comparison::Equal => self == other,
            Comparison::NotEqual => self != other,
            Comparison::Less => self < other,
            Comparison::LessOrEqual => self <= other,
            Comparison::Greater => self > other,
            Comparison::GreaterOrEqual => self >= other,
        }
    }

    #[inline(always)]
    fn computed(self, computation: Computation, other: u8) -> (u8, bool) {
        match computation {
            Computation::Sum => self.overflowing_add(other),
            Computation::Difference => self.overflowing_sub(other),
            Computation::Product => self.overflowing_mul(other),
            Computation::Quotient => match self.checked_div(other) {
                Some(quotient) => (quotient, false),
                None => (0, true),
            },
            Computation::Remainder => match other {
                0 => (0, true),
                _ => (self % other, false),
            },
        }
    }
}

impl Number for u16 {
    ghost number = { λ x. pos x };

    ghost fits = { in_range false 16 };

    #[inline(always)]
    fn zero() -> u16 {
        0
    }

    #[inline(always)]
    fn widened(self) -> i128 {
        self as i128
    }

    #[inline(always)]
    fn narrowed(n: i128) -> Option<u16> {
        if n < 0 || n > u16::MAX as i128 {
            return None;
        }
        Some(n as u16)
    }

    #[inline(always)]
    fn holds(self, comparison: Comparison, other: u16) -> bool {
        match comparison {
            Comparison::Equal => self == other,
            Comparison::NotEqual => self != other,
            Comparison::Less => self < other,
            Comparison::LessOrEqual => self <= other,
            Comparison::Greater => self > other,
            Comparison::GreaterOrEqual => self >= other,
        }
    }

    #[inline(always)]
    fn computed(self, computation: Computation, other: u16) -> (u16, bool) {
        match computation {
            Computation::Sum => self.overflowing_add(other),
            Computation::Difference => self.overflowing_sub(other),
            Computation::Product => self.overflowing_mul(other),
            Computation::Quotient => match self.checked_div(other) {
                Some(quotient) => (quotient, false),
                None => (0, true),
            },
            Computation::Remainder => match other {
                0 => (0, true),
                _ => (self % other, false),
            },
        }
    }
}

impl Number for u32 {
    ghost number = { λ x. pos x };

    ghost fits = { in_range false 32 };

    #[inline(always)]
    fn zero() -> u32 {
        0
    }

    #[inline(always)]
    fn widened(self) -> i128 {
        self as i128
    }

    #[inline(always)]
    fn narrowed(n: i128) -> Option<u32> {
        if n < 0 || n > u32::MAX as i128 {
            return None;
        }
        Some(n as u32)
    }

    #[inline(always)]
    fn holds(self, comparison: Comparison, other: u32) -> bool {
        match comparison {
            Comparison::Equal => self == other,
            Comparison::NotEqual => self != other,
            Comparison::Less => self < other,
            Comparison::LessOrEqual => self <= other,
            Comparison::Greater => self > other,
            Comparison::GreaterOrEqual => self >= other,
        }
    }

    #[inline(always)]
    fn computed(self, computation: Computation, other: u32) -> (u32, bool) {
        match computation {
            Computation::Sum => self.overflowing_add(other),
            Computation::Difference => self.overflowing_sub(other),
            Computation::Product => self.overflowing_mul(other),
            Computation::Quotient => match self.checked_div(other) {
                Some(quotient) => (quotient, false),
                None => (0, true),
            },
            Computation::Remainder => match other {
                0 => (0, true),
                _ => (self % other, false),
            },
        }
    }
}

impl Number for u64 {
    ghost number = { λ x. pos x };

    ghost fits = { in_range false 64 };

    #[inline(always)]
    fn zero() -> u64 {
        0
    }

    #[inline(always)]
    fn widened(self) -> i128 {
        self as i128
    }

    #[inline(always)]
    fn narrowed(n: i128) -> Option<u64> {
        if n < 0 || n > u64::MAX as i128 {
            return None;
        }
        Some(n as u64)
    }

    #[inline(always)]
    fn holds(self, comparison: Comparison, other: u64) -> bool {
        match comparison {
            Comparison::Equal => self == other,
            Comparison::NotEqual => self != other,
            Comparison::Less => self < other,
            Comparison::LessOrEqual => self <= other,
            Comparison::Greater => self > other,
            Comparison::GreaterOrEqual => self >= other,
        }
    }

    #[inline(always)]
    fn computed(self, computation: Computation, other: u64) -> (u64, bool) {
        match computation {
            Computation::Sum => self.overflowing_add(other),
            Computation::Difference => self.overflowing_sub(other),
            Computation::Product => self.overflowing_mul(other),
            Computation::Quotient => match self.checked_div(other) {
                Some(quotient) => (quotient, false),
                None => (0, true),
            },
            Computation::Remainder => match other {
                0 => (0, true),
                _ => (self % other, false),
            },
        }
    }
}

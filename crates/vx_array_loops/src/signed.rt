// Whole numbers with a sign.
ghost use Rattle.std.specs.Prelude.{true};
ghost use Rattle.vx_array_loops.specs.Numbers.{in_range};

use crate::comparison::Comparison;
use crate::computation::Computation;
use crate::number::Number;

impl Number for i8 {
    ghost number = { λ x. x };

    ghost fits = { in_range true 7 };

    #[inline(always)]
    fn zero() -> i8 {
        0
    }

    #[inline(always)]
    fn widened(self) -> i128 {
        self as i128
    }

    #[inline(always)]
    fn narrowed(n: i128) -> Option<i8> {
        if n < i8::MIN as i128 || n > i8::MAX as i128 {
            return None;
        }
        Some(n as i8)
    }

    #[inline(always)]
    fn holds(self, comparison: Comparison, other: i8) -> bool {
        match comparison {
            Comparison::Equal => self == other,
            Comparison::NotEqual => self != other,
            Comparison::Less => self < other,
            Comparison::LessOrEqual => self <= other,
            Comparison::Greater => self > other,
            Comparison::GreaterOrEqual => self >= other,
        }
    }

    #[inline(always)]
    fn computed(self, computation: Computation, other: i8) -> (i8, bool) {
        match computation {
            Computation::Sum => self.overflowing_add(other),
            Computation::Difference => self.overflowing_sub(other),
            Computation::Product => self.overflowing_mul(other),
            Computation::Quotient => match self.checked_div(other) {
                Some(quotient) => (quotient, false),
                None => (0, true),
            },
            Computation::Remainder => match other {
                0 => (0, true),
                _ => (self.wrapping_rem(other), false),
            },
        }
    }
}

impl Number for i16 {
    ghost number = { λ x. x };

    ghost fits = { in_range true 15 };

    #[inline(always)]
    fn zero() -> i16 {
        0
    }

    #[inline(always)]
    fn widened(self) -> i128 {
        self as i128
    }

    #[inline(always)]
    fn narrowed(n: i128) -> Option<i16> {
        if n < i16::MIN as i128 || n > i16::MAX as i128 {
            return None;
        }
        Some(n as i16)
    }

    #[inline(always)]
    fn holds(self, comparison: Comparison, other: i16) -> bool {
        match comparison {
            Comparison::Equal => self == other,
            Comparison::NotEqual => self != other,
            Comparison::Less => self < other,
            Comparison::LessOrEqual => self <= other,
            Comparison::Greater => self > other,
            Comparison::GreaterOrEqual => self >= other,
        }
    }

    #[inline(always)]
    fn computed(self, computation: Computation, other: i16) -> (i16, bool) {
        match computation {
            Computation::Sum => self.overflowing_add(other),
            Computation::Difference => self.overflowing_sub(other),
            Computation::Product => self.overflowing_mul(other),
            Computation::Quotient => match self.checked_div(other) {
                Some(quotient) => (quotient, false),
                None => (0, true),
            },
            Computation::Remainder => match other {
                0 => (0, true),
                _ => (self.wrapping_rem(other), false),
            },
        }
    }
}

impl Number for i32 {
    ghost number = { λ x. x };

    ghost fits = { in_range true 31 };

    #[inline(always)]
    fn zero() -> i32 {
        0
    }

    #[inline(always)]
    fn widened(self) -> i128 {
        self as i128
    }

    #[inline(always)]
    fn narrowed(n: i128) -> Option<i32> {
        if n < i32::MIN as i128 || n > i32::MAX as i128 {
            return None;
        }
        Some(n as i32)
    }

    #[inline(always)]
    fn holds(self, comparison: Comparison, other: i32) -> bool {
        match comparison {
            Comparison::Equal => self == other,
            Comparison::NotEqual => self != other,
            Comparison::Less => self < other,
            Comparison::LessOrEqual => self <= other,
            Comparison::Greater => self > other,
            Comparison::GreaterOrEqual => self >= other,
        }
    }

    #[inline(always)]
    fn computed(self, computation: Computation, other: i32) -> (i32, bool) {
        match computation {
            Computation::Sum => self.overflowing_add(other),
            Computation::Difference => self.overflowing_sub(other),
            Computation::Product => self.overflowing_mul(other),
            Computation::Quotient => match self.checked_div(other) {
                Some(quotient) => (quotient, false),
                None => (0, true),
            },
            Computation::Remainder => match other {
                0 => (0, true),
                _ => (self.wrapping_rem(other), false),
            },
        }
    }
}

impl Number for i64 {
    ghost number = { λ x. x };

    ghost fits = { in_range true 63 };

    #[inline(always)]
    fn zero() -> i64 {
        0
    }

    #[inline(always)]
    fn widened(self) -> i128 {
        self as i128
    }

    #[inline(always)]
    fn narrowed(n: i128) -> Option<i64> {
        if n < i64::MIN as i128 || n > i64::MAX as i128 {
            return None;
        }
        Some(n as i64)
    }

    #[inline(always)]
    fn holds(self, comparison: Comparison, other: i64) -> bool {
        match comparison {
            Comparison::Equal => self == other,
            Comparison::NotEqual => self != other,
            Comparison::Less => self < other,
            Comparison::LessOrEqual => self <= other,
            Comparison::Greater => self > other,
            Comparison::GreaterOrEqual => self >= other,
        }
    }

    #[inline(always)]
    fn computed(self, computation: Computation, other: i64) -> (i64, bool) {
        match computation {
            Computation::Sum => self.overflowing_add(other),
            Computation::Difference => self.overflowing_sub(other),
            Computation::Product => self.overflowing_mul(other),
            Computation::Quotient => match self.checked_div(other) {
                Some(quotient) => (quotient, false),
                None => (0, true),
            },
            Computation::Remainder => match other {
                0 => (0, true),
                _ => (self.wrapping_rem(other), false),
            },
        }
    }
}

// Whole numbers of fixed width.
ghost use Rattle.std.specs.Prelude.{◌≡◌, ℤ, Bool, MatchOption, false, pos, true};
ghost use Rattle.std.specs.Ordering.{int_cmp};
ghost use Rattle.vx_array_loops.specs.Comparisons.{holds};
ghost use Rattle.vx_array_loops.specs.Computations.{computed, fails};

use crate::comparison::Comparison;
use crate::computation::Computation;

/// A whole number of some width, with a sign or without.
pub trait Number: Copy + Drop {
    /// The number.
    ghost number: { Self → ℤ };

    /// Whether a number is one of the type.
    ghost fits: { ℤ → Bool };

    /// Zero.
    fn zero() -> Self
        ensures { number result ≡ pos 0 };

    /// The same number, in the widest type.
    fn widened(self) -> i128
        ensures same { result ≡ number self }
        ensures within { fits (number self) ≡ true };

    /// The number in this type, if it is one of it.
    fn narrowed(n: i128) -> Option<Self>
        ensures { MatchOption result (fits n ≡ false) (λ x. number x ≡ n) };

    /// Whether the comparison holds of the number and the other one.
    fn holds(self, comparison: Comparison, other: Self) -> bool
        ensures { result ≡ holds comparison (int_cmp (number self) (number other)) };

    /// What is computed of the number and the other one, beside whether there is no such number of the type:
    /// where it divides by zero, or the result is out of the type's range.
    fn computed(self, computation: Computation, other: Self) -> (Self, bool)
        ensures fails { result.1 ≡ fails fits computation (number self) (number other) }
        ensures value { result.1 ≡ false → number result.0 ≡ computed computation (number self) (number other) };
}

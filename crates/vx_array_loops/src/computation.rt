// The five kinds of arithmetic.

/// What is computed of two numbers.
#[derive(Clone, Copy, Debug)]
pub enum Computation {
    /// The first plus the other.
    Sum,
    /// The first minus the other.
    Difference,
    /// The first times the other.
    Product,
    /// The first by the other, cut to a whole number.
    Quotient,
    /// What is left of the first when it is divided by the other, with the first's sign.
    Remainder,
}

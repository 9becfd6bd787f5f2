// The six comparisons.

/// A comparison of two things that have an order.
#[derive(Clone, Copy, Debug, PartialEq, Eq)]
pub enum Comparison {
    /// Both are the same.
    Equal,
    /// They aren't the same.
    NotEqual,
    /// The first lies below the other.
    Less,
    /// The first doesn't lie above the other.
    LessOrEqual,
    /// The first lies above the other.
    Greater,
    /// The first doesn't lie below the other.
    GreaterOrEqual,
}

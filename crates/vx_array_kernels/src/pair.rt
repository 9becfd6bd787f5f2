// Two columns side by side.
use vx_array::Lanes;

/// Two columns, each with so many rows.
#[derive(Clone, Copy)]
pub struct Pair<'a> {
    /// How many rows each has.
    pub count: usize,
    /// The first.
    pub lhs: &'a Lanes,
    /// The one beside it.
    pub rhs: &'a Lanes,
}

// Values that no type follows.
ghost use Rattle.std.specs.Prelude.{◌≡◌};
ghost use Rattle.vx_source_types.specs.ValueViews.{draft_of};
ghost use Rattle.vx_source_operands.specs.PlainViews.{plain_by};

use vx_source_types::{Draft, Expected, open_literal, plain_literal};
use vx_value::Scalar;

/// How a value is read that no type follows.
#[derive(Clone, Copy, Debug, PartialEq, Eq)]
pub enum PlainValues {
    /// As it is alone: a whole number is an `i32`, one with a point an `f64`, and a null needs its type.
    Alone,
    /// As one that may take another type: of one of two, which differ, and so do the functions that stand there for `in`.
    Open(bool),
}

impl PlainValues {
    /// The scalar of the value, or what would have stood right.
    pub fn scalar(self, draft: Draft) -> Result<Scalar, Expected>
        ensures { result ≡ plain_by self (draft_of draft) }
    {
        match self {
            PlainValues::Alone => plain_literal(draft),
            PlainValues::Open(nullable) => open_literal(draft, nullable),
        }
    }
}

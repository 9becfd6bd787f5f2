// What has no SQL text, and why.
ghost use Rattle.std.specs.Prelude.{◌≡◌};
ghost use Rattle.vx_sql.specs.declared.unsupported.Unsupported.TheVariants.{OutOfMemory};

use std::alloc::{AllocError, AllocFailed};
use thiserror::Error;

/// Why a node has no SQL text.
#[derive(Clone, Copy, Debug, PartialEq, Eq, Error)]
pub enum Reason {
    /// It is the row of the scope as a whole.
    #[error("the row as a whole has no text, only its columns have")]
    Row,
    /// It has another number of children than its function takes.
    #[error("the function takes another number of children")]
    ChildCount,
    /// The engine has no values of its type.
    #[error("the engine has no such type")]
    UnknownType,
    /// It compares floating-point numbers that may be -0.0 and 0.0, which each engine takes for one, or is such a
    /// number where SQLite has no NaN, and ClickHouse has it equal to nothing.
    #[error("engines order the floating-point numbers -0.0 and NaN otherwise")]
    FloatOrder,
    /// It is a floating-point number that is written by its bits: no decimal of at most 38 digits, of which at most 22
    /// are behind the point, is read as it.
    #[error("a floating-point number takes more digits than are written")]
    FloatBits,
    /// The engine has no such function, or no arithmetic that fails where ours does; or a value is looked up in what is
    /// no literal list.
    #[error("the engine has no such function")]
    UnknownFunction,
    /// It is a literal of a list or a struct.
    #[error("a list or a struct isn't written as a literal")]
    NestedLiteral,
    /// Its pattern is no literal, so that its parts aren't known.
    #[error("the pattern isn't a literal")]
    PatternNotLiteral,
    /// Its fill is no literal other than null, or is one of a list or a struct.
    #[error("the fill isn't a value without parts")]
    FillNotLiteral,
    /// It is a day, or an instant of one, outside the years that have four digits.
    #[error("the day lies outside the years 1 to 9999")]
    FarDay,
    /// A name is empty.
    #[error("a name is empty")]
    EmptyName,
    /// A name is longer than the engine keeps.
    #[error("a name is longer than the engine keeps")]
    LongName,
    /// The engine takes the name for that of another column or field as well.
    #[error("a name stands for several columns or fields")]
    AmbiguousName,
    /// A NUL stands in a name or a text.
    #[error("a NUL stands in a name or a text")]
    Nul,
    /// A backslash stands in a name, and says something of the character behind it.
    #[error("a backslash stands in a name")]
    Backslash,
    /// The engine takes the name for another word, though it stands between quotes.
    #[error("the engine's shards take a name for another word")]
    Keyword,
}

/// Why there is no SQL text of a tree.
#[derive(Debug, Drop, Error)]
pub enum Unsupported {
    /// Memory ran out.
    #[error("out of memory")]
    OutOfMemory,
    /// A node has none.
    #[error("{reason}")]
    Node {
        /// The child indices from the first node down to that node, none where it is the first.
        path: Vec<usize>,
        /// Why it has none.
        reason: Reason,
    },
}

impl From<AllocError> for Unsupported {
    ghost from_gives = { λ _ e. e ≡ OutOfMemory };

    fn from(_e: AllocError) -> Unsupported {
        Unsupported::OutOfMemory
    }
}

impl<T: Drop> From<AllocFailed<T>> for Unsupported {
    ghost from_gives = { λ _ e. e ≡ OutOfMemory };

    fn from(_e: AllocFailed<T>) -> Unsupported {
        Unsupported::OutOfMemory
    }
}

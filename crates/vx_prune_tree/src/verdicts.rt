// What is known of the rows in which a predicate is true.

/// In which rows of a chunk a predicate is true.
#[derive(Clone, Copy, Debug, PartialEq, Eq)]
pub enum Verdict {
    /// In none.
    NoRow,
    /// In every one.
    EveryRow,
    /// In none, some or all: that isn't known.
    Unknown,
}

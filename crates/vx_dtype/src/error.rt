// What a call may refuse with.
ghost use Rattle.std.specs.Prelude.{◌≡◌};
ghost use Rattle.vx_dtype.specs.declared.error.VortexError.TheVariants.{OutOfMemory};

use crate::FieldName;
use std::alloc::{AllocError, AllocFailed};
use thiserror::Error;

/// What a call refuses with, each refusal with its number.
#[derive(Debug, Drop, Error)]
pub enum VortexError {
    /// 1: memory ran out.
    #[error("out of memory")]
    OutOfMemory,
    /// 2: a function got another number of children than it takes.
    #[error("{expected} children are needed, and {got} given")]
    ArityMismatch { expected: usize, got: usize },
    /// 3: the scope root, which has no children, got some.
    #[error("{got} children given to the scope root")]
    RootChildren { got: usize },
    /// 4: a field is asked of another type than a struct.
    #[error("not a struct")]
    NotAStruct,
    /// 5: the first name, in the order given, that no field has.
    #[error("no such field: {0}")]
    NoSuchField(FieldName),
    /// 6: types that have to be the same but for nullability differ in more.
    #[error("types differ in more than nullability")]
    BaseTypesDiffer,
    /// 7: a truth type is needed; for a mask, one without null.
    #[error("a truth type is needed")]
    NotBool,
    /// 8: a list or a struct is compared.
    #[error("lists and structs aren't compared")]
    NotComparable,
    /// 9: a type that the arithmetic doesn't take: none of numbers, or one of decimals where they
    /// are multiplied or divided.
    #[error("a number type is needed")]
    NotNumeric,
    /// 10: another type than a text's is matched with a pattern.
    #[error("a text type is needed")]
    NotText,
    /// 11: a CASE has no pair of a condition and a value.
    #[error("a CASE without a pair")]
    NoPairs,
    /// 12: the column isn't of the type that the expression is bound to.
    #[error("the column isn't of the scope's type")]
    ScopeMismatch,
    /// 13: the sum, difference, product or quotient in that row lies outside the range of its type.
    #[error("the result of row {row} is out of range")]
    AddOverflow { row: usize },
    /// 14: the null in that row would be cast to a type without null.
    #[error("the null of row {row} would be made non-null")]
    CastNull { row: usize },
    /// 15: a fill is null, isn't one and the same value in all rows, or is of a type that isn't filled.
    #[error("a fill that is null, not one value, or of an unsupported type")]
    BadFill,
    /// 16: an expression of several partitions got another number of them.
    #[error("{expected} partitions are needed, and {got} given")]
    PartitionCount { expected: usize, got: usize },
    /// 17: two annotations have that one field name.
    #[error("two annotations with the field name {0}")]
    PartitionNameTaken(FieldName),
    /// 18: the value in that row isn't one of the type.
    #[error("the value of row {row} doesn't fit the type")]
    RowMisfit { row: usize },
    /// 19: columns that stand side by side have different lengths.
    #[error("columns of unequal length")]
    LengthMismatch,
    /// 20: the whole number in that row would be divided by zero.
    #[error("the divisor of row {row} is zero")]
    DivisionByZero { row: usize },
}

impl From<AllocError> for VortexError {
    ghost from_gives = { λ _ e. e ≡ OutOfMemory };

    fn from(_e: AllocError) -> VortexError {
        VortexError::OutOfMemory
    }
}

impl<T: Drop> From<AllocFailed<T>> for VortexError {
    ghost from_gives = { λ _ e. e ≡ OutOfMemory };

    fn from(_e: AllocFailed<T>) -> VortexError {
        VortexError::OutOfMemory
    }
}

/// What a call answers that may refuse.
pub type VortexResult<T> = Result<T, VortexError>;

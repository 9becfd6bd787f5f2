// What a column out of buffers is refused with.
ghost use Rattle.std.specs.Prelude.{◌≡◌};
ghost use Rattle.vx_data_buffers.specs.declared.error.BufferError.TheVariants.{OutOfMemory};
ghost use Rattle.vx_data_buffers.specs.declared.error.LayoutError.TheVariants as layout;

use std::alloc::{AllocError, AllocFailed};
use thiserror::Error;

/// What a column out of buffers is refused with. Rows are those of the whole column, and buffers go by their indexes
/// among all that were given.
#[derive(Debug, Drop, PartialEq, Eq, Error)]
pub enum BufferError {
    /// Memory ran out.
    #[error("out of memory")]
    OutOfMemory,
    /// The type asks for another number of buffers than there are.
    #[error("{expected} buffers are needed, and {given} given")]
    BufferCount { expected: usize, given: usize },
    /// The buffer ends before what the row asks of it.
    #[error("buffer {buffer} ends before what row {row} needs of it")]
    EndsEarly { buffer: usize, row: usize },
    /// Two offsets of the buffer, one behind the other, go down, or one of them is below zero.
    #[error("the offsets for row {row} in buffer {buffer} are below zero or go down")]
    Unordered { buffer: usize, row: usize },
    /// Bytes of the buffer that should be a text are none.
    #[error("a text of row {row} in buffer {buffer} isn't UTF-8")]
    NotUtf8 { buffer: usize, row: usize },
    /// The value in that row isn't one of the type.
    #[error("the value of row {row} doesn't fit the type")]
    RowMisfit { row: usize },
}

/// What writing a column into buffers is refused with.
#[derive(Debug, Drop, PartialEq, Eq, Error)]
pub enum LayoutError {
    /// Memory ran out.
    #[error("out of memory")]
    OutOfMemory,
    /// Texts, bytes or items take more than offsets of 32 bits can say.
    #[error("texts, bytes or items take more than offsets of 32 bits can say")]
    TooLong,
}

impl From<AllocError> for LayoutError {
    ghost from_gives = { λ _ e. e ≡ layout.OutOfMemory };

    fn from(_e: AllocError) -> LayoutError {
        LayoutError::OutOfMemory
    }
}

impl<T: Drop> From<AllocFailed<T>> for LayoutError {
    ghost from_gives = { λ _ e. e ≡ layout.OutOfMemory };

    fn from(_e: AllocFailed<T>) -> LayoutError {
        LayoutError::OutOfMemory
    }
}

impl From<AllocError> for BufferError {
    ghost from_gives = { λ _ e. e ≡ OutOfMemory };

    fn from(_e: AllocError) -> BufferError {
        BufferError::OutOfMemory
    }
}

impl<T: Drop> From<AllocFailed<T>> for BufferError {
    ghost from_gives = { λ _ e. e ≡ OutOfMemory };

    fn from(_e: AllocFailed<T>) -> BufferError {
        BufferError::OutOfMemory
    }
}

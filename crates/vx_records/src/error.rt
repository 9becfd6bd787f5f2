// What stops going over records.
ghost use Rattle.std.specs.Prelude.{◌≡◌};
ghost use Rattle.vx_records.specs.Chunks.{stop_error};
ghost use Rattle.vx_records.specs.declared.error.RecordsError.TheVariants.{OutOfMemory};

use std::alloc::{AllocError, AllocFailed};
use vx_data::{DataError, WriteError};
use vx_dtype::VortexError;

/// Why not all records were gone over.
#[derive(Debug, Drop)]
pub enum RecordsError {
    /// Memory ran out.
    OutOfMemory,
    /// Reading stopped: at a record whose row isn't of the type, or since the reader failed.
    Data(DataError),
    /// The expression faults.
    Fault(RecordFault),
    /// A row can't be written as it is, or the writer failed.
    Write(WriteError),
}

/// Why what is selected of the records that are kept isn't written of all.
#[derive(Debug, Drop)]
pub enum SelectError {
    /// Going over the records stopped, or writing.
    Kept(RecordsError),
    /// What is selected faults on the records that are kept.
    Selected(RecordFault),
}

/// The first fault of an expression on records that were read together.
#[derive(Debug, Drop)]
pub struct RecordFault {
    /// The line at which the record begins on which it faults, none where it does on all of them.
    pub line: Option<u64>,
    /// The child indices from the tree's first node down to the node that faults.
    pub path: Vec<usize>,
    /// The fault; the row that it names is counted from the first of the records.
    pub refusal: VortexError,
}

impl From<AllocError> for RecordsError {
    ghost from_gives = { λ _ e. e ≡ OutOfMemory };

    fn from(_e: AllocError) -> RecordsError {
        RecordsError::OutOfMemory
    }
}

impl<T: Drop> From<AllocFailed<T>> for RecordsError {
    ghost from_gives = { λ _ e. e ≡ OutOfMemory };

    fn from(_e: AllocFailed<T>) -> RecordsError {
        RecordsError::OutOfMemory
    }
}

impl From<DataError> for RecordsError {
    ghost from_gives = { λ stop e. e ≡ stop_error stop };

    fn from(e: DataError) -> RecordsError {
        match e {
            DataError::OutOfMemory => RecordsError::OutOfMemory,
            e => RecordsError::Data(e),
        }
    }
}

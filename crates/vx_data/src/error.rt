// What reading and writing records refuse with.
use crate::expected::Expected;
use std::alloc::{AllocError, AllocFailed};
use std::fmt::{Display, Formatter, Write};
use std::{fmt, io};
use thiserror::Error;
use vx_value::{Field, FieldPath};

/// What reading records refuses with.
#[derive(Debug, Drop, Error)]
pub enum DataError {
    /// Memory ran out.
    #[error("out of memory")]
    OutOfMemory,
    /// The reader failed.
    #[error("{0}")]
    Read(io::Error),
    /// The record on that line, counted from 1, holds something else at that path than what is expected there.
    #[error("line {line}{path}: {expected}", path = PathText(.at))]
    Unexpected {
        line: u64,
        at: FieldPath,
        expected: Expected,
    },
}

/// What writing rows refuses with.
#[derive(Debug, Drop, Error)]
pub enum WriteError {
    /// Memory ran out.
    #[error("out of memory")]
    OutOfMemory,
    /// The writer failed.
    #[error("{0}")]
    Write(io::Error),
    /// The row of that index can't be written so that it is read back as it is.
    #[error("row {row}{path}: {expected}", path = PathText(.at))]
    Unwritable {
        row: usize,
        at: FieldPath,
        expected: Expected,
    },
}

/// A path behind a place: `, at a.b`, and nothing for the whole row.
#[derive(Clone, Copy)]
pub struct PathText<'a>(pub &'a FieldPath);

impl Display for PathText<'_> {
    fn fmt<W: Write>(&self, f: &mut Formatter<W>) -> fmt::Result {
        let mut before = ", at ";
        for part in self.0.parts() {
            f.write_str(before)?;
            let Field::Name(name) = part;
            f.write_str(name.as_str())?;
            before = ".";
        }
        Ok(())
    }
}

impl From<AllocError> for DataError {
    fn from(_e: AllocError) -> DataError {
        DataError::OutOfMemory
    }
}

impl<T: Drop> From<AllocFailed<T>> for DataError {
    fn from(_e: AllocFailed<T>) -> DataError {
        DataError::OutOfMemory
    }
}

impl From<io::Error> for DataError {
    fn from(e: io::Error) -> DataError {
        match e.kind() {
            io::ErrorKind::OutOfMemory => DataError::OutOfMemory,
            _ => DataError::Read(e),
        }
    }
}

impl From<AllocError> for WriteError {
    fn from(_e: AllocError) -> WriteError {
        WriteError::OutOfMemory
    }
}

impl<T: Drop> From<AllocFailed<T>> for WriteError {
    fn from(_e: AllocFailed<T>) -> WriteError {
        WriteError::OutOfMemory
    }
}

impl From<io::Error> for WriteError {
    fn from(e: io::Error) -> WriteError {
        match e.kind() {
            io::ErrorKind::OutOfMemory => WriteError::OutOfMemory,
            _ => WriteError::Write(e),
        }
    }
}

// What reading source text refuses with.
ghost use Rattle.std.specs.Prelude.{◌≡◌};
ghost use Rattle.vx_source_types.specs.declared.error.ParseError.TheVariants.{OutOfMemory};

use crate::expectation::Expected;
use std::alloc::{AllocError, AllocFailed};
use thiserror::Error;

/// What reading a text refuses with.
#[derive(Clone, Copy, Debug, PartialEq, Eq, Error)]
pub enum ParseError {
    /// Memory ran out.
    #[error("out of memory")]
    OutOfMemory,
    /// Reading stopped at that byte of the text, where something else should stand.
    #[error("at byte {at}: {expected}")]
    Unexpected { at: usize, expected: Expected },
}

impl From<AllocError> for ParseError {
    ghost from_gives = { λ _ e. e ≡ OutOfMemory };

    fn from(_e: AllocError) -> ParseError {
        ParseError::OutOfMemory
    }
}

impl<T: Drop> From<AllocFailed<T>> for ParseError {
    ghost from_gives = { λ _ e. e ≡ OutOfMemory };

    fn from(_e: AllocFailed<T>) -> ParseError {
        ParseError::OutOfMemory
    }
}

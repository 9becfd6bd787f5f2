// What stands in the way of a value, before it is known of which row.
ghost use Rattle.std.specs.Prelude.{◌≡◌};
ghost use Rattle.vx_data_buffers.specs.Rows.{in_row};
ghost use Rattle.vx_data_buffers.specs.declared.fault.Fault.TheVariants.{OutOfMemory};

use crate::BufferError;
use std::alloc::{AllocError, AllocFailed};

// What stands in the way of a value, with the index of the buffer that it is about.
#[derive(Clone, Copy, Debug)]
pub(crate) enum Fault {
    OutOfMemory,
    EndsEarly(usize),
    Unordered(usize),
    NotUtf8(usize),
}

impl Fault {
    // The refusal of that row.
    pub(crate) fn in_row(self, row: usize) -> BufferError
        ensures { result ≡ in_row row self }
    {
        match self {
            Fault::OutOfMemory => BufferError::OutOfMemory,
            Fault::EndsEarly(buffer) => BufferError::EndsEarly { buffer, row },
            Fault::Unordered(buffer) => BufferError::Unordered { buffer, row },
            Fault::NotUtf8(buffer) => BufferError::NotUtf8 { buffer, row },
        }
    }
}

impl From<AllocError> for Fault {
    ghost from_gives = { λ _ e. e ≡ OutOfMemory };

    fn from(_e: AllocError) -> Fault {
        Fault::OutOfMemory
    }
}

impl<T: Drop> From<AllocFailed<T>> for Fault {
    ghost from_gives = { λ _ e. e ≡ OutOfMemory };

    fn from(_e: AllocFailed<T>) -> Fault {
        Fault::OutOfMemory
    }
}

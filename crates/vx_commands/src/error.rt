// What stops a command that goes over records.
ghost use Rattle.std.specs.Prelude.{◌≡◌};
ghost use Rattle.vx_command_pages.specs.declared.error.CommandError.TheVariants.{OutOfMemory};
ghost use Rattle.vx_commands.specs.declared.error.RowsError.TheVariants.{Query};

use std::alloc::{AllocError, AllocFailed};
use std::io::ErrorKind;
use vx_command_pages::{CommandError, Span, Status};
use vx_data::{DataError, WriteError};
use vx_dtype::DType;
use vx_records::RecordsError;

/// Why a command doesn't go over all records.
#[derive(Debug, Drop)]
pub enum RowsError {
    /// The expression or the schema can't be read, the expression is refused, or memory ran out.
    Query(CommandError),
    /// The expression to filter by is of that type, and not of truth values.
    NotBool(DType),
    /// Going over the records stopped; of a fault, at the node that was read from those bytes of the
    /// expression.
    Records { error: RecordsError, span: Span },
}

impl RowsError {
    ghost use Rattle.vx_commands.specs.Rows.{status_of};

    /// How a command ends that stops with it.
    pub fn status(&self) -> Status
        ensures { result ≡ status_of self.now }
    {
        match self {
            RowsError::Query(error) => error.status(),
            RowsError::NotBool(_) => Status::Wrong,
            RowsError::Records { error, .. } => match error {
                RecordsError::Data(DataError::Unexpected { .. })
                | RecordsError::Fault(_)
                | RecordsError::Write(WriteError::Unwritable { .. }) => Status::Wrong,
                RecordsError::OutOfMemory
                | RecordsError::Data(DataError::OutOfMemory | DataError::Read(_))
                | RecordsError::Write(WriteError::OutOfMemory | WriteError::Write(_)) => {
                    Status::Failed
                }
            },
        }
    }
}

impl RowsError {
    /// Whether what is written to is a pipe that its reader has closed.
    pub fn is_closed_pipe(&self) -> bool {
        match self {
            RowsError::Records {
                error: RecordsError::Write(WriteError::Write(error)),
                ..
            } => error.kind() == ErrorKind::BrokenPipe,
            _ => false,
        }
    }
}

impl From<CommandError> for RowsError {
    ghost from_gives = { λ c r. r ≡ Query c };

    fn from(error: CommandError) -> RowsError {
        RowsError::Query(error)
    }
}

impl From<AllocError> for RowsError {
    ghost from_gives = { λ _ r. r ≡ Query OutOfMemory };

    fn from(_e: AllocError) -> RowsError {
        RowsError::Query(CommandError::OutOfMemory)
    }
}

impl<T: Drop> From<AllocFailed<T>> for RowsError {
    ghost from_gives = { λ _ r. r ≡ Query OutOfMemory };

    fn from(_e: AllocFailed<T>) -> RowsError {
        RowsError::Query(CommandError::OutOfMemory)
    }
}

//! One error for callers: each error of the calls of this crate becomes it by `?`.
ghost use Rattle.std.specs.Prelude.{◌≡◌};
ghost use Rattle.vx_expr.specs.Errors.{of_no_statement, of_over_error, of_parse_error, of_refusal, of_sql_error, of_unsupported};
ghost use Rattle.vx_expr.specs.declared.error.Error.TheVariants.{OutOfMemory};

use std::alloc::{AllocError, AllocFailed};
use vx_dtype::VortexError;
use vx_source::{OverError, ParseError};
use vx_sql::Unsupported;
use vx_sql_parser::SqlError;
use vx_sql_plan::NoStatement;

/// Why a call of this crate gave nothing.
#[derive(Debug, Drop, thiserror::Error)]
pub enum Error {
    /// Memory ran out.
    #[error("out of memory")]
    OutOfMemory,
    /// An expression, a type, a value or a batch was refused, or evaluating faulted.
    #[error("{0}")]
    Refused(VortexError),
    /// A text wasn't read.
    #[error("{0}")]
    Unread(ParseError),
    /// A text wasn't read over its scope.
    #[error("{0}")]
    UnreadOver(OverError),
    /// A text of SQL wasn't read.
    #[error("{0}")]
    UnreadSql(SqlError),
    /// A tree has no text in an engine's SQL.
    #[error("{0}")]
    NoSql(Unsupported),
    /// A plan has no statement in an engine's SQL.
    #[error("{0}")]
    NoStatement(NoStatement),
}

impl From<VortexError> for Error {
    ghost from_gives = { λ refusal e. e ≡ of_refusal refusal };

    fn from(refusal: VortexError) -> Error {
        match refusal {
            VortexError::OutOfMemory => Error::OutOfMemory,
            refusal => Error::Refused(refusal),
        }
    }
}

impl From<ParseError> for Error {
    ghost from_gives = { λ error e. e ≡ of_parse_error error };

    fn from(error: ParseError) -> Error {
        match error {
            ParseError::OutOfMemory => Error::OutOfMemory,
            error => Error::Unread(error),
        }
    }
}

impl From<OverError> for Error {
    ghost from_gives = { λ error e. e ≡ of_over_error error };

    fn from(error: OverError) -> Error {
        match error {
            OverError::OutOfMemory => Error::OutOfMemory,
            error => Error::UnreadOver(error),
        }
    }
}

impl From<SqlError> for Error {
    ghost from_gives = { λ error e. e ≡ of_sql_error error };

    fn from(error: SqlError) -> Error {
        match error {
            SqlError::OutOfMemory => Error::OutOfMemory,
            error => Error::UnreadSql(error),
        }
    }
}

impl From<Unsupported> for Error {
    ghost from_gives = { λ error e. e ≡ of_unsupported error };

    fn from(error: Unsupported) -> Error {
        match error {
            Unsupported::OutOfMemory => Error::OutOfMemory,
            error => Error::NoSql(error),
        }
    }
}

impl From<NoStatement> for Error {
    ghost from_gives = { λ error e. e ≡ of_no_statement error };

    fn from(error: NoStatement) -> Error {
        match error {
            NoStatement::OutOfMemory => Error::OutOfMemory,
            error => Error::NoStatement(error),
        }
    }
}

impl From<AllocError> for Error {
    ghost from_gives = { λ _ e. e ≡ OutOfMemory };

    fn from(_e: AllocError) -> Error {
        Error::OutOfMemory
    }
}

impl<T: Drop> From<AllocFailed<T>> for Error {
    ghost from_gives = { λ _ e. e ≡ OutOfMemory };

    fn from(_e: AllocFailed<T>) -> Error {
        Error::OutOfMemory
    }
}

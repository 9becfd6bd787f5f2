// What stops a command.
ghost use Rattle.std.specs.Prelude.{◌≡◌};
ghost use Rattle.vx_command_pages.specs.declared.error.CommandError.TheVariants.{OutOfMemory};

use crate::remedy::Remedy;
use crate::report::Span;
use std::alloc::{AllocError, AllocFailed};
use vx_source::Expected;
use vx_tree::{DType, Scalar, VortexError};

/// A literal that was written without a type, and is none of the type that it takes from what it stands beside.
#[derive(Debug, Drop)]
pub struct UnfitLiteral {
    /// Its bytes.
    pub span: Span,
    /// What was written, before it has a type: a number with a point is a decimal.
    pub scalar: Scalar,
    /// That type.
    pub dtype: DType,
    /// The field of that type that it stands beside, if it is known.
    pub beside: Option<FieldBeside>,
}

/// A field of the rows.
#[derive(Debug, Drop)]
pub struct FieldBeside {
    /// The bytes of the expression that name it.
    pub span: Span,
    /// Its type, which may be nullable.
    pub dtype: DType,
}

/// Why a command prints no page.
#[derive(Debug, Drop)]
pub enum CommandError {
    /// Memory ran out.
    OutOfMemory,
    /// Reading the expression stopped at that byte.
    UnreadExpression {
        at: usize,
        expected: Expected,
    },
    /// Reading the schema stopped at that byte.
    UnreadSchema {
        at: usize,
        expected: Expected,
    },
    /// A literal of the expression is none of the type that it takes from what it stands beside.
    Unfit(Box<UnfitLiteral>),
    /// The node that was read from those bytes of the expression has no type over the schema's. The
    /// remedy tells more of it than the refusal, where there is memory for it.
    Refused {
        span: Span,
        refusal: VortexError,
        remedy: Option<Remedy>,
    },
}

impl CommandError {
    ghost use Rattle.vx_command_pages.specs.Inputs.{status_of};

    /// How a command ends that stops with it.
    pub fn status(&self) -> Status
        ensures { result ≡ status_of self.now }
    {
        match self {
            CommandError::OutOfMemory => Status::Failed,
            CommandError::UnreadExpression { .. }
            | CommandError::UnreadSchema { .. }
            | CommandError::Unfit(_)
            | CommandError::Refused { .. } => Status::Wrong,
        }
    }
}

impl From<AllocError> for CommandError {
    ghost from_gives = { λ _ c. c ≡ OutOfMemory };

    fn from(_e: AllocError) -> CommandError {
        CommandError::OutOfMemory
    }
}

impl<T: Drop> From<AllocFailed<T>> for CommandError {
    ghost from_gives = { λ _ c. c ≡ OutOfMemory };

    fn from(_e: AllocFailed<T>) -> CommandError {
        CommandError::OutOfMemory
    }
}

/// How a command ended; the number is the program's exit status.
#[derive(Clone, Copy, Debug, PartialEq, Eq)]
pub enum Status {
    /// It printed its page.
    Done = 0,
    /// The program failed, for want of memory or of a writer.
    Failed = 1,
    /// What it was given is wrong.
    Wrong = 2,
}

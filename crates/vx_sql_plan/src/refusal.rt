// Why there is no statement.
ghost use Rattle.std.specs.Prelude.{◌≡◌};
ghost use Rattle.vx_sql_plan.specs.declared.refusal.NoStatement.TheVariants.{OutOfMemory};

use std::alloc::{AllocError, AllocFailed};
use thiserror::Error;
use vx_sql::Reason;
use vx_tree::{FieldName, VortexError};

/// Why a plan has no statement.
#[derive(Debug, Drop, Error)]
pub enum NoStatement {
    /// Memory ran out.
    #[error("out of memory")]
    OutOfMemory,
    /// The rows are no structs, so that no table has them.
    #[error("the rows are no structs, so that they have no columns")]
    NoColumns,
    /// The table's name can't be written.
    #[error("the table: {0}")]
    Table(Reason),
    /// That name can't be written as the one of a single column.
    #[error("the column {0}: {1}")]
    Column(FieldName, Reason),
}

impl From<AllocError> for NoStatement {
    ghost from_gives = { λ _ e. e ≡ OutOfMemory };

    fn from(_e: AllocError) -> NoStatement {
        NoStatement::OutOfMemory
    }
}

impl<T: Drop> From<AllocFailed<T>> for NoStatement {
    ghost from_gives = { λ _ e. e ≡ OutOfMemory };

    fn from(_e: AllocFailed<T>) -> NoStatement {
        NoStatement::OutOfMemory
    }
}

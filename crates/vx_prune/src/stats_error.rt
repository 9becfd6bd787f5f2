// Why a record isn't taken as statistics.
ghost use Rattle.std.specs.Prelude.{◌≡◌};
ghost use Rattle.vx_prune.specs.declared.stats_error.StatsError.TheVariants.{OutOfMemory};

use std::alloc::{AllocError, AllocFailed};
use vx_dtype::FieldName;

/// Why a record isn't taken as statistics of a chunk.
#[derive(Debug, Drop)]
pub enum StatsError {
    /// Memory ran out.
    OutOfMemory,
    /// The record isn't of the type of the records.
    Misfit,
    /// More nulls than rows are said of the place that is called so.
    MoreNullsThanRows(FieldName),
    /// A least value is said of the place that is called so, and a greatest one that comes before it.
    LeastAboveGreatest(FieldName),
}

impl From<AllocError> for StatsError {
    ghost from_gives = { λ _ e. e ≡ OutOfMemory };

    fn from(_e: AllocError) -> StatsError {
        StatsError::OutOfMemory
    }
}

impl<T: Drop> From<AllocFailed<T>> for StatsError {
    ghost from_gives = { λ _ e. e ≡ OutOfMemory };

    fn from(_e: AllocFailed<T>) -> StatsError {
        StatsError::OutOfMemory
    }
}

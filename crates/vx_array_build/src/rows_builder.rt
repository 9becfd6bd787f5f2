// Rows of one kind, to which those of lanes are added.
ghost use Rattle.std.specs.Prelude.{◌≡◌, ◌++◌, [], IfOk, IfSome, List};
ghost use Rattle.vx_value.specs.Types.{Datum};
ghost use Rattle.vx_array.specs.Rows.{lanes_rows};

use std::alloc::{AllocError, Global};
use vx_array::Lanes;

/// Rows of one kind in buffers of their own, to which those of lanes are added.
pub trait RowsBuilder: Drop {
    /// The rows.
    ghost rows: { Self → List Datum };

    /// No row yet, and room for so many.
    fn with_capacity(alloc: Global, count: usize) -> Result<Self, AllocError>
        ensures { IfOk result (λ b. rows b ≡ []) };

    /// The same rows and behind them those of the lanes, if these are in a buffer of this kind.
    fn push(self, alloc: Global, lanes: &Lanes) -> Result<Option<Self>, AllocError>
        ensures { IfOk result (λ found. IfSome found (λ b. rows b ≡ rows self ++ lanes_rows lanes.now)) };

    /// The rows as lanes.
    fn finish(self, alloc: Global) -> Result<Lanes, AllocError>
        ensures { IfOk result (λ lanes. lanes_rows lanes ≡ rows self) };
}

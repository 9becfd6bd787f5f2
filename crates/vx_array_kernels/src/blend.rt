// Rows that those of other columns are written over.
ghost use Rattle.std.specs.Prelude.{◌≡◌, IfOk, IfSome, List, length, true};
ghost use Rattle.vx_value.specs.Types.{Datum};
ghost use Rattle.vx_array.specs.Rows.{lanes_rows};
ghost use Rattle.vx_array_kernels.specs.Choices.{blended};
ghost use Rattle.vx_array_kernels.specs.Found.{Finds};

use std::alloc::{AllocError, Global};
use vx_array::Lanes;
use vx_array_loops::Bits;

/// Rows of one kind, in buffers of their own.
pub trait Blend: Drop {
    /// The rows.
    ghost rows: { Self → List Datum };

    /// A copy of so many rows, if they are one value in all rows or in a buffer of this kind.
    fn of(alloc: Global, count: usize, lanes: &Lanes) -> Result<Option<Self>, AllocError>
        requires { length (lanes_rows lanes.now) ≡ count }
        ensures { IfOk result (λ found. IfSome found (λ b. rows b ≡ lanes_rows lanes.now)) };

    /// Writes other rows where the mask is true, and tells whether it could: where they are one value in all
    /// rows or in a buffer of this kind. Asks as many rows of all three.
    fn put(&mut self, alloc: Global, mask: &Bits, lanes: &Lanes) -> Result<bool, AllocError>
        requires mask { length mask.now ≡ length (rows self.old) }
        requires lanes { length (lanes_rows lanes.now) ≡ length (rows self.old) }
        ensures { IfOk result (λ done. done ≡ true → rows self.new ≡ blended mask.now (lanes_rows lanes.now) (rows self.old)) };

    /// The rows as lanes, if they can be told.
    fn into_lanes(self, alloc: Global) -> Result<Option<Lanes>, AllocError>
        ensures { Finds (rows self) result };
}

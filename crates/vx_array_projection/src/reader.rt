// Readers of arrays that let some paths be read.
ghost use Rattle.std.specs.Prelude.{◌≡◌, Ok};
ghost use Rattle.vx_value.specs.Returns.{ReturnsOrOom};
ghost use Rattle.vx_value.specs.Paths.{minimal_paths};
ghost use Rattle.vx_value.specs.Views.{type_of};

use crate::read::read_referenced_array;
use std::alloc::Global;
use vx_array::Array;
use vx_dtype::{DType, VortexResult};
use vx_value::FieldPathSet;

/// What rows in typed buffers are read through: only what lies along the paths that are asked for, and only
/// along paths that the reader allows.
pub trait ArrayReader {
    ghost use Rattle.std.specs.Prelude.{List};
    ghost use Rattle.vx_value.specs.Columns.{Batch};
    ghost use Rattle.vx_value.specs.Fits.{IsBatch};
    ghost use Rattle.vx_value.specs.Paths.{Path};
    ghost use Rattle.vx_projection.specs.Kept.{kept_batch};
    ghost use Rattle.vx_projection.specs.Readers.{AreAmong};

    /// The batch that it stands for.
    ghost batch: { Self → Batch };

    /// The paths that it allows.
    ghost allowed: { Self → List Path };

    /// The type of the batch.
    fn dtype(&self) -> &DType
        ensures dtype { type_of result.now ≡ (batch self.now).type }
        ensures rows { IsBatch (batch self.now).type (batch self.now).rows };

    /// The batch with what lies along the paths of [`FieldPathSet::iter`] alone, and defaults in place
    /// of the rest, as [`read_referenced_array`] gives it. Asks allowed paths. Refuses with `OutOfMemory` (1)
    /// alone.
    fn read(&self, alloc: Global, paths: &FieldPathSet) -> VortexResult<Array>
        requires { AreAmong (minimal_paths paths.now) (allowed self.now) }
        ensures { ReturnsOrOom (λ a. a) result (Ok (kept_batch (minimal_paths paths.now) (batch self.now))) };
}

/// A reader of an array in memory, which allows the paths of a set. Both are lent to it.
#[derive(Clone, Copy)]
pub struct ArrayPlanReader<'a> {
    batch: &'a Array,
    allowed: &'a FieldPathSet,
}

impl<'a> ArrayPlanReader<'a> {
    /// The reader of that array that allows the paths of [`FieldPathSet::iter`], such as those of a plan. Along
    /// a path that leads nowhere in the array's type nothing is kept. Takes no memory.
    pub fn new(batch: &'a Array, allowed: &'a FieldPathSet) -> ArrayPlanReader<'a>
        ensures batch { result.batch.now ≡ batch.now }
        ensures allowed { result.allowed.now ≡ allowed.now }
    {
        ArrayPlanReader { batch, allowed }
    }
}

impl ArrayReader for ArrayPlanReader<'_> {
    ghost batch = { λ r. r.batch.now };

    ghost allowed = { λ r. minimal_paths r.allowed.now };

    fn dtype(&self) -> &DType {
        // (what it promises is that the rows fit)
        let _lanes = self.batch.lanes();
        self.batch.dtype()
    }

    fn read(&self, alloc: Global, paths: &FieldPathSet) -> VortexResult<Array> {
        read_referenced_array(alloc, self.batch, paths)
    }
}

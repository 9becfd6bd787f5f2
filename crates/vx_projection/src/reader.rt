// Readers of a batch that let some paths of it be read.
ghost use Rattle.std.specs.Prelude.{◌≡◌, IfOk, Ok};
ghost use Rattle.vx_projection.specs.Lost.{first_lost, unless_lost};
ghost use Rattle.vx_rewrite_paths.specs.Leading.{EachLeads};
ghost use Rattle.vx_value.specs.Returns.{ReturnsOrOom};
ghost use Rattle.vx_value.specs.Paths.{minimal_paths};
ghost use Rattle.vx_value.specs.Views.{type_of};

use crate::lost::check_paths;
use crate::read::read_referenced;
use std::alloc::Global;
use vx_dtype::{DType, VortexResult};
use vx_value::{Column, FieldPathSet};

/// What a batch is read through: only what lies along the paths that are asked for, and only along
/// paths that the reader allows.
pub trait PathReader {
    ghost use Rattle.std.specs.Prelude.{List};
    ghost use Rattle.vx_value.specs.Columns.{Batch};
    ghost use Rattle.vx_value.specs.Fits.{IsBatch};
    ghost use Rattle.vx_value.specs.Paths.{Path};
    ghost use Rattle.vx_projection.specs.Kept.{kept_batch};
    ghost use Rattle.vx_projection.specs.Readers.{AreAmong};

    /// The batch that it stands for.
    ghost batch: { Self → Batch };

    /// The paths that it allows.
    ghost allowed: { Self → List Path };

    /// The type of the batch.
    fn dtype(&self) -> &DType
        ensures dtype { type_of result.now ≡ (batch self.now).type }
        ensures rows { IsBatch (batch self.now).type (batch self.now).rows };

    /// The batch with what lies along the paths of [`FieldPathSet::iter`] alone, and defaults in place
    /// of the rest, as [`read_referenced`] gives it. Asks allowed paths. Refuses with `OutOfMemory` (1)
    /// alone.
    fn read(&self, alloc: Global, paths: &FieldPathSet) -> VortexResult<Column>
        requires { AreAmong (minimal_paths paths.now) (allowed self.now) }
        ensures { ReturnsOrOom (λ c. c) result (Ok (kept_batch (minimal_paths paths.now) (batch self.now))) };
}

/// A reader of a column, which allows the paths of a set that is lent to it.
#[derive(Drop)]
pub struct ColumnReader<'p> {
    column: Column,
    allowed: &'p FieldPathSet,
}

impl<'p> ColumnReader<'p> {
    /// The reader of that column that allows the paths of [`FieldPathSet::iter`]. Along a path that
    /// leads nowhere in the column's type nothing is kept: [`ColumnReader::try_new`] refuses it.
    pub fn new(column: Column, allowed: &'p FieldPathSet) -> ColumnReader<'p>
        ensures column { result.column ≡ column }
        ensures allowed { result.allowed.now ≡ allowed.now }
    {
        ColumnReader { column, allowed }
    }

    /// The same, where each path leads to a place in the column's type.
    ///
    /// Refuses the first path that doesn't: with `NoSuchField` (5) and the name where there is no
    /// field of it, and with `NotAStruct` (4) where it goes on in another type than a struct; and with
    /// `OutOfMemory` (1).
    pub fn try_new(column: Column, allowed: &'p FieldPathSet) -> VortexResult<ColumnReader<'p>>
        ensures column { ReturnsOrOom (λ r. r.column) result (unless_lost (first_lost (minimal_paths allowed.now) column.type) column) }
        ensures allowed { IfOk result (λ r. r.allowed.now ≡ allowed.now) }
        ensures lead { IfOk result (λ r. EachLeads (minimal_paths r.allowed.now) r.column.type) }
    {
        check_paths(column.dtype(), allowed)?;
        Ok(ColumnReader::new(column, allowed))
    }
}

impl PathReader for ColumnReader<'_> {
    ghost batch = { λ r. r.column };

    ghost allowed = { λ r. minimal_paths r.allowed.now };

    fn dtype(&self) -> &DType {
        // (what it promises is that the rows fit)
        let _rows = self.column.rows();
        self.column.dtype()
    }

    fn read(&self, alloc: Global, paths: &FieldPathSet) -> VortexResult<Column> {
        read_referenced(alloc, &self.column, paths)
    }
}

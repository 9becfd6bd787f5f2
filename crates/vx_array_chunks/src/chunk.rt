// What a chunk of rows is: what statistics say of it, and a reader of it.
ghost use Rattle.std.specs.Prelude.{◌≡◌};
ghost use Rattle.vx_projection.specs.Readers.{AreJust};
ghost use Rattle.vx_value.specs.Paths.{minimal_paths};

use vx_array::Array;
use vx_array_projection::{ArrayPlanReader, ArrayReader};
use vx_prune_tree::ChunkStats;
use vx_value::FieldPathSet;

/// Some of the rows of a table, such as a file of it.
pub trait Chunk<'a> {
    ghost use Rattle.vx_value.specs.Columns.{Batch};
    ghost use Rattle.vx_prune_tree.specs.Stats.{Facts};

    /// The rows that it has.
    ghost batch: { Self → Batch };

    /// What is known of them without reading.
    ghost known: { Self → Facts };

    /// What its rows are read through.
    type Reader: ArrayReader + Drop;

    /// What is known of its rows without reading.
    fn stats(&self) -> &ChunkStats
        ensures { result.now ≡ known self.now };

    /// A reader of its rows that allows the paths of [`FieldPathSet::iter`]. Reads nothing yet.
    fn reader(&self, paths: &'a FieldPathSet) -> Self::Reader
        ensures batch { Self.Reader.batch result ≡ batch self.now }
        ensures allowed { AreJust (Self.Reader.allowed result) (minimal_paths paths.now) };
}

/// A chunk whose rows are in memory.
#[derive(Drop)]
pub struct ArrayChunk<'a> {
    batch: &'a Array,
    stats: ChunkStats,
}

impl<'a> ArrayChunk<'a> {
    /// The chunk of that array, of which the statistics are known.
    pub fn new(batch: &'a Array, stats: ChunkStats) -> ArrayChunk<'a>
        ensures batch { result.batch.now ≡ batch.now }
        ensures stats { result.stats ≡ stats }
    {
        ArrayChunk { batch, stats }
    }
}

impl<'a> Chunk<'a> for ArrayChunk<'a> {
    ghost batch = { λ c. c.batch.now };

    ghost known = { λ c. c.stats };

    type Reader = ArrayPlanReader<'a>;

    fn stats(&self) -> &ChunkStats {
        &self.stats
    }

    fn reader(&self, paths: &'a FieldPathSet) -> ArrayPlanReader<'a> {
        ArrayPlanReader::new(self.batch, paths)
    }
}

// The rows of chunks at which a plan's source is true.
ghost use Rattle.std.specs.Prelude.{◌≡◌};
ghost use Rattle.vx_tree.specs.Views.{bound_of};
ghost use Rattle.vx_value.specs.Views.{type_of};
ghost use Rattle.vx_prune.specs.Selected.{Selected};
ghost use Rattle.vx_array_chunks.specs.Chunks.{GivesChunk};

use crate::chunk::Chunk;
use std::alloc::Global;
use vx_array_loops::Bits;
use vx_array_scan::select_rows_array;
use vx_dtype::VortexResult;
use vx_scan::ScanPlan;

/// The rows of the chunk at which the plan's source is true, null taken as false, as [`select_rows_array`] gives and
/// refuses them: nothing is read where what is known of the chunk makes the verdict sure.
pub fn scan_chunk<'a, C: Chunk<'a>>(
    alloc: Global,
    chunk: &C,
    plan: &'a ScanPlan,
) -> VortexResult<Bits>
    ensures { Selected (type_of plan.now.scope) (bound_of plan.now.tree) (C.known chunk.now) (C.batch chunk.now) result }
{
    let reader = chunk.reader(plan.paths());
    select_rows_array(alloc, &reader, plan, chunk.stats())
}

/// The rows of each chunk of an iterator at which a plan's source is true.
#[derive(Drop)]
pub struct ScannedChunks<'a, I> {
    alloc: Global,
    plan: &'a ScanPlan,
    chunks: I,
}

/// The rows of each chunk at which the plan's source is true, as [`scan_chunk`] gives them, one chunk after the other. A
/// chunk is asked for when its rows are, so that as many threads as there are iterators go over the chunks of a table.
pub fn scan_chunks<'a, I>(alloc: Global, plan: &'a ScanPlan, chunks: I) -> ScannedChunks<'a, I>
    ensures plan { result.plan.now ≡ plan.now }
    ensures chunks { result.chunks ≡ chunks }
{
    ScannedChunks {
        alloc,
        plan,
        chunks,
    }
}

impl<'a, C: Chunk<'a> + Drop, I: Iterator<Item = C> + Drop> Iterator for ScannedChunks<'a, I> {
    type Item = VortexResult<Bits>;

    ghost can_next = { λ s. I.can_next s.chunks };

    ghost next_gives = { λ s r t. GivesChunk I.next_gives C.known C.batch s.plan.now s.chunks r t.chunks };

    ghost remaining = { λ s. I.remaining s.chunks };

    fn next(&mut self) -> Option<VortexResult<Bits>> {
        let chunk = self.chunks.next()?;
        Some(scan_chunk(self.alloc, &chunk, self.plan))
    }
}

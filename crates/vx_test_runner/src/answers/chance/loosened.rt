// Statistics of a batch of which some are left out, or say less, by chance.
use crate::answers::pruned::read_off;
use std::alloc::Global;
use vx_prune::{ChunkStats, FieldStats};
use vx_test_support::Seeds;
use vx_tree::{Column, Value, VortexResult};

const PATHS: &str = "a.x a.y b m s f g p d t";

/// What is read off the batch, loosened by chance: of four paths about one is left out, and of the
/// others about one of four statistics, or its end lies further out.
pub fn loosened(alloc: Global, batch: &Column, seeds: &mut Seeds) -> VortexResult<ChunkStats> {
    let read = read_off(alloc, batch, PATHS)?;
    let mut stats = ChunkStats::new(alloc, read.rows());
    for (path, known) in read.entries() {
        if seeds.below(4) > 0 {
            stats.insert(path.clone()?, loosened_field(known, seeds)?)?;
        }
    }
    Ok(stats)
}

fn loosened_field(known: &FieldStats, seeds: &mut Seeds) -> VortexResult<FieldStats> {
    let mut stats = FieldStats::unknown();
    if seeds.below(4) > 0 {
        stats.null_count = known.null_count;
    }
    stats.least = loosened_end(&known.least, seeds, -1)?;
    stats.greatest = loosened_end(&known.greatest, seeds, 1)?;
    Ok(stats)
}

// A number may be moved outwards; another end stays, or is left out.
fn loosened_end(
    end: &Option<Value>,
    seeds: &mut Seeds,
    outwards: i128,
) -> VortexResult<Option<Value>> {
    let moved = seeds.below(4) as i128;
    Ok(match end {
        _ if moved == 3 => None,
        Some(Value::Int(number)) => Some(Value::Int(number.saturating_add(outwards.saturating_mul(
            moved,
        )))),
        Some(value) => Some(value.clone()?),
        None => None,
    })
}

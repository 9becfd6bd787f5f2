// Verdicts alone, of a conjunction over several fields of a chunk.
ghost use Rattle.std.specs.Prelude.{◌≡◌, ◌≢◌, ◌<◌};
ghost use Rattle.vx_tree.specs.Trees.{WellTyped};
ghost use Rattle.vx_tree.specs.Views.{bound_of};

use crate::fields::{numbered, numbered_names, numbers};
use crate::trees::Trees;
use crate::{Status, refused};
use std::alloc::Global;
use vx_dtype::{DType, Nullability, VortexResult};
use vx_prune::{ChunkStats, FieldStats, Verdict, verdict};
use vx_tree::{BoundExpression, Expression, Operator};
use vx_value::{FieldPath, Value};

/// How many comparisons the conjunction joins, each of a field of its own.
const CONJUNCTS: usize = 10;

// Of how many of so many verdicts nothing is known.
fn unknown_of(alloc: Global, repeats: u32) -> VortexResult<u64> {
    let scope = scope(alloc)?;
    let source = conjunction(alloc)?;
    let tree = source.bind(alloc, &scope)?;
    let stats = stats(alloc)?;
    Ok(unknown(&tree, &stats, repeats))
}

// The same of a tree in a chunk of these statistics: none where it isn't of type bool.
fn unknown(tree: &BoundExpression, stats: &ChunkStats, repeats: u32) -> u64
    requires { WellTyped (bound_of tree.now) }
{
    let DType::Bool(_) = tree.dtype() else {
        return 0;
    };
    let mut unknown: u64 = 0;
    for _ in 0..repeats {
        if let Verdict::Unknown = verdict(tree, stats) {
            unknown = unknown.wrapping_add(1);
        }
    }
    unknown
}

// A number for each comparison.
fn scope(alloc: Global) -> VortexResult<DType> {
    let names = numbered_names(alloc, CONJUNCTS)?;
    let fields = numbers(alloc, names, Nullability::NonNullable)?;
    Ok(DType::Struct(fields, Nullability::NonNullable))
}

// Of each field that it goes from 0 to 1,000 and is never null.
fn stats(alloc: Global) -> VortexResult<ChunkStats> {
    let mut stats = ChunkStats::new(alloc, 10_000);
    for i in 0..CONJUNCTS {
        let path = FieldPath::from_name(alloc, numbered(alloc, i)?)?;
        let known = FieldStats {
            null_count: Some(0),
            least: Some(Value::Int(0)),
            greatest: Some(Value::Int(1_000)),
        };
        stats.insert(path, known)?;
    }
    Ok(stats)
}

// `f0 >= 500` joined by And with the same of the other fields, which the statistics leave open.
fn conjunction(alloc: Global) -> VortexResult<Expression> {
    let mut trees = Trees::new(alloc);
    for i in 0..CONJUNCTS {
        trees.field(alloc, numbered(alloc, i)?)?;
        trees.with_number(alloc, Operator::Gte, 500)?;
    }
    trees.join(alloc)?;
    trees.last()
}

/// Gives so many verdicts of a conjunction of ten comparisons, each of a field of its own, in a chunk
/// with statistics of each, and writes of how many nothing was known, which is all. Answers the number
/// of a [`Status`]; where that isn't 0, `unknown` stays.
#[unsafe(no_mangle)]
pub extern "C" fn vx_verdicts(alloc: Global, repeats: u32, unknown: &mut u64) -> u8
    ensures status { result < 4 }
    ensures kept { result ≢ 0 → unknown.new ≡ unknown.old }
{
    match unknown_of(alloc, repeats) {
        Ok(count) => {
            *unknown = count;
            Status::Answered as u8
        }
        Err(refusal) => refused(refusal),
    }
}

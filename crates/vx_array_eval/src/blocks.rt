// Trees over a whole array, a block of its rows after another where no node looks across rows.
ghost use Rattle.std.specs.Prelude.{◌≡◌, ◌<◌, false, length, IfOk, IfSome, Ok};
ghost use Rattle.vx_dtype.specs.Returns.{ReturnsOrOom};
ghost use Rattle.vx_tree.specs.Trees.{WellTyped};
ghost use Rattle.vx_tree.specs.Views.{bound_of};
ghost use Rattle.vx_array.specs.Rows.{lanes_rows};
ghost use Rattle.vx_eval.specs.Across.{looks_across};
ghost use Rattle.vx_eval.specs.Evaluation.{tree_answer};

use crate::trees::evaluate;
use crate::walks::walks_twice;
use std::alloc::Global;
use vx_array::Lanes;
use vx_array_build::{NumbersBuilder, RowsBuilder, TruthsBuilder, lane_type};
use vx_dtype::{DType, PType, VortexError, VortexResult};
use vx_eval::looks_across;
use vx_tree::BoundExpression;

// How many rows go through the whole tree before the next ones: so few that what the nodes make of
// them stays in the processor's cache, and as many as fill whole words of bits.
const BLOCK: usize = 32_768;

// How many rows a batch has at least that goes by blocks. What is made of fewer stays in the cache anyhow.
const ROWS: usize = 16 * BLOCK;

/// The tree's value in each row of a batch, or the first fault. Refuses with `OutOfMemory` (1) too.
///
/// Of several blocks one may fault in a node, and a later one in a node whose fault comes first: so
/// where a block faults all rows are asked together, as they are where its rows are of another kind.
pub fn evaluate_over(alloc: Global, b: &BoundExpression, batch: &Lanes) -> VortexResult<Lanes>
    requires { WellTyped (bound_of b.now) }
    ensures { ReturnsOrOom lanes_rows result (tree_answer (bound_of b.now) (lanes_rows batch.now)) }
{
    if batch.len() < ROWS || !walks_twice(b) || looks_across(b) {
        return evaluate(alloc, b, batch);
    }
    match by_type(alloc, b, batch) {
        Ok(Some(lanes)) => Ok(lanes),
        Err(VortexError::OutOfMemory) => Err(VortexError::OutOfMemory),
        Ok(None) | Err(_) => evaluate(alloc, b, batch),
    }
}

// The tree's value in each row by blocks, where no block faults and its rows are in a buffer of the
// type's kind: truth values, or numbers of the type's width, as those of days and instants.
fn by_type(alloc: Global, b: &BoundExpression, batch: &Lanes) -> VortexResult<Option<Lanes>>
    requires typed { WellTyped (bound_of b.now) }
    requires some { 0 < length (lanes_rows batch.now) }
    requires apart { looks_across (bound_of b.now) ≡ false }
    ensures { IfOk result (λ found. IfSome found (λ lanes. tree_answer (bound_of b.now) (lanes_rows batch.now) ≡ Ok (lanes_rows lanes))) }
{
    match b.dtype() {
        DType::Bool(_) => by_blocks::<TruthsBuilder>(alloc, b, batch),
        _ => match lane_type(b.dtype()) {
            Some(PType::U8) => by_blocks::<NumbersBuilder<u8>>(alloc, b, batch),
            Some(PType::U16) => by_blocks::<NumbersBuilder<u16>>(alloc, b, batch),
            Some(PType::U32) => by_blocks::<NumbersBuilder<u32>>(alloc, b, batch),
            Some(PType::U64) => by_blocks::<NumbersBuilder<u64>>(alloc, b, batch),
            Some(PType::I8) => by_blocks::<NumbersBuilder<i8>>(alloc, b, batch),
            Some(PType::I16) => by_blocks::<NumbersBuilder<i16>>(alloc, b, batch),
            Some(PType::I32) => by_blocks::<NumbersBuilder<i32>>(alloc, b, batch),
            Some(PType::I64) => by_blocks::<NumbersBuilder<i64>>(alloc, b, batch),
            None => Ok(None),
        },
    }
}

// The same in rows of one kind, for which memory is asked once; each block is let go before the next.
// Asks for rows, since a node may fault over none.
fn by_blocks<B: RowsBuilder>(
    alloc: Global,
    b: &BoundExpression,
    batch: &Lanes,
) -> VortexResult<Option<Lanes>>
    requires typed { WellTyped (bound_of b.now) }
    requires some { 0 < length (lanes_rows batch.now) }
    requires apart { looks_across (bound_of b.now) ≡ false }
    ensures { IfOk result (λ found. IfSome found (λ lanes. tree_answer (bound_of b.now) (lanes_rows batch.now) ≡ Ok (lanes_rows lanes))) }
{
    let count = batch.len();
    let mut rows = B::with_capacity(alloc, count)?;
    let mut from = 0;
    while from < count {
        let len = BLOCK.min(count - from);
        let block = evaluate(alloc, b, &batch.slice(from, len)?)?;
        let Some(more) = rows.push(alloc, &block)? else {
            return Ok(None);
        };
        rows = more;
        from += len;
    }
    Ok(Some(rows.finish(alloc)?))
}

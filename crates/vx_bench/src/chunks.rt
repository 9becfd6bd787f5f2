// Chunks of numbers that a range is looked for in, read only where their statistics leave it open.
ghost use Rattle.std.specs.Prelude.{◌≡◌, ◌≢◌, ◌<◌};

use crate::texts::parsed;
use crate::{Status, refused};
use std::alloc::Global;
use vx_dtype::{DType, Nullability, PType, VortexResult};
use vx_eval_masks::RowMask;
use vx_projection::ColumnReader;
use vx_prune::{ChunkStats, Verdict, select_rows, verdict};
use vx_scan::{ScanPlan, plan};
use vx_value::{Column, FieldPath, FieldPathSet, Value};

/// What a range of numbers found.
#[repr(C)]
#[derive(Clone, Copy, Debug, Default, PartialEq, Eq)]
pub struct Found {
    /// How many rows are in the range.
    pub rows: u64,
    /// How many chunks the statistics leave open, which are read for it.
    pub read: u64,
}

/// How the numbers stand in the chunks.
#[derive(Clone, Copy, Debug, PartialEq, Eq)]
enum Order {
    /// 0: each behind the one before.
    Sorted,
    /// 1: scattered over all chunks.
    Scattered,
}

/// What is known of a chunk.
#[derive(Clone, Copy, Debug, PartialEq, Eq)]
enum Known {
    /// 0: how many rows it has.
    Length,
    /// 1: also its least and its greatest number.
    Bounds,
}

/// How many chunks of how many rows the numbers from 0 on stand in, each number in one row.
#[derive(Clone, Copy, Debug)]
struct Layout {
    chunks: usize,
    rows: usize,
    order: Order,
    known: Known,
}

/// A chunk of numbers, and what is known of it.
#[derive(Debug, Drop)]
struct Chunk {
    rows: Column,
    stats: ChunkStats,
}

/// The range that is looked for: of sorted chunks of 10,000 rows the second half of one, two that it
/// covers, and the first half of another.
const RANGE: &str = "$ >= 495000i64 and $ < 525000i64";

impl Order {
    fn of(number: u8) -> Option<Order> {
        match number {
            0 => Some(Order::Sorted),
            1 => Some(Order::Scattered),
            _ => None,
        }
    }

    // The number in the row at that place, of so many rows.
    fn number(self, place: u64, all: u64) -> Value {
        let number = match self {
            Order::Sorted => place,
            Order::Scattered => place.wrapping_mul(2_654_435_761) % all.max(1),
        };
        Value::Int(i128::from(number))
    }
}

impl Known {
    fn of(number: u8) -> Option<Known> {
        match number {
            0 => Some(Known::Length),
            1 => Some(Known::Bounds),
            _ => None,
        }
    }

    fn stats(self, alloc: Global, rows: &Column) -> VortexResult<ChunkStats> {
        match self {
            Known::Length => Ok(ChunkStats::new(alloc, rows.len())),
            Known::Bounds => ChunkStats::of(alloc, rows, &root_alone(alloc)?),
        }
    }
}

impl Layout {
    fn all(self, alloc: Global, dtype: &DType) -> VortexResult<Vec<Chunk>> {
        let mut chunks = Vec::with_capacity(alloc, self.chunks)?;
        for chunk in 0..self.chunks {
            chunks.push(self.chunk(alloc, chunk, dtype)?)?;
        }
        Ok(chunks)
    }

    fn chunk(self, alloc: Global, chunk: usize, dtype: &DType) -> VortexResult<Chunk> {
        let first = (chunk as u64).wrapping_mul(self.rows as u64);
        let all = (self.chunks as u64).wrapping_mul(self.rows as u64);
        let mut values = Vec::with_capacity(alloc, self.rows)?;
        for row in 0..self.rows {
            values.push(self.order.number(first.wrapping_add(row as u64), all))?;
        }
        let rows = Column::try_new(dtype.clone()?, values)?.into_shared(alloc)?;
        let stats = self.known.stats(alloc, &rows)?;
        Ok(Chunk { rows, stats })
    }
}

// The path of the scope itself, alone.
fn root_alone(alloc: Global) -> VortexResult<FieldPathSet> {
    let mut paths = FieldPathSet::new(alloc);
    paths.extend(vec![in alloc; FieldPath::root(alloc)?]?)?;
    Ok(paths)
}

// What the range finds in the chunks, after so many searches.
fn search(alloc: Global, layout: Layout, repeats: u32) -> VortexResult<Found> {
    let dtype = DType::Primitive(PType::I64, Nullability::NonNullable);
    let chunks = layout.all(alloc, &dtype)?;
    let source = parsed(alloc, RANGE)?;
    let plan = plan(alloc, &source, &dtype)?;
    let mut rows = 0;
    for _ in 0..repeats {
        rows = rows_in_all(alloc, &plan, chunks.as_slice())?;
    }
    let read = read_of(&plan, chunks.as_slice());
    Ok(Found { rows, read })
}

// How many rows of the chunks are in the plan's range.
fn rows_in_all(alloc: Global, plan: &ScanPlan, chunks: &[Chunk]) -> VortexResult<u64> {
    let mut rows: u64 = 0;
    for chunk in chunks {
        rows = rows.wrapping_add(rows_in(alloc, plan, chunk)?);
    }
    Ok(rows)
}

fn rows_in(alloc: Global, plan: &ScanPlan, chunk: &Chunk) -> VortexResult<u64> {
    let reader = plan.reader_of(chunk.rows.clone()?);
    let rows = selected(alloc, &reader, plan, &chunk.stats)?;
    Ok(rows.count() as u64)
}

fn selected(
    alloc: Global,
    reader: &ColumnReader<'_>,
    plan: &ScanPlan,
    stats: &ChunkStats,
) -> VortexResult<RowMask>
    requires { reader.now.allowed.now ≡ plan.now.paths }
{
    select_rows(alloc, reader, plan, stats)
}

// How many chunks the statistics leave open.
fn read_of(plan: &ScanPlan, chunks: &[Chunk]) -> u64 {
    let mut read: u64 = 0;
    for chunk in chunks {
        if is_open(plan, &chunk.stats) {
            read = read.wrapping_add(1);
        }
    }
    read
}

fn is_open(plan: &ScanPlan, stats: &ChunkStats) -> bool {
    let tree = plan.tree();
    let DType::Bool(_) = tree.dtype() else {
        return true;
    };
    matches!(verdict(tree, stats), Verdict::Unknown)
}

/// Makes so many chunks of so many rows with the numbers from 0 on, in the order with that number,
/// with what is known of each by that number, and asks so often which rows of each are in a range;
/// with no repeat nothing is asked, and no row found. Writes what was found at last. Answers the number
/// of a [`Status`]; where that isn't 0, `last` stays.
#[unsafe(no_mangle)]
pub extern "C" fn vx_found(
    alloc: Global,
    chunks: usize,
    rows: usize,
    order: u8,
    known: u8,
    repeats: u32,
    last: &mut Found,
) -> u8
    ensures status { result < 4 }
    ensures kept { result ≢ 0 → last.new ≡ last.old }
{
    let (Some(order), Some(known)) = (Order::of(order), Known::of(known)) else {
        return Status::NoSuchNumber as u8;
    };
    let layout = Layout {
        chunks,
        rows,
        order,
        known,
    };
    match search(alloc, layout, repeats) {
        Ok(found) => {
            *last = found;
            Status::Answered as u8
        }
        Err(refusal) => refused(refusal),
    }
}

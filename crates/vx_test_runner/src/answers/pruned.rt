// Statistics of chunks, and what they tell of trees.
ghost use Rattle.vx_tree.specs.Trees.{WellTyped};
ghost use Rattle.vx_tree.specs.Views.{bound_of};

use crate::answers::arrays::selections_agree;
use crate::answers::paths::{path, paths_of, push_path};
use crate::answers::scans::{reader, set_of};
use crate::scene::Scene;
use crate::told::push_rows;
use std::alloc::{AllocError, Global};
use std::fmt;
use vx_eval_masks::RowMask;
use vx_prune::{ChunkStats, Endpoint, FieldStats, Verdict, bounds, select_rows, verdict};
use vx_scan::{ScanPlan, plan};
use vx_test_support::{Unread, value};
use vx_tree::{BoundExpression, Column, DType, Expression, Value, VortexResult};
use vx_value::FieldPathSet;

/// The statistics of the words: `3 rows; a.x: 1 null, least 1, greatest 5; s: least 'ab`.
pub fn statistics(alloc: Global, words: &str) -> Result<ChunkStats, Unread> {
    let mut parts = words.split(';');
    let rows = parts.next().unwrap_or("").trim();
    let rows = rows.strip_suffix(" rows").ok_or("no rows")?;
    let mut stats = ChunkStats::new(alloc, number(rows)?);
    for part in parts {
        let (place, known) = part.split_once(':').ok_or("no colon behind a path")?;
        let place = path(alloc, place.trim())?;
        stats.insert(place, field_statistics(alloc, known)?)?;
    }
    Ok(stats)
}

fn field_statistics(alloc: Global, words: &str) -> Result<FieldStats, Unread> {
    let mut stats = FieldStats::unknown();
    for word in words.split(',') {
        let word = word.trim();
        if let Some(count) = word.strip_suffix(" null") {
            stats.null_count = Some(number(count)?);
        } else if let Some(least) = word.strip_prefix("least ") {
            stats.least = Some(value(alloc, least)?);
        } else if let Some(greatest) = word.strip_prefix("greatest ") {
            stats.greatest = Some(value(alloc, greatest)?);
        } else {
            return Err(Unread::Word("no such statistic"));
        }
    }
    Ok(stats)
}

fn number(word: &str) -> Result<usize, Unread> {
    word.parse().map_err(|_| Unread::Word("no number"))
}

/// What is read off the batch along the paths.
pub fn read_off(alloc: Global, batch: &Column, paths: &str) -> VortexResult<ChunkStats> {
    ChunkStats::of(alloc, batch, &set_of(alloc, &paths_of(alloc, paths)?)?)
}

/// The same of each batch, as a text.
pub fn statistics_of(alloc: Global, scene: &Scene, paths: &str) -> VortexResult<String> {
    let mut rows = String::new(alloc);
    for batch in scene.batches.iter() {
        push_rows(alloc, &mut rows, shown_statistics(alloc, batch, paths))?;
    }
    Ok(rows)
}

fn shown_statistics(alloc: Global, batch: &Column, paths: &str) -> VortexResult<String> {
    let stats = read_off(alloc, batch, paths)?;
    let mut text = format!(in alloc; "{} rows", stats.rows())?;
    for (path, known) in stats.entries() {
        text.push_str("; ")?;
        push_path(&mut text, path)?;
        push_statistics(alloc, &mut text, known)?;
    }
    Ok(text)
}

fn push_statistics(alloc: Global, text: &mut String, known: &FieldStats) -> Result<(), AllocError> {
    let mut before = ": ";
    if let Some(count) = known.null_count {
        text.push_str(format!(in alloc; "{before}{count} null")?.as_str())?;
        before = ", ";
    }
    if let Some(least) = known.least.as_ref().and_then(Endpoint::of) {
        text.push_str(format!(in alloc; "{before}least {least}")?.as_str())?;
        before = ", ";
    }
    if let Some(greatest) = known.greatest.as_ref().and_then(Endpoint::of) {
        text.push_str(format!(in alloc; "{before}greatest {greatest}")?.as_str())?;
    }
    Ok(())
}

/// Between which values the tree's are by the scene's statistics, and of a truth value the verdict.
pub fn pruned(alloc: Global, scene: &Scene, tree: &BoundExpression) -> VortexResult<String>
    requires { WellTyped (bound_of tree.now) }
{
    let stats = &scene.statistics;
    let within = bounds(tree, stats);
    let DType::Bool(_) = tree.dtype() else {
        return Ok(format!(in alloc; "{within}")?);
    };
    let said = match verdict(tree, stats) {
        Verdict::NoRow => "no row",
        Verdict::EveryRow => "every row",
        Verdict::Unknown => "unknown",
    };
    Ok(format!(in alloc; "{within} : {said}")?)
}

/// A mask by its rows.
#[derive(Drop)]
struct Rows(RowMask);

impl fmt::Display for Rows {
    fn fmt<W: fmt::Write>(&self, f: &mut fmt::Formatter<W>) -> fmt::Result {
        let bits = self.0.as_slice();
        for i in 0..bits.len() {
            f.write_str(if bits[i] { "1" } else { "0" })?;
        }
        Ok(())
    }
}

/// For each row of each batch whether the source, planned for scans, is selected there by the scene's statistics,
/// and a word before them where others are of arrays of the batch.
pub fn selected(alloc: Global, scene: &Scene, source: &Expression) -> VortexResult<String> {
    let plan = plan(alloc, source, &scene.scope)?;
    let mut rows = String::new(alloc);
    for batch in scene.batches.iter() {
        let answer = Box::new(alloc, selection(alloc, &plan, batch, &scene.statistics))?;
        if !selections_agree(alloc, batch, &plan, &scene.statistics, &answer)? {
            rows.push_str("arrays differ from ")?;
        }
        push_rows(alloc, &mut rows, as_rows(Box::into_inner(answer)))?;
    }
    Ok(rows)
}

fn selection(
    alloc: Global,
    plan: &ScanPlan,
    batch: &Column,
    stats: &ChunkStats,
) -> VortexResult<RowMask> {
    let no_path = FieldPathSet::new(alloc);
    let reader = reader(plan, batch.clone()?, &no_path);
    select_rows(alloc, &reader, plan, stats)
}

fn as_rows(answer: VortexResult<RowMask>) -> VortexResult<Rows> {
    Ok(Rows(answer?))
}

/// Whether what statistics of the batch tell of the tree is true of the values that it has there.
pub fn is_told_true(tree: &BoundExpression, stats: &ChunkStats, values: &[Value]) -> bool
    requires { WellTyped (bound_of tree.now) }
{
    let within = bounds(tree, stats);
    let is_within = values.iter().all(|value| within.contains(value));
    let DType::Bool(_) = tree.dtype() else {
        return is_within;
    };
    let is_true = |value: &Value| matches!(value, Value::Bool(true));
    is_within
        && match verdict(tree, stats) {
            Verdict::NoRow => !values.iter().any(is_true),
            Verdict::EveryRow => values.iter().all(is_true),
            Verdict::Unknown => true,
        }
}

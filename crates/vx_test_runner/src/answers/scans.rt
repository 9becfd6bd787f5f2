// Answers of plans for scans, of scans, and of what is read along paths.
ghost use Rattle.std.specs.Prelude.{◌≡◌, [], IfOk};
ghost use Rattle.vx_value.specs.Paths.{add_paths};
ghost use Rattle.vx_value.specs.Views.{type_of};

use crate::answers::arrays::scans_agree;
use crate::answers::paths::{paths_of, shown_paths};
use crate::kind::SourceKind;
use crate::scene::Scene;
use crate::told::{push_rows, refused, told, typed};
use std::alloc::Global;
use std::fmt;
use vx_projection::{ColumnReader, PathReader, read_referenced};
use vx_scan::{ScanPlan, plan, scan};
use vx_tree::{Column, Expression, VortexResult};
use vx_value::{FieldPath, FieldPathSet};

/// The answer to a line that asks of the source, planned for scans of the scope, or what refuses that.
pub fn planned(
    alloc: Global,
    kind: SourceKind,
    scene: &Scene,
    source: &Expression,
) -> VortexResult<String> {
    match plan(alloc, source, &scene.scope) {
        Ok(plan) => of_plan(alloc, kind, scene, &plan),
        Err(refusal) => refused(alloc, &refusal),
    }
}

fn of_plan(
    alloc: Global,
    kind: SourceKind,
    scene: &Scene,
    plan: &ScanPlan,
) -> VortexResult<String> {
    match kind {
        SourceKind::Planned => plan_text(alloc, scene, plan),
        SourceKind::PlannedPaths => shown_paths(alloc, plan.paths()),
        SourceKind::PlannedSplit => split_text(alloc, plan),
        _ => scan_rows(alloc, scene, plan),
    }
}

// Text and type of the plan's tree.
fn plan_text(alloc: Global, scene: &Scene, plan: &ScanPlan) -> VortexResult<String> {
    if *plan.scope() != scene.scope {
        return Ok(String::from_str(alloc, "a plan of another scope")?);
    }
    typed(alloc, plan.tree())
}

// The text of the plan's split, `whole` where it has none.
fn split_text(alloc: Global, plan: &ScanPlan) -> VortexResult<String> {
    match plan.split() {
        Some(split) => Ok(format!(in alloc; "{split}")?),
        None => Ok(String::from_str(alloc, "whole")?),
    }
}

// What a scan gives of each batch, and a word before it where arrays of the batch give something else.
fn scan_rows(alloc: Global, scene: &Scene, plan: &ScanPlan) -> VortexResult<String> {
    let mut rows = String::new(alloc);
    for batch in scene.batches.iter() {
        let answer = Box::new(alloc, scan_column(alloc, plan, batch))?;
        if !scans_agree(alloc, batch, plan, &answer)? {
            rows.push_str("arrays differ from ")?;
        }
        push_rows(alloc, &mut rows, with_type(Box::into_inner(answer)))?;
    }
    Ok(rows)
}

/// What a scan of the source, planned over the scope, gives of the column, of whatever type it is.
pub fn scan_over(
    alloc: Global,
    scene: &Scene,
    source: &Expression,
    column: &Column,
) -> VortexResult<String> {
    let plan = plan(alloc, source, &scene.scope)?;
    told(alloc, with_type(scan_column(alloc, &plan, column)))
}

/// A column with its type behind it.
#[derive(Drop)]
struct WithType(Column);

impl fmt::Display for WithType {
    fn fmt<W: fmt::Write>(&self, f: &mut fmt::Formatter<W>) -> fmt::Result {
        let WithType(column) = self;
        let dtype = column.dtype();
        write!(f, "{column} : {dtype}")
    }
}

// The same answer, with the column's type.
fn with_type(answer: VortexResult<Column>) -> VortexResult<WithType> {
    Ok(WithType(answer?))
}

/// What a scan gives of the column, read along the plan's paths alone.
pub fn scan_column(alloc: Global, plan: &ScanPlan, column: &Column) -> VortexResult<Column> {
    let no_path = FieldPathSet::new(alloc);
    scan(alloc, &reader(plan, column.clone()?, &no_path), plan)
}

/// A reader of the column that allows the plan's paths, and no path where it is of another type.
pub fn reader<'p>(plan: &'p ScanPlan, column: Column, no_path: &'p FieldPathSet) -> ColumnReader<'p>
    ensures { result.column.type ≡ type_of plan.now.scope → result.allowed.now ≡ plan.now.paths }
{
    if *column.dtype() != *plan.scope() {
        return ColumnReader::new(column, no_path);
    }
    plan.reader_of(column)
}

/// What is read of each batch along the paths.
pub fn read(alloc: Global, scene: &Scene, paths: &str) -> VortexResult<String> {
    let paths = set_of(alloc, &paths_of(alloc, paths)?)?;
    let mut rows = String::new(alloc);
    for batch in scene.batches.iter() {
        push_rows(alloc, &mut rows, read_referenced(alloc, batch, &paths))?;
    }
    Ok(rows)
}

/// The same through a reader of each batch that allows these paths, or what refuses that reader.
pub fn read_through(alloc: Global, scene: &Scene, paths: &str) -> VortexResult<String> {
    let paths = paths_of(alloc, paths)?;
    let mut rows = String::new(alloc);
    for batch in scene.batches.iter() {
        push_rows(alloc, &mut rows, through_reader(alloc, batch, &paths))?;
    }
    Ok(rows)
}

fn through_reader(alloc: Global, batch: &Column, paths: &Vec<FieldPath>) -> VortexResult<Column> {
    let paths = set_of(alloc, paths)?;
    ColumnReader::try_new(batch.clone()?, &paths)?.read(alloc, &paths)
}

/// The paths as a set.
pub fn set_of(alloc: Global, paths: &Vec<FieldPath>) -> VortexResult<FieldPathSet>
    ensures { IfOk result (λ set. set ≡ add_paths [] paths.now.items) }
{
    let mut set = FieldPathSet::new(alloc);
    set.extend(paths.clone()?)?;
    Ok(set)
}

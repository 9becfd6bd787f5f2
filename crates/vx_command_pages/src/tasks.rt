// The chunks of rows that have to be read for a predicate, and their pages.
ghost use Rattle.std.specs.Prelude.{◌≡◌, IfOk, IsTrue, string_bytes};
ghost use Rattle.std.specs.List.{flat_map};
ghost use Rattle.serde_json.specs.View.{view};
ghost use Rattle.serde_json.specs.Written.{compact_text};
ghost use Rattle.vx_value.specs.Paths.{minimal_paths};
ghost use Rattle.vx_value.specs.Views.{type_of};
ghost use Rattle.vx_fn.specs.Functions.{is_truth};
ghost use Rattle.vx_tree.specs.Trees.{WellTyped, node_type};
ghost use Rattle.vx_tree.specs.Views.{bound_of};
ghost use Rattle.vx_query_split.specs.Division.{parts_of};
ghost use Rattle.vx_command_pages.specs.Pages.{line};
ghost use Rattle.vx_command_pages.specs.PlanData.{plan_data};
ghost use Rattle.vx_command_pages.specs.Tasks.{planned_tasks_data, task_data, task_line, task_of, task_words, tasks_data, tasks_from};

use crate::json::plan_value;
use crate::planned::value_line;
use serde_json::{Value, json};
use std::alloc::{AllocError, Global};
use vx_prune_tree::{ChunkStats, Verdict, verdict};
use vx_scan::ScanPlan;
use vx_tree::BoundExpression;

/// A chunk of rows that has to be read: a predicate may be true of one of them.
#[derive(Clone, Copy, Debug, PartialEq, Eq)]
pub struct ChunkTask {
    /// Which of the chunks it is, counted from 1 on.
    pub number: usize,
    /// How many rows it has.
    pub rows: usize,
    /// Whether the predicate is true of every row, so that it needn't be evaluated.
    pub every_row: bool,
}

/// The chunks that have to be read for the predicate, in order: all but those whose statistics tell that it
/// is true of none of their rows. Asks a well-typed tree of type `bool` or `bool?`.
pub fn chunk_tasks(
    alloc: Global,
    tree: &BoundExpression,
    chunks: &[ChunkStats],
) -> Result<Vec<ChunkTask>, AllocError>
    requires typed { WellTyped (bound_of tree.now) }
    requires truth { IsTrue (is_truth (node_type (bound_of tree.now))) }
    ensures { IfOk result (λ tasks. tasks.items ≡ tasks_from (bound_of tree.now) 1 chunks.now) }
{
    let mut tasks = Vec::new(alloc);
    for i in 0..chunks.len() {
        let stats = &chunks[i];
        if let Some(task) = task_of(i + 1, stats.rows(), verdict(tree, stats)) {
            tasks.push(task)?;
        }
    }
    Ok(tasks)
}

// What has to be read of the chunk of that number and of which that is known.
fn task_of(number: usize, rows: usize, verdict: Verdict) -> Option<ChunkTask>
    ensures { result ≡ task_of number rows verdict }
{
    let every_row = match verdict {
        Verdict::NoRow => return None,
        Verdict::EveryRow => true,
        Verdict::Unknown => false,
    };
    Some(ChunkTask {
        number,
        rows,
        every_row,
    })
}

/// A line for each of the chunks: its number, and `every row` or `to be read`.
pub fn tasks_page(alloc: Global, tasks: &[ChunkTask]) -> Result<String, AllocError>
    ensures { IfOk result (λ page. string_bytes page ≡ flat_map task_line tasks.now) }
{
    let mut page = String::new(alloc);
    for task in tasks {
        page.push_str(task_line(alloc, *task)?.as_str())?;
    }
    Ok(page)
}

fn task_line(alloc: Global, task: ChunkTask) -> Result<String, AllocError>
    ensures { IfOk result (λ line. string_bytes line ≡ task_line task) }
{
    let number = task.number;
    let words = task_words(task.every_row);
    format!(in alloc; "{number} {words}\n")
}

fn task_words(every_row: bool) -> &'static str
    ensures { result.now ≡ task_words every_row }
{
    if every_row { "every row" } else { "to be read" }
}

/// The plan and the chunks that have to be read for it, as JSON on one line.
pub fn planned_tasks_page(
    alloc: Global,
    plan: &ScanPlan,
    tasks: &[ChunkTask],
) -> Result<String, AllocError>
    ensures { IfOk result (λ page. string_bytes page ≡ line (compact_text (planned_tasks_data (plan_data (type_of plan.now.scope) (bound_of plan.now.tree) (minimal_paths plan.now.paths) (parts_of plan.now.split)) tasks.now))) }
{
    value_line(alloc, &planned_tasks_value(alloc, plan, tasks)?)
}

fn planned_tasks_value(
    alloc: Global,
    plan: &ScanPlan,
    tasks: &[ChunkTask],
) -> Result<Value, AllocError>
    ensures { IfOk result (λ v. view v ≡ planned_tasks_data (plan_data (type_of plan.now.scope) (bound_of plan.now.tree) (minimal_paths plan.now.paths) (parts_of plan.now.split)) tasks.now) }
{
    let chunks = tasks_value(alloc, tasks)?;
    let plan = plan_value(alloc, plan)?;
    json!(in alloc; {"chunks": chunks, "plan": plan})
}

// The chunks, each as an object.
fn tasks_value(alloc: Global, tasks: &[ChunkTask]) -> Result<Value, AllocError>
    ensures { IfOk result (λ v. view v ≡ tasks_data tasks.now) }
{
    let mut values = Vec::with_capacity(alloc, tasks.len())?;
    for task in tasks {
        values.push(task_value(alloc, *task)?)?;
    }
    Ok(Value::Array(values))
}

fn task_value(alloc: Global, task: ChunkTask) -> Result<Value, AllocError>
    ensures { IfOk result (λ v. view v ≡ task_data task) }
{
    let words = task_words(task.every_row);
    json!(in alloc; {"chunk": task.number, "rows": task.rows, "verdict": words})
}

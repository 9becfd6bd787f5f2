// The pages of the rows.
ghost use Rattle.std.specs.Prelude.{◌≡◌, IfErr, Ok, string_bytes};
ghost use Rattle.vx_dtype.specs.Returns.{ReturnsOrOom};
ghost use Rattle.vx_dtype.specs.declared.error.VortexError.TheVariants.{OutOfMemory};
ghost use Rattle.vx_tree.specs.Binding.{binding};
ghost use Rattle.vx_tree.specs.Trees.{BoundTree, node_type, unbound};
ghost use Rattle.vx_tree.specs.Texts.{sql};
ghost use Rattle.vx_tree.specs.TreeTexts.{tree_text};
ghost use Rattle.vx_tree.specs.Views.{tree_of, bound_of};
ghost use Rattle.vx_value.specs.Views.{type_of};
ghost use Rattle.vx_value.specs.ValueTexts.{column_text};
ghost use Rattle.vx_dtype.specs.Texts.{type_text};
ghost use Rattle.vx_eval.specs.Evaluation.{evaluation};
ghost use Rattle.vx_query_split.specs.Sources.{IsBound};
ghost use Rattle.vx_run.specs.Branches.{branches};
ghost use Rattle.vx_run.specs.Fused.{fused};
ghost use Rattle.vx_run.specs.Pages.{page_of, page_text, lines, lines_of};
ghost use Rattle.vx_run.specs.Quiet.{IsQuiet};
ghost use Rattle.vx_run.specs.Scan.{scan};
ghost use Rattle.vx_run.specs.declared.row.Row.TheVariants.{Branches, Fused, Scan};

use crate::row::Row;
use crate::{branches, cases, coalesce, fused, kleene, scan};
use std::alloc::Global;
use vx_dtype::{DType, VortexResult};
use vx_query::run_query;
use vx_scan::ScanPlan;
use vx_tree::{BoundExpression, Expression};
use vx_value::Column;

/// The row's page. Refuses with `OutOfMemory` (1) alone.
pub fn page(alloc: Global, row: Row) -> VortexResult<String>
    ensures { ReturnsOrOom string_bytes result (Ok (page_of row)) }
{
    match row {
        Row::Kleene => {
            let batch = kleene::batch(alloc)?;
            sample_text(alloc, kleene::source(alloc)?, batch)
        }
        Row::Coalesce => {
            let batch = coalesce::batch(alloc)?;
            sample_text(alloc, coalesce::source(alloc)?, batch)
        }
        Row::Cases => {
            let batch = cases::batch(alloc)?;
            sample_text(alloc, cases::source(alloc)?, batch)
        }
        Row::Fused => fused_page(alloc),
        Row::Branches => branches_page(alloc),
        Row::Scan => scan_page(alloc),
    }
}

// The page of the row `fused`: the expression of `kleene` as a query by `find_between`.
fn fused_page(alloc: Global) -> VortexResult<String>
    ensures { ReturnsOrOom string_bytes result (Ok (page_of Fused)) }
{
    let batch = kleene::batch(alloc)?;
    let text = fused_over(alloc, &batch);
    drop(batch);
    text
}

// The page of the row `fused` over its batch. Asks that batch.
fn fused_over(alloc: Global, batch: &Column) -> VortexResult<String>
    requires { batch.now ≡ fused.batch }
    ensures { ReturnsOrOom string_bytes result (Ok (page_of Fused)) }
{
    let tree = fused::tree(alloc, batch.dtype())?;
    let text = fused_text(alloc, &tree, batch);
    drop(tree);
    text
}

// The lines of the tree of the row `fused`. Asks that tree, and its batch.
fn fused_text(alloc: Global, tree: &BoundExpression, batch: &Column) -> VortexResult<String>
    requires tree { binding fused.source fused.batch.type ≡ Ok (bound_of tree.now) }
    requires batch { batch.now ≡ fused.batch }
    ensures { let tree = bound_of tree.now in ReturnsOrOom string_bytes result (Ok (lines (unbound tree) batch.now (node_type tree))) }
{
    let column = fused::result(alloc, batch)?;
    let text = bound_text(alloc, tree, batch, &column);
    drop(column);
    text
}

// The page of the row `branches`: the CASE as a query by the branch rules.
fn branches_page(alloc: Global) -> VortexResult<String>
    ensures { ReturnsOrOom string_bytes result (Ok (page_of Branches)) }
{
    let batch = coalesce::batch(alloc)?;
    let text = branches_over(alloc, &batch);
    drop(batch);
    text
}

// The page of the row `branches` over its batch. Asks that batch.
fn branches_over(alloc: Global, batch: &Column) -> VortexResult<String>
    requires { batch.now ≡ branches.batch }
    ensures { ReturnsOrOom string_bytes result (Ok (page_of Branches)) }
{
    let tree = branches::tree(alloc, batch.dtype())?;
    let text = branches_text(alloc, &tree, batch);
    drop(tree);
    text
}

// The lines of the tree of the row `branches`. Asks that tree, and its batch.
fn branches_text(alloc: Global, tree: &BoundExpression, batch: &Column) -> VortexResult<String>
    requires tree { binding branches.source branches.batch.type ≡ Ok (bound_of tree.now) }
    requires batch { batch.now ≡ branches.batch }
    ensures { let tree = bound_of tree.now in ReturnsOrOom string_bytes result (Ok (lines (unbound tree) batch.now (node_type tree))) }
{
    let column = branches::result(alloc, batch)?;
    let text = bound_text(alloc, tree, batch, &column);
    drop(column);
    text
}

// The page of the row `scan`: the conditions scanned by their plan.
fn scan_page(alloc: Global) -> VortexResult<String>
    ensures { ReturnsOrOom string_bytes result (Ok (page_of Scan)) }
{
    let batch = scan::batch(alloc)?;
    let text = scan_over(alloc, &batch);
    drop(batch);
    text
}

// The page of the row `scan` over its batch. Asks that batch.
fn scan_over(alloc: Global, batch: &Column) -> VortexResult<String>
    requires { batch.now ≡ scan.batch }
    ensures { ReturnsOrOom string_bytes result (Ok (page_of Scan)) }
{
    let plan = scan::planned(alloc, batch.dtype())?;
    let text = scan_text(alloc, &plan, batch);
    drop(plan);
    text
}

// The lines of the tree of the row `scan`. Asks its plan and its batch.
fn scan_text(alloc: Global, plan: &ScanPlan, batch: &Column) -> VortexResult<String>
    requires tree { binding scan.source scan.batch.type ≡ Ok (bound_of plan.now.tree) }
    requires scope { type_of plan.now.scope ≡ scan.batch.type }
    requires batch { batch.now ≡ scan.batch }
    ensures { let tree = bound_of plan.now.tree in ReturnsOrOom string_bytes result (Ok (lines (unbound tree) batch.now (node_type tree))) }
{
    let column = scan::result(alloc, plan, batch)?;
    let text = bound_text(alloc, plan.tree(), batch, &column);
    drop(column);
    text
}

// The lines of an expression over the batch, or what binding refuses. Asks an expression that faults
// on no batch.
fn sample_text(alloc: Global, source: Expression, batch: Column) -> VortexResult<String>
    requires { IsQuiet (tree_of source) }
    ensures { ReturnsOrOom string_bytes result (page_text (tree_of source) batch) }
{
    let text = page_text(alloc, &source, &batch);
    drop(source);
    drop(batch);
    text
}

// The same of what is lent. Whatever is owned where a call may be refused is written out by the
// prover, and what is dropped by name isn't.
fn page_text(alloc: Global, source: &Expression, batch: &Column) -> VortexResult<String>
    requires { IsQuiet (tree_of source.now) }
    ensures { ReturnsOrOom string_bytes result (page_text (tree_of source.now) batch.now) }
{
    let bound = source.bind(alloc, batch.dtype())?;
    let text = evaluated_text(alloc, source, &bound, batch);
    drop(bound);
    text
}

// The lines of an expression over the batch, and bound to its type. Asks one that faults on no batch.
fn evaluated_text(
    alloc: Global,
    source: &Expression,
    bound: &BoundExpression,
    batch: &Column,
) -> VortexResult<String>
    requires quiet { IsQuiet (tree_of source.now) }
    requires bound { IsBound (tree_of source.now) batch.now.type (bound_of bound.now) }
    ensures { let tree = bound_of bound.now in ReturnsOrOom string_bytes result (Ok (lines (unbound tree) batch.now (node_type tree))) }
{
    let column = result_of(alloc, source, batch)?;
    let text = bound_text(alloc, bound, batch, &column);
    drop(column);
    text
}

// What the expression gives over the batch, as a query without a pass. Asks an expression that faults
// on no batch.
fn result_of(alloc: Global, source: &Expression, batch: &Column) -> VortexResult<Column>
    requires { IsQuiet (tree_of source.now) }
    ensures memory { (b : BoundTree) → IsBound (tree_of source.now) batch.now.type b → IfErr result (λ e. e ≡ OutOfMemory) }
    ensures evaluation { (b : BoundTree) → IsBound (tree_of source.now) batch.now.type b → ReturnsOrOom (λ c. c) result (evaluation b batch.now) }
{
    run_query(alloc, source, batch, &[], false)
}

// The tree's text, its type, its result over the batch, and its tree text. Asks what it gives over
// the batch.
#[tactic(auto, using(crate::proofs::Shown::evaluated))]
fn bound_text(
    alloc: Global,
    bound: &BoundExpression,
    batch: &Column,
    column: &Column,
) -> VortexResult<String>
    requires { evaluation (bound_of bound.now) batch.now ≡ Ok column.now }
    ensures { let tree = bound_of bound.now in ReturnsOrOom string_bytes result (Ok (lines (unbound tree) batch.now (node_type tree))) }
{
    lines(alloc, bound, bound.dtype(), column)
}

// The lines of a tree, a type and a column.
fn lines(alloc: Global, bound: &BoundExpression, t: &DType, column: &Column) -> VortexResult<String>
    ensures { let tree = unbound (bound_of bound.now) in
        ReturnsOrOom string_bytes result (Ok (lines_of (sql tree) (type_text (type_of t.now)) (column_text column.now.rows column.now.type) (tree_text tree))) }
{
    let tree = bound.display_tree();
    Ok(format!(in alloc; "text: {bound}\ntype: {t}\nresult: {column}\ntree:\n{tree}\n")?)
}

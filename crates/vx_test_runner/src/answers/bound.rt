// Answers that are of a bound tree, but of its analyses and its split.
ghost use Rattle.vx_tree.specs.Trees.{WellTyped};
ghost use Rattle.vx_tree.specs.Views.{bound_of};

use crate::answers::arrays::arrays_agree;
use crate::answers::bound_line::BoundLine;
use crate::answers::pruned::pruned;
use crate::answers::{analyses, partitions};
use crate::kind::{BoundKind, RewrittenKind, Told};
use crate::scene::Scene;
use crate::told::{agreed, barred, push_rows, refused, typed};
use std::alloc::Global;
use vx_eval::apply_bound;
use vx_rewrite::{
    BranchRules, FoldingRules, Optimize, Pass, Rule, StandardRules, find_between, optimize_with,
    run_passes,
};
use vx_test_support::Unread;
use vx_tree::{BoundExpression, Column, Expression, VortexError, VortexResult};

/// The answer to a line that asks of the source of that text, bound to the scope.
pub fn answer(alloc: Global, kind: BoundKind, scene: &Scene, tree: &str) -> Result<String, Unread> {
    let source = scene.source(alloc, tree)?;
    let bound = match scene.bind(alloc, &source) {
        Ok(bound) => bound,
        Err(refusal) => return Ok(refused(alloc, &refusal)?),
    };
    let line = BoundLine {
        scene,
        source: &source,
        bound: &bound,
    };
    let answer = match kind {
        BoundKind::Source => same_texts(alloc, &source, &bound),
        BoundKind::Rows => rows(alloc, scene, &bound),
        BoundKind::OfRewritten(kind) => rewritten(alloc, kind, scene, &bound),
        BoundKind::OfAnalysis(kind) => analyses::answer(alloc, kind, &line),
        BoundKind::OfFields(kind) => partitions::answer(alloc, kind, &line),
        BoundKind::Pruned => pruned(alloc, scene, &bound),
    };
    told_text(alloc, answer)
}

// The answer, or what it was refused with.
fn told_text(alloc: Global, answer: VortexResult<String>) -> Result<String, Unread> {
    match answer {
        Ok(text) => Ok(text),
        Err(refusal) => Ok(refused(alloc, &refusal)?),
    }
}

// Text and type of the bound tree, which has the source's tree text.
fn same_texts(alloc: Global, source: &Expression, bound: &BoundExpression) -> VortexResult<String> {
    let own = bound.display_tree();
    let own = format!(in alloc; "{own}")?;
    let other = source.display_tree();
    let other = format!(in alloc; "{other}")?;
    if own.as_str() == other.as_str() {
        return typed(alloc, bound);
    }
    Ok(barred(alloc, own.as_str())?)
}

/// What the tree gives over each batch of the scene, and a word before it where arrays of the batch give
/// something else.
pub fn rows(alloc: Global, scene: &Scene, tree: &BoundExpression) -> VortexResult<String>
    requires { WellTyped (bound_of tree.now) }
{
    let mut rows = String::new(alloc);
    for batch in scene.batches.iter() {
        let answer = fitting(apply_bound(alloc, batch, tree), tree, batch);
        let answer = Box::new(alloc, answer)?;
        if !arrays_agree(alloc, batch, tree, &answer)? {
            rows.push_str("arrays differ from ")?;
        }
        push_rows(alloc, &mut rows, Box::into_inner(answer))?;
    }
    Ok(rows)
}

// The column, `RowMisfit` where it isn't of the tree's type or the batch's length.
fn fitting(
    answer: VortexResult<Column>,
    tree: &BoundExpression,
    batch: &Column,
) -> VortexResult<Column> {
    match &answer {
        Ok(column) if *column.dtype() != *tree.dtype() || column.len() != batch.len() => {
            Err(VortexError::RowMisfit { row: column.len() })
        }
        _ => answer,
    }
}

fn rewritten(
    alloc: Global,
    kind: RewrittenKind,
    scene: &Scene,
    bound: &BoundExpression,
) -> VortexResult<String>
    requires { WellTyped (bound_of bound.now) }
{
    match kind {
        RewrittenKind::Validity(told) => {
            let validity = bound.validity(alloc)?;
            told_of(alloc, told, scene, &validity)
        }
        RewrittenKind::Optimized(told) => {
            let left = bound.optimize_recursive(alloc)?;
            told_of(alloc, told, scene, &left)
        }
        RewrittenKind::OptimizedOrNone => optimized_or_none(alloc, bound),
        RewrittenKind::OptimizedAtRoot => optimized_at_root(alloc, bound),
        RewrittenKind::ByBranches(told) => by_rules(alloc, told, scene, &BranchRules, bound),
        RewrittenKind::ByBranchesOrNone => {
            passed_or_none(alloc, Pass::Branches, &BranchRules, bound)
        }
        RewrittenKind::Folded(told) => by_rules(alloc, told, scene, &FoldingRules, bound),
        RewrittenKind::FoldedOrNone => passed_or_none(alloc, Pass::Fold, &FoldingRules, bound),
        RewrittenKind::Fused(Told::Text) => fused(alloc, bound),
        RewrittenKind::Fused(Told::Rows) => {
            let fused = find_between(alloc, bound.clone()?)?;
            rows(alloc, scene, &fused)
        }
    }
}

// What the rules leave, the tree itself where none fits at any node.
fn by_rules<R: Rule>(
    alloc: Global,
    told: Told,
    scene: &Scene,
    rules: &R,
    bound: &BoundExpression,
) -> VortexResult<String>
    requires { WellTyped (bound_of bound.now) }
{
    match optimize_with(alloc, rules, bound)? {
        Some(left) => told_of(alloc, told, scene, &left),
        None => told_of(alloc, told, scene, bound),
    }
}

// The text and the type of the tree, or its rows.
fn told_of(alloc: Global, told: Told, scene: &Scene, tree: &BoundExpression) -> VortexResult<String>
    requires { WellTyped (bound_of tree.now) }
{
    match told {
        Told::Text => typed(alloc, tree),
        Told::Rows => rows(alloc, scene, tree),
    }
}

// The text and the type of the fused tree, which fusing again has to leave as it is.
fn fused(alloc: Global, bound: &BoundExpression) -> VortexResult<String>
    requires { WellTyped (bound_of bound.now) }
{
    let fused = find_between(alloc, bound.clone()?)?;
    let again = find_between(alloc, fused.clone()?)?;
    if again != fused {
        return Ok(format!(in alloc; "{fused}, and fused again {again}")?);
    }
    typed(alloc, &fused)
}

fn optimized_or_none(alloc: Global, bound: &BoundExpression) -> VortexResult<String>
    requires { WellTyped (bound_of bound.now) }
{
    let tried = typed_or_none(alloc, bound.try_optimize_recursive(alloc)?)?;
    let left = bound.optimize_recursive(alloc)?;
    let by_rules = by_rules_or_none(alloc, &StandardRules, bound, &left)?;
    agreed(alloc, tried, by_rules)
}

// What the rules of a pass give, on which the pass has to agree.
fn passed_or_none<R: Rule>(
    alloc: Global,
    pass: Pass,
    rules: &R,
    bound: &BoundExpression,
) -> VortexResult<String>
    requires { WellTyped (bound_of bound.now) }
{
    let passed = run_passes(alloc, bound.clone()?, &[pass])?;
    by_rules_or_none(alloc, rules, bound, &passed)
}

// What the rules give, none where no rule fits at any node. What another call leaves has to be the
// same, and the tree itself where none fits.
fn by_rules_or_none<R: Rule>(
    alloc: Global,
    rules: &R,
    bound: &BoundExpression,
    left: &BoundExpression,
) -> VortexResult<String>
    requires { WellTyped (bound_of bound.now) }
{
    let given = typed_or_none(alloc, optimize_with(alloc, rules, bound)?)?;
    if given.as_str() != "none" {
        return agreed(alloc, given, typed(alloc, left)?);
    }
    if *left != *bound {
        return Ok(format!(in alloc; "none, and left {left}")?);
    }
    Ok(given)
}

fn typed_or_none(alloc: Global, tree: Option<BoundExpression>) -> VortexResult<String> {
    match tree {
        Some(tree) => typed(alloc, &tree),
        None => Ok(String::from_str(alloc, "none")?),
    }
}

// The text of what is left; where it is the tree's, an equal tree is left.
fn optimized_at_root(alloc: Global, bound: &BoundExpression) -> VortexResult<String>
    requires { WellTyped (bound_of bound.now) }
{
    let left = bound.optimize(alloc)?;
    let text = format!(in alloc; "{left}")?;
    let whole = format!(in alloc; "{bound}")?;
    if text.as_str() == whole.as_str() && left != *bound {
        return Ok(format!(in alloc; "{text}, another tree of that text")?);
    }
    Ok(text)
}

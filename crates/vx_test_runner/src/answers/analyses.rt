// Answers of analyses of a bound tree: its paths and its labels.
ghost use Rattle.vx_tree.specs.Trees.{WellTyped};
ghost use Rattle.vx_tree.specs.Views.{bound_of};

use crate::answers::bound_line::BoundLine;
use crate::answers::distinct::{Analysis, told_of_all};
use crate::answers::paths::shown_paths;
use crate::kind::AnalysisKind;
use std::alloc::Global;
use vx_rewrite::{BoundLabels, Optimize, label_bound_tree, referenced_field_paths};
use vx_tree::{BoundExpression, ExactBoundExpr, VortexResult};

/// The answer to a line that asks of the paths or the labels of the source, which is bound.
pub fn answer(alloc: Global, kind: AnalysisKind, line: &BoundLine<'_>) -> VortexResult<String>
    requires { WellTyped (bound_of line.now.bound.now) }
{
    let bound = line.bound;
    match kind {
        AnalysisKind::Paths => paths(alloc, bound),
        AnalysisKind::OptimizedPaths => paths(alloc, &bound.optimize_recursive(alloc)?),
        AnalysisKind::Size => size(alloc, bound, &line.again(alloc)?),
        AnalysisKind::Sizes => told_of_all(alloc, &sizes(alloc, bound)?, &line.again(alloc)?),
        AnalysisKind::Heights => told_of_all(alloc, &heights(alloc, bound)?, &line.again(alloc)?),
    }
}

fn paths(alloc: Global, bound: &BoundExpression) -> VortexResult<String>
    requires { WellTyped (bound_of bound.now) }
{
    shown_paths(alloc, &referenced_field_paths(alloc, bound)?)
}

// The size of the tree, read out by an equal one.
fn size(alloc: Global, bound: &BoundExpression, equal: &BoundExpression) -> VortexResult<String> {
    sizes(alloc, bound)?.told_at(alloc, equal)
}

// One more than the highest child's.
fn heights(alloc: Global, e: &BoundExpression) -> VortexResult<BoundLabels<u64>> {
    label_bound_tree(
        alloc,
        e,
        |_node: &BoundExpression| 1,
        |label: u64, child: &u64| label.max(child.saturating_add(1)),
    )
}

// One more than the children's together.
fn sizes(alloc: Global, e: &BoundExpression) -> VortexResult<BoundLabels<u64>> {
    label_bound_tree(
        alloc,
        e,
        |_node: &BoundExpression| 1,
        |label: u64, child: &u64| label.saturating_add(*child),
    )
}

impl Analysis for BoundLabels<u64> {
    fn told_at(&self, alloc: Global, node: &BoundExpression) -> VortexResult<String> {
        let key = ExactBoundExpr::new(node.clone()?);
        match self.get(&key) {
            Some(label) => Ok(format!(in alloc; "{label}")?),
            None => Ok(String::from_str(alloc, "-")?),
        }
    }

    fn count(&self) -> usize {
        self.len()
    }
}

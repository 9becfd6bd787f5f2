// Passes over trees.
ghost use Rattle.vx_tree.specs.Trees.{WellTyped};
ghost use Rattle.vx_tree.specs.Views.{bound_of};

use crate::subject::Subject;
use crate::walks::{fold, rewrite, walk};
use crate::{over_a_row, splits};
use std::alloc::Global;
use std::fmt::Display;
use std::hash::{DefaultHasher, Hash, Hasher};
use vx_dtype::{DType, StructFields, VortexError, VortexResult};
use vx_prune::{ChunkStats, bounds};
use vx_query_split::split_by_fields;
use vx_rewrite::{
    BranchRules, FoldingRules, Optimize, find_between, partition_bound, referenced_field_paths,
    run_passes,
};
use vx_rewrite_analysis::{
    descendent_bound_annotations, direct_bound_annotations, free_fields, label_bound_tree,
};
use vx_rewrite_core::optimize_with;
use vx_scan::plan;
use vx_tree::{BoundExpression, ExactBoundExpr, Expression, Mask};

/// A pass over a tree.
#[derive(Clone, Copy, Debug, PartialEq, Eq)]
pub enum Pass {
    /// The tree bound.
    Bind,
    /// Its text.
    Display,
    /// The standard rules at every node.
    Optimize,
    /// Comparisons of one item as one `Between`.
    Fuse,
    /// The number of nodes at and below each node.
    Label,
    /// The fields that each node reads.
    Annotate,
    /// The tree split by the fields that are read.
    Partition,
    /// The paths that are read.
    Paths,
    /// The tree split by the fields of its scope, as queries and scans split it.
    Split,
    /// The tree planned: bound, optimized, its paths and its split.
    Plan,
    /// The folding rules at every node.
    Folding,
    /// The tree's type, with no bound tree built.
    ReturnDtype,
    /// The tree and the bound tree, each equal to itself.
    Equality,
    /// The text of the source.
    SourceText,
    /// The text as a tree.
    TreeText,
    /// Whether the tree has a node of a function, of which there is none.
    Contains,
    /// Whether the tree is well typed, and over its scope.
    Check,
    /// The tree as a key.
    Key,
    /// The validity of the tree.
    Validity,
    /// A walk to every node.
    Walk,
    /// A rewrite that makes each node above a scope root anew.
    Rewrite,
    /// A fold of every node.
    Fold,
    /// The branch rules at every node.
    Branches,
    /// The fields that each node reads by itself.
    AnnotateDirectly,
    /// The tree evaluated over one row.
    Evaluate,
    /// The source as a query over one row, passed and split.
    Query,
    /// The source planned and scanned over one row.
    Scan,
    /// The bound tree bound again.
    Rebind,
    /// The tree and the bound tree hashed.
    Hash,
    /// The bound tree as `Debug` shows it.
    DebugText,
    /// All passes in turn.
    Passes,
    /// Whether a map of annotations covers the tree, and the tree split by it.
    PartitionByMap,
    /// The tree split, and its partitions put in anew.
    Replace,
    /// Between which values the tree's are in a chunk of which nothing is known.
    Bounds,
}

/// The passes in the order of their numbers.
const PASSES: [Pass; 34] = [
    Pass::Bind,
    Pass::Display,
    Pass::Optimize,
    Pass::Fuse,
    Pass::Label,
    Pass::Annotate,
    Pass::Partition,
    Pass::Paths,
    Pass::Split,
    Pass::Plan,
    Pass::Folding,
    Pass::ReturnDtype,
    Pass::Equality,
    Pass::SourceText,
    Pass::TreeText,
    Pass::Contains,
    Pass::Check,
    Pass::Key,
    Pass::Validity,
    Pass::Walk,
    Pass::Rewrite,
    Pass::Fold,
    Pass::Branches,
    Pass::AnnotateDirectly,
    Pass::Evaluate,
    Pass::Query,
    Pass::Scan,
    Pass::Rebind,
    Pass::Hash,
    Pass::DebugText,
    Pass::Passes,
    Pass::PartitionByMap,
    Pass::Replace,
    Pass::Bounds,
];

impl Pass {
    /// The pass of that number, if there is one.
    pub fn of(number: u8) -> Option<Pass> {
        PASSES.get(usize::from(number)).copied()
    }

    /// Runs the pass once, and lets its result go.
    pub fn run(self, alloc: Global, subject: &Subject) -> VortexResult<()>
        requires { WellTyped (bound_of subject.now.bound) }
    {
        let (source, bound, fields) = (&subject.tree, &subject.bound, &subject.fields);
        match self {
            Pass::Bind => gone(source.bind(alloc, &subject.scope)),
            Pass::Display => written(alloc, bound),
            Pass::Optimize => gone(bound.optimize_recursive(alloc)),
            Pass::Fuse => fuse(alloc, bound),
            Pass::Label => label(alloc, bound),
            Pass::Annotate => annotate(alloc, bound, fields),
            Pass::Partition => partition(alloc, bound, fields),
            Pass::Paths => gone(referenced_field_paths(alloc, bound)),
            Pass::Split => gone(split_by_fields(alloc, bound, &subject.scope)),
            Pass::Plan => gone(plan(alloc, source, &subject.scope)),
            Pass::Folding => gone(optimize_with(alloc, &FoldingRules, bound)),
            Pass::ReturnDtype => gone(source.return_dtype(alloc, &subject.scope)),
            Pass::Equality => told(*source == *source && *bound == *bound),
            Pass::SourceText => written(alloc, source),
            Pass::TreeText => written(alloc, &bound.display_tree()),
            Pass::Contains => told(!bound.contains::<Mask>()),
            Pass::Check => check(alloc, bound, &subject.scope),
            Pass::Key => key(bound),
            Pass::Validity => gone(bound.validity(alloc)),
            Pass::Walk => gone(walk(source)),
            Pass::Rewrite => gone(rewrite(alloc, source)),
            Pass::Fold => gone(fold(alloc, source)),
            Pass::Branches => gone(optimize_with(alloc, &BranchRules, bound)),
            Pass::AnnotateDirectly => annotate_directly(alloc, bound, fields),
            Pass::Evaluate => over_a_row::evaluate(alloc, subject),
            Pass::Query => over_a_row::query(alloc, subject),
            Pass::Scan => over_a_row::scan(alloc, subject),
            Pass::Rebind => gone(bound.rebind(alloc, &subject.scope)),
            Pass::Hash => hash(source, bound),
            Pass::DebugText => debugged(alloc, bound),
            Pass::Passes => passed(alloc, bound),
            Pass::PartitionByMap => splits::by_map(alloc, bound, fields),
            Pass::Replace => splits::replaced(alloc, bound, fields),
            Pass::Bounds => bounded(alloc, bound),
        }
    }
}

// Lets what a call answers go.
fn gone<T: Drop>(answer: VortexResult<T>) -> VortexResult<()> {
    answer.map(|_result| ())
}

// Refuses where a test that holds of every tree was told false.
fn told(holds: bool) -> VortexResult<()> {
    if holds {
        Ok(())
    } else {
        Err(VortexError::NotBool)
    }
}

fn written<T: Display>(alloc: Global, text: &T) -> VortexResult<()> {
    let _ = format!(in alloc; "{text}")?;
    Ok(())
}

fn debugged(alloc: Global, bound: &BoundExpression) -> VortexResult<()> {
    let _ = format!(in alloc; "{bound:?}")?;
    Ok(())
}

fn hash(source: &Expression, bound: &BoundExpression) -> VortexResult<()> {
    let mut hasher = DefaultHasher::new();
    source.hash(&mut hasher);
    bound.hash(&mut hasher);
    let _ = hasher.finish();
    Ok(())
}

fn passed(alloc: Global, bound: &BoundExpression) -> VortexResult<()>
    requires { WellTyped (bound_of bound.now) }
{
    let passes = [
        vx_rewrite::Pass::Optimize,
        vx_rewrite::Pass::OptimizeRecursive,
        vx_rewrite::Pass::FindBetween,
        vx_rewrite::Pass::Branches,
        vx_rewrite::Pass::Fold,
    ];
    gone(run_passes(alloc, bound.clone()?, &passes))
}

fn check(alloc: Global, bound: &BoundExpression, scope: &DType) -> VortexResult<()> {
    told(bound.is_well_typed(alloc)? && bound.is_root_bound_to(scope))
}

fn key(bound: &BoundExpression) -> VortexResult<()> {
    drop(ExactBoundExpr::new(bound.clone()?));
    Ok(())
}

fn bounded(alloc: Global, bound: &BoundExpression) -> VortexResult<()>
    requires { WellTyped (bound_of bound.now) }
{
    let stats = ChunkStats::new(alloc, 1);
    let within = bounds(bound, &stats);
    told(within.null || within.value)
}

fn fuse(alloc: Global, bound: &BoundExpression) -> VortexResult<()>
    requires { WellTyped (bound_of bound.now) }
{
    gone(find_between(alloc, bound.clone()?))
}

fn label(alloc: Global, bound: &BoundExpression) -> VortexResult<()> {
    gone(label_bound_tree(
        alloc,
        bound,
        |_node: &BoundExpression| 1,
        |label: u64, child: &u64| label.saturating_add(*child),
    ))
}

fn annotate(alloc: Global, bound: &BoundExpression, fields: &StructFields) -> VortexResult<()> {
    let read = |node: &BoundExpression| free_fields(alloc, node, fields);
    gone(descendent_bound_annotations(alloc, bound, read))
}

fn annotate_directly(
    alloc: Global,
    bound: &BoundExpression,
    fields: &StructFields,
) -> VortexResult<()> {
    let read = |node: &BoundExpression| free_fields(alloc, node, fields);
    gone(direct_bound_annotations(alloc, bound, read))
}

fn partition(alloc: Global, bound: &BoundExpression, fields: &StructFields) -> VortexResult<()>
    requires { WellTyped (bound_of bound.now) }
{
    let read = |node: &BoundExpression| free_fields(alloc, node, fields);
    gone(partition_bound(alloc, bound.clone()?, read))
}

// A query, planned for scans.
ghost use Rattle.std.specs.Prelude.{◌≡◌, ◌⊎◌, Err, IfErr, IfOk, option_map};
ghost use Rattle.vx_dtype.specs.declared.error.VortexError.TheVariants.{OutOfMemory};
ghost use Rattle.vx_rewrite_rule_laws.specs.Branches.{BranchRuleAt};
ghost use Rattle.vx_scan.specs.Plans.{IsPlan, IsPlanFor, LeavesNormal};
ghost use Rattle.vx_scan.specs.Propositions.{plan-prop};
ghost use Rattle.vx_query_split.specs.Division.{parts_of};
ghost use Rattle.vx_tree.specs.Trees.{typed};
ghost use Rattle.vx_tree.specs.Views.{bound_of, tree_of};
ghost use Rattle.vx_value.specs.Views.{type_of};

use std::alloc::Global;
use vx_dtype::{DType, VortexResult};
use vx_partition::BoundPartitionedExpr;
use vx_projection::ColumnReader;
use vx_query_split::split_by_fields;
use vx_rewrite_core::{Rule, optimized};
use vx_rewrite_paths::referenced_field_paths;
use vx_rewrite_standard::BranchRules;
use vx_tree::{BoundExpression, Expression, FieldName};
use vx_value::{Column, FieldPathSet};

/// A query over batches of one type, made ready to be scanned: its tree, at no node of which a
/// standard rule fits, the paths that this references, and its split by the fields that its nodes read.
pub struct ScanPlan {
    scope: DType,
    tree: BoundExpression,
    paths: FieldPathSet,
    split: Option<BoundPartitionedExpr<FieldName>>,
    ghost is_plan: { IsPlan (type_of scope) (bound_of tree) paths (parts_of split) } by { plan-prop (type_of scope) (bound_of tree) paths (parts_of split) },
}

impl Drop for ScanPlan {
    fn drop(self) {
        let ScanPlan {
            scope,
            tree,
            paths,
            split,
        } = self;
        drop(scope);
        drop(tree);
        drop(paths);
        drop(split);
    }
}

impl ScanPlan {
    /// The type of the batches.
    pub fn scope(&self) -> &DType
        ensures { result.now ≡ self.now.scope }
    {
        &self.scope
    }

    /// The tree, optimized.
    pub fn tree(&self) -> &BoundExpression
        ensures { result.now ≡ self.now.tree }
    {
        &self.tree
    }

    /// The paths that the tree references.
    pub fn paths(&self) -> &FieldPathSet
        ensures { result.now ≡ self.now.paths }
    {
        &self.paths
    }

    /// The tree split by the fields of the scope that its nodes read, where the scope is a struct and
    /// these cover the tree.
    pub fn split(&self) -> Option<&BoundPartitionedExpr<FieldName>>
        ensures { option_map (λ p. p.now) result ≡ self.now.split }
    {
        self.split.as_ref()
    }

    /// A reader of the batch that allows just the plan's paths, as [`scan`](crate::scanned::scan) asks where
    /// the batch is of the plan's type. Takes no memory.
    pub fn reader_of(&self, batch: Column) -> ColumnReader<'_>
        ensures column { result.column ≡ batch }
        ensures allowed { result.allowed.now ≡ self.now.paths }
    {
        ColumnReader::new(batch, &self.paths)
    }
}

/// The plan of a source over batches of that type, by the [`BranchRules`]: see [`plan_with`].
///
/// Refuses with the source's first refusal (2 to 11, but 3) exactly where it has no type over the
/// scope's, and with `OutOfMemory` (1).
pub fn plan(alloc: Global, source: &Expression, scope: &DType) -> VortexResult<ScanPlan>
    ensures planned { IfOk result (λ p. IsPlanFor BranchRuleAt (tree_of source.now) (type_of scope.now) (type_of p.scope) (bound_of p.tree)) }
    ensures refusal { IfErr result (λ y. (y ≡ OutOfMemory) ⊎ (typed (tree_of source.now) (type_of scope.now) ≡ Err y)) }
{
    plan_with(alloc, &BranchRules, source, scope)
}

/// The plan of a source over batches of that type: the source is bound, optimized by the rules at
/// every node, and split by the fields of the scope that its nodes read, where these cover it.
///
/// Asks rules beside the standard ones: a tree at no node of which one of them fits is one at no node
/// of which a standard rule does. So are [`BranchRules`] and the folding rules.
///
/// Refuses with the source's first refusal (2 to 11, but 3) exactly where it has no type over the
/// scope's, and with `OutOfMemory` (1).
pub fn plan_with<R: Rule>(
    alloc: Global,
    rules: &R,
    source: &Expression,
    scope: &DType,
) -> VortexResult<ScanPlan>
    requires { LeavesNormal (R.gives rules.now) }
    ensures planned { IfOk result (λ p. IsPlanFor (R.gives rules.now) (tree_of source.now) (type_of scope.now) (type_of p.scope) (bound_of p.tree)) }
    ensures refusal { IfErr result (λ y. (y ≡ OutOfMemory) ⊎ (typed (tree_of source.now) (type_of scope.now) ≡ Err y)) }
{
    let bound = source.bind(alloc, scope)?;
    let tree = optimized(alloc, rules, &bound)?;
    drop(bound);
    let paths = referenced_field_paths(alloc, &tree)?;
    let split = split_by_fields(alloc, &tree, scope)?;
    let scope = scope.clone()?;
    Ok(ScanPlan {
        scope,
        tree,
        paths,
        split,
    })
}

// Trees split by the fields of their scope, their partitions optimized, and evaluated.
ghost use Rattle.std.specs.Prelude.{◌≡◌, length, IfOk, IfErr, true};
ghost use Rattle.vx_dtype.specs.declared.error.VortexError.TheVariants.{OutOfMemory};
ghost use Rattle.vx_rewrite_core.specs.NormalForms.{NormalForms};
ghost use Rattle.vx_partition.specs.Partitioned.{IsBoundAgain};
ghost use Rattle.vx_query.specs.Queries.{Runs};
ghost use Rattle.vx_partition_laws.specs.Items.{struct_type};
ghost use Rattle.vx_rewrite_rule_laws.specs.Rules.{RuleAt};
ghost use Rattle.vx_tree.specs.Trees.{WellTyped, EachWellTyped, Over};
ghost use Rattle.vx_tree.specs.Views.{bound_of, bounds_of};

use std::alloc::Global;
use vx_dtype::VortexResult;
use vx_eval::apply_bound;
use vx_query_split::{evaluate_split, split_by_fields};
use vx_rewrite::{BoundPartitionedExpr, Optimize};
use vx_tree::{BoundExpression, FieldName};
use vx_value::Column;

// What the tree gives over the batch: split by the fields of the scope that its nodes read, where
// the batch is of structs and these cover the tree, else whole.
pub(crate) fn run_split(
    alloc: Global,
    tree: &BoundExpression,
    batch: &Column,
) -> VortexResult<Column>
    requires well_typed { WellTyped (bound_of tree.now) }
    requires over { Over (bound_of tree.now) batch.now.type }
    ensures { Runs true (bound_of tree.now) batch.now result }
{
    match split_by_fields(alloc, tree, batch.dtype())? {
        Some(split) => {
            let split = optimize_partitions(alloc, split)?;
            let answer = evaluate_split(alloc, batch, &split);
            drop(split);
            answer
        }
        None => apply_bound(alloc, batch, tree),
    }
}

/// The split with its partitions optimized at every node by the standard rules, and its root bound again
/// to what these give. Names and annotations stay.
///
/// Asks a name for each partition, well-typed partitions, and a well-typed root over the struct of their
/// types. Refuses with `OutOfMemory` (1) alone.
pub fn optimize_partitions(
    alloc: Global,
    split: BoundPartitionedExpr<FieldName>,
) -> VortexResult<BoundPartitionedExpr<FieldName>>
    requires count { length split.partition_names ≡ length split.partitions.items }
    requires partitions { EachWellTyped (bounds_of split.partitions.items) }
    requires root { WellTyped (bound_of split.root) }
    requires over { Over (bound_of split.root) (struct_type split.partition_names (bounds_of split.partitions.items)) }
    ensures names { IfOk result (λ p. p.partition_names ≡ split.partition_names) }
    ensures count { IfOk result (λ p. length p.partition_names ≡ length p.partitions.items) }
    ensures forms { IfOk result (λ p. NormalForms RuleAt (bounds_of split.partitions.items) (bounds_of p.partitions.items)) }
    ensures root { IfOk result (λ p. IsBoundAgain (bound_of split.root) (struct_type split.partition_names (bounds_of p.partitions.items)) (bound_of p.root)) }
    ensures memory { IfErr result (λ e. e ≡ OutOfMemory) }
{
    let mut replaced = split;
    let forms = optimized_each(alloc, replaced.partitions.as_slice())?;
    replaced.replace_partitions(alloc, forms)?;
    Ok(replaced)
}

// The partitions, each optimized at every node.
fn optimized_each(
    alloc: Global,
    partitions: &[BoundExpression],
) -> VortexResult<Vec<BoundExpression>>
    requires { EachWellTyped (bounds_of partitions.now) }
    ensures forms { IfOk result (λ forms. NormalForms RuleAt (bounds_of partitions.now) (bounds_of forms.items)) }
    ensures memory { IfErr result (λ e. e ≡ OutOfMemory) }
{
    let mut forms = Vec::with_capacity(alloc, partitions.len())?;
    for i in 0..partitions.len() {
        forms.push(partitions[i].optimize_recursive(alloc)?)?;
    }
    Ok(forms)
}

// Splits evaluated over an array.
ghost use Rattle.std.specs.Prelude.{◌≡◌, length};
ghost use Rattle.vx_dtype.specs.Returns.{ReturnsOrOom};
ghost use Rattle.vx_partition_laws.specs.Items.{struct_type};
ghost use Rattle.vx_query_split.specs.Splits.{part_answers, split_evaluation};
ghost use Rattle.vx_tree.specs.Trees.{EachOver, EachWellTyped, Over, WellTyped};
ghost use Rattle.vx_tree.specs.Views.{bound_of, bounds_of};

use std::alloc::Global;
use vx_array::Array;
use vx_array_build::struct_of;
use vx_array_eval::apply_array;
use vx_dtype::VortexResult;
use vx_partition::BoundPartitionedExpr;
use vx_tree::{BoundExpression, FieldName};

/// What the split gives over the batch, a row for each of the batch's: each partition's array, and the root
/// over the structs that these make, which share their buffers.
///
/// Asks well-typed partitions over the batch's type, a name for each, and a well-typed root over the
/// struct of their types. Refuses with the fault (13 to 15 and 20) of the first partition that faults
/// on the batch, else of the root over the structs, and with `OutOfMemory` (1).
pub fn evaluate_split_array(
    alloc: Global,
    batch: &Array,
    split: &BoundPartitionedExpr<FieldName>,
) -> VortexResult<Array>
    requires names { length split.now.partition_names ≡ length split.now.partitions.items }
    requires partitions { EachWellTyped (bounds_of split.now.partitions.items) }
    requires over { EachOver (bounds_of split.now.partitions.items) batch.now.type }
    requires root { WellTyped (bound_of split.now.root) }
    requires joined { Over (bound_of split.now.root) (struct_type split.now.partition_names (bounds_of split.now.partitions.items)) }
    ensures { ReturnsOrOom (λ a. a) result (split_evaluation split.now.partition_names (bounds_of split.now.partitions.items) (bound_of split.now.root) batch.now) }
{
    let columns = evaluate_each(alloc, batch, split.partitions.as_slice())?;
    let names = split.partition_names.clone()?;
    let joined = struct_of(alloc, names, columns.as_slice(), batch.len(), None)?;
    apply_array(alloc, &joined, &split.root)
}

// An array for each partition.
fn evaluate_each(
    alloc: Global,
    batch: &Array,
    partitions: &[BoundExpression],
) -> VortexResult<Vec<Array>>
    requires well_typed { EachWellTyped (bounds_of partitions.now) }
    requires over { EachOver (bounds_of partitions.now) batch.now.type }
    ensures { ReturnsOrOom (λ columns. columns.items) result (part_answers (bounds_of partitions.now) batch.now) }
{
    let mut columns = Vec::with_capacity(alloc, partitions.len())?;
    for i in 0..partitions.len() {
        columns.push(apply_array(alloc, batch, &partitions[i])?)?;
    }
    Ok(columns)
}

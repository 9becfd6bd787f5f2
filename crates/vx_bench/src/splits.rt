// Trees split by a map of annotations, and other partitions put into a split.
ghost use Rattle.vx_tree.specs.Trees.{WellTyped};
ghost use Rattle.vx_tree.specs.Views.{bound_of};

use std::alloc::Global;
use vx_dtype::{StructFields, VortexError, VortexResult};
use vx_rewrite::{
    BoundPartitionedExpr, covers, descendent_bound_annotations, free_fields,
    partition_bound_annotations,
};
use vx_tree::{BoundExpression, FieldName};

/// The tree split by the map of the fields that its nodes read, which has to cover it.
pub fn by_map(alloc: Global, bound: &BoundExpression, fields: &StructFields) -> VortexResult<()>
    requires { WellTyped (bound_of bound.now) }
{
    drop(split(alloc, bound, fields)?);
    Ok(())
}

/// The same, with each partition put in its own place again.
pub fn replaced(alloc: Global, bound: &BoundExpression, fields: &StructFields) -> VortexResult<()>
    requires { WellTyped (bound_of bound.now) }
{
    let mut split = split(alloc, bound, fields)?;
    if split.partition_names.len() != split.partitions.len() {
        return Err(VortexError::NotBool);
    }
    let mut partitions = Vec::with_capacity(alloc, split.partitions.len())?;
    for partition in split.partitions.iter() {
        partitions.push(partition.clone()?)?;
    }
    split.replace_partitions(alloc, partitions)
}

fn split(
    alloc: Global,
    bound: &BoundExpression,
    fields: &StructFields,
) -> VortexResult<BoundPartitionedExpr<FieldName>>
    requires { WellTyped (bound_of bound.now) }
{
    let read = |node: &BoundExpression| free_fields(alloc, node, fields);
    let map = descendent_bound_annotations(alloc, bound, read)?;
    if !covers(alloc, bound, &map)? {
        return Err(VortexError::NotBool);
    }
    partition_bound_annotations(alloc, bound.clone()?, map)
}

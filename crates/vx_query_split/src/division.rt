// Trees split by the fields of their scope.
ghost use Rattle.std.specs.Prelude.{◌≡◌, IfErr, IfOk};
ghost use Rattle.vx_dtype.specs.declared.error.VortexError.TheVariants.{OutOfMemory};
ghost use Rattle.vx_query_split.specs.Division.{IsSplitOf, parts_of};
ghost use Rattle.vx_tree.specs.Trees.{WellTyped};
ghost use Rattle.vx_tree.specs.Views.{bound_of};
ghost use Rattle.vx_value.specs.Views.{type_of};

use crate::reading::{Reads, read};
use std::alloc::Global;
use vx_dtype::{DType, VortexResult};
use vx_partition::{BoundPartitionedExpr, partition_bound_met};
use vx_tree::{BoundExpression, FieldName};

/// The tree split by the fields of the scope that its nodes read: for each field a partition of what
/// reads it alone, under its name, and the root over these. None exactly where the scope is no
/// struct, or some scope root of the tree lies below no node that reads one field alone.
///
/// Asks a well-typed tree. Refuses with `OutOfMemory` (1) alone. Its cost is linear in the nodes and
/// in the fields of the scope.
pub fn split_by_fields(
    alloc: Global,
    tree: &BoundExpression,
    scope: &DType,
) -> VortexResult<Option<BoundPartitionedExpr<FieldName>>>
    requires { WellTyped (bound_of tree.now) }
    ensures split { IfOk result (λ o. IsSplitOf (type_of scope.now) (bound_of tree.now) (parts_of o)) }
    ensures memory { IfErr result (λ y. y ≡ OutOfMemory) }
{
    let Some(fields) = scope.as_struct_fields_opt() else {
        return Ok(None);
    };
    let names = &fields.names().as_slice()[..fields.nfields()];
    let mut met = Vec::new(alloc);
    let reading = read(Reads::all(names), tree, &mut met)?;
    if !reading.is_covered {
        return Ok(None);
    }
    Ok(Some(partition_bound_met(alloc, tree, met.as_slice())?))
}

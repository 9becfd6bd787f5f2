// The struct that the partitions' results make: its type, and the holes over it.
ghost use Rattle.std.specs.Prelude.{◌≡◌, length, Ok};
ghost use Rattle.vx_value.specs.Returns.{ReturnsOrOom};
ghost use Rattle.vx_value.specs.Views.{type_of};
ghost use Rattle.vx_partition_laws.specs.Items.{struct_type};
ghost use Rattle.vx_partition.specs.Filling.{holes_seen};
ghost use Rattle.vx_partition.specs.Packing.{all_holes};
ghost use Rattle.vx_tree.specs.Trees.{scope};
ghost use Rattle.vx_tree.specs.Views.{bounds_of};

use crate::holes::all_holes;
use crate::pack::Packed;
use std::alloc::Global;
use vx_tree::{
    BoundExpression, DType, FieldNames, Nullability, StructFields, VortexResult, dtypes_of,
};

// The struct type, not nullable, of the partitions' types under these names.
pub(crate) fn joined_dtype(
    alloc: Global,
    names: &FieldNames,
    partitions: &[BoundExpression],
) -> VortexResult<DType>
    requires { length names.now ≡ length partitions.now }
    ensures { ReturnsOrOom type_of result (Ok (struct_type names.now (bounds_of partitions.now))) }
{
    let types = dtypes_of(alloc, partitions)?;
    let fields = StructFields::new(alloc, names.clone()?, types)?;
    Ok(DType::Struct(fields, Nullability::NonNullable))
}

// The holes of the packed pieces, over the scope of that type.
pub(crate) fn joined_holes<A>(
    alloc: Global,
    names: &FieldNames,
    packed: &Packed<A>,
) -> VortexResult<Vec<Vec<BoundExpression>>>
    requires named { length names.now ≡ length packed.now.partitions.items }
    requires pieces_named { length packed.now.names.items ≡ length packed.now.partitions.items }
    ensures { ReturnsOrOom (λ holes. holes_seen holes.items) result (Ok (all_holes (scope (struct_type names.now (bounds_of packed.now.partitions.items))) names.now packed.now.names.items (bounds_of packed.now.partitions.items))) }
{
    let partitions = packed.partitions.as_slice();
    let root = BoundExpression::new_root(joined_dtype(alloc, names, partitions)?);
    let holes = all_holes(alloc, &root, names, packed.names.as_slice(), partitions);
    // By `drop`: to let go of a tree in place takes the proof far longer.
    drop(root);
    holes
}

// Holes, which take the pieces out of their partitions.
ghost use Rattle.std.specs.Prelude.{◌≡◌, length, map, Ok};
ghost use Rattle.vx_value.specs.Returns.{ReturnsOrOom};
ghost use Rattle.vx_value.specs.Views.{type_of};
ghost use Rattle.vx_partition.specs.Filling.{holes_seen};
ghost use Rattle.vx_partition.specs.Packing.{typed_item, holes_of, all_holes};
ghost use Rattle.vx_tree.specs.Nodes.{bound_children_of};
ghost use Rattle.vx_tree.specs.Trees.{node_type};
ghost use Rattle.vx_tree.specs.Views.{bound_of, bounds_of};

use std::alloc::Global;
use vx_tree::{BoundExpression, DType, FieldName, FieldNames, ScalarFnRef, VortexResult};

// The item of that name, of which the type is known.
fn typed_item(
    alloc: Global,
    dtype: &DType,
    name: &FieldName,
    from: &BoundExpression,
) -> VortexResult<BoundExpression>
    ensures { ReturnsOrOom bound_of result (Ok (typed_item (type_of dtype.now) name.now (bound_of from.now))) }
{
    let mut children = Vec::with_capacity(alloc, 1)?;
    children.push(from.clone()?)?;
    let get_item = ScalarFnRef::GetItem(name.clone()?);
    BoundExpression::new_typed(alloc, dtype.clone()?, get_item, children)
}

// The pieces as they are taken out of a partition under their names, as many as both give.
fn holes_of(
    alloc: Global,
    from: &BoundExpression,
    names: &FieldNames,
    pieces: &[BoundExpression],
) -> VortexResult<Vec<BoundExpression>>
    ensures { ReturnsOrOom (λ holes. map bound_of holes.items) result (Ok (holes_of (bound_of from.now) names.now (bounds_of pieces.now))) }
{
    let names = names.as_slice();
    let count = names.len().min(pieces.len());
    let mut holes = Vec::with_capacity(alloc, count)?;
    for i in 0..count {
        holes.push(typed_item(alloc, pieces[i].dtype(), &names[i], from)?)?;
    }
    Ok(holes)
}

// The holes of the partition that is the item of that name.
fn item_holes(
    alloc: Global,
    root: &BoundExpression,
    name: &FieldName,
    piece_names: &FieldNames,
    partition: &BoundExpression,
) -> VortexResult<Vec<BoundExpression>>
    ensures { ReturnsOrOom (λ holes. map bound_of holes.items) result (Ok (holes_of (typed_item (node_type (bound_of partition.now)) name.now (bound_of root.now)) piece_names.now (bound_children_of (bound_of partition.now)))) }
{
    let item = typed_item(alloc, partition.dtype(), name, root)?;
    let holes = holes_of(alloc, &item, piece_names, partition.children());
    // By `drop`: to let go of a tree in place takes the proof far longer.
    drop(item);
    holes
}

// The holes of each partition, which is an item of the root.
pub(crate) fn all_holes(
    alloc: Global,
    root: &BoundExpression,
    names: &FieldNames,
    piece_names: &[FieldNames],
    partitions: &[BoundExpression],
) -> VortexResult<Vec<Vec<BoundExpression>>>
    requires named { length names.now ≡ length partitions.now }
    requires pieces_named { length piece_names.now ≡ length partitions.now }
    ensures { ReturnsOrOom (λ holes. holes_seen holes.items) result (Ok (all_holes (bound_of root.now) names.now piece_names.now (bounds_of partitions.now))) }
{
    let names = names.as_slice();
    let mut holes = Vec::with_capacity(alloc, partitions.len())?;
    for i in 0..partitions.len() {
        holes.push(item_holes(alloc, root, &names[i], &piece_names[i], &partitions[i])?)?;
    }
    Ok(holes)
}

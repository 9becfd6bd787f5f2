// Trees split into partitions: their texts, their partitions replaced, and the rows of the root.
ghost use Rattle.vx_tree.specs.Trees.{WellTyped};
ghost use Rattle.vx_tree.specs.Views.{bound_of};

use crate::scene::Scene;
use crate::told::push_rows;
use std::alloc::Global;
use vx_eval::apply_bound;
use vx_rewrite::{BoundAnnotations, BoundPartitionedExpr, Optimize, partition_bound_annotations};
use vx_tree::Nullability::NonNullable;
use vx_tree::{BoundExpression, Column, FieldName, VortexError, VortexResult};

/// A tree split by fields.
pub type Divided = BoundPartitionedExpr<FieldName>;

/// The tree split by the map.
pub fn divided(
    alloc: Global,
    bound: &BoundExpression,
    map: BoundAnnotations<FieldName>,
) -> VortexResult<Divided>
    requires { WellTyped (bound_of bound.now) }
{
    partition_bound_annotations(alloc, bound.clone()?, map)
}

/// Its text, and the type of its root.
pub fn shown(alloc: Global, whole: &Divided) -> VortexResult<String> {
    let dtype = whole.root.dtype();
    if !is_sound(alloc, whole)? {
        return Ok(format!(in alloc; "{whole} : {dtype}, which isn't well typed or named")?);
    }
    Ok(format!(in alloc; "{whole} : {dtype}")?)
}

// Whether the root and each partition are well typed, and there is a name for each of these.
fn is_sound(alloc: Global, whole: &Divided) -> VortexResult<bool> {
    for partition in whole.partitions.iter() {
        if !partition.is_well_typed(alloc)? {
            return Ok(false);
        }
    }
    let is_named = whole.partition_names.len() == whole.partitions.len();
    Ok(is_named && whole.root.is_well_typed(alloc)?)
}

/// What the root gives over the partitions' columns, for each batch of the scene.
pub fn joined_rows(alloc: Global, scene: &Scene, whole: &Divided) -> VortexResult<String> {
    let mut rows = String::new(alloc);
    for batch in scene.batches.iter() {
        push_rows(alloc, &mut rows, rejoined(alloc, whole, batch))?;
    }
    Ok(rows)
}

// The root over the partitions' columns; `NotBool` where a tree isn't well typed.
fn rejoined(alloc: Global, whole: &Divided, batch: &Column) -> VortexResult<Column> {
    let mut columns = Vec::with_capacity(alloc, whole.partitions.len())?;
    for partition in whole.partitions.iter() {
        columns.push(checked(alloc, batch, partition)?)?;
    }
    let names = whole.partition_names.clone()?;
    if names.len() != columns.len() {
        return Err(VortexError::LengthMismatch);
    }
    let joined = Column::struct_of(alloc, names, columns, batch.len(), NonNullable)?;
    checked(alloc, &joined, &whole.root)
}

// What the tree gives, after a look whether it is well typed.
fn checked(alloc: Global, batch: &Column, tree: &BoundExpression) -> VortexResult<Column> {
    if !tree.is_well_typed(alloc)? {
        return Err(VortexError::NotBool);
    }
    apply_bound(alloc, batch, tree)
}

/// Puts its partitions, optimized, in their place.
pub fn replaced_by_optimized(alloc: Global, whole: &mut Divided) -> VortexResult<()> {
    let mut forms = Vec::with_capacity(alloc, whole.partitions.len())?;
    for partition in whole.partitions.iter() {
        if !partition.is_well_typed(alloc)? {
            return Err(VortexError::NotBool);
        }
        forms.push(partition.optimize_recursive(alloc)?)?;
    }
    replace(alloc, whole, forms)
}

/// Puts the trees in the place of its partitions; `LengthMismatch` where it has not one name for
/// each of those.
pub fn replace(
    alloc: Global,
    whole: &mut Divided,
    partitions: Vec<BoundExpression>,
) -> VortexResult<()> {
    if whole.partition_names.len() != whole.partitions.len() {
        return Err(VortexError::LengthMismatch);
    }
    whole.replace_partitions(alloc, partitions)
}

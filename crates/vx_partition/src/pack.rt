// Partitions: the pieces of each annotation, packed.
ghost use Rattle.std.specs.Prelude.{◌≡◌, ◌∷◌, ◌++◌, [], length, map, Ok, IfOk, IfErr, OnOk};
ghost use Rattle.vx_dtype.specs.declared.error.VortexError.TheVariants.{OutOfMemory};
ghost use Rattle.vx_value.specs.Returns.{ReturnsOrOom};
ghost use Rattle.vx_tree.specs.Views.{bound_of, bounds_of};
ghost use Rattle.vx_partition_laws.specs.Items.{packed};
ghost use Rattle.vx_partition.specs.Collecting.{groups_in};
ghost use Rattle.vx_partition.specs.Packing.{all_names};
ghost use Rattle.vx_partition_laws.specs.Partitions.{piece_names, partition, partitions};

use crate::groups::Groups;
use crate::key::{PartitionKey, piece_name};
use std::alloc::Global;
use vx_tree::{BoundExpression, FieldNames, Nullability, PackOptions, ScalarFnRef, VortexResult};

// The annotations of the groups, the names of their pieces, and the pieces packed.
#[derive(Drop)]
pub(crate) struct Packed<A> {
    pub(crate) annotations: Vec<A>,
    pub(crate) names: Vec<FieldNames>,
    pub(crate) partitions: Vec<BoundExpression>,
}

// A partition for each group, in their order.
pub(crate) fn pack_groups<A: PartitionKey + Drop>(
    alloc: Global,
    groups: Groups<A>,
) -> VortexResult<Packed<A>>
    ensures annotations { IfOk result (λ p. p.annotations.items ≡ map (λ g. g.0) (groups_in groups)) }
    ensures names { IfOk result (λ p. p.names.items ≡ all_names A.text (groups_in groups)) }
    ensures partitions { IfOk result (λ p. bounds_of p.partitions.items ≡ partitions A.text (groups_in groups)) }
    ensures memory { IfErr result (λ y. y ≡ OutOfMemory) }
{
    let annotations = Vec::with_capacity(alloc, groups.len())?;
    let names = Vec::with_capacity(alloc, groups.len())?;
    let partitions = Vec::with_capacity(alloc, groups.len())?;
    let mut packed = Packed {
        annotations,
        names,
        partitions,
    };
    for (annotation, pieces) in groups {
        add_group(alloc, &mut packed, annotation, pieces)?;
    }
    Ok(packed)
}

// One more group, packed behind the others.
fn add_group<A: PartitionKey + Drop>(
    alloc: Global,
    packed: &mut Packed<A>,
    annotation: A,
    pieces: Vec<BoundExpression>,
) -> VortexResult<()>
    ensures annotations { OnOk result (packed.new.annotations.items ≡ packed.old.annotations.items ++ annotation ∷ []) }
    ensures names { OnOk result (packed.new.names.items ≡ packed.old.names.items ++ piece_names (A.text annotation) 0 (map bound_of pieces.items) ∷ []) }
    ensures partitions { OnOk result ((b : _) × (packed.new.partitions.items ≡ packed.old.partitions.items ++ b ∷ []) × (bound_of b ≡ partition A.text (annotation, map bound_of pieces.items))) }
    ensures memory { IfErr result (λ y. y ≡ OutOfMemory) }
{
    let own = piece_names(alloc, &annotation, pieces.as_slice())?;
    packed.partitions.push(pack(alloc, &own, pieces)?)?;
    packed.names.push(own)?;
    packed.annotations.push(annotation)?;
    Ok(())
}

// The names of the key's pieces, by their indices.
fn piece_names<A: PartitionKey>(
    alloc: Global,
    key: &A,
    pieces: &[BoundExpression],
) -> VortexResult<FieldNames>
    ensures { ReturnsOrOom (λ names. names) result (Ok (piece_names (A.text key.now) 0 (map bound_of pieces.now))) }
{
    let mut names = Vec::with_capacity(alloc, pieces.len())?;
    for index in 0..pieces.len() {
        names.push(piece_name(alloc, key, index)?)?;
    }
    FieldNames::new(alloc, names)
}

// The pieces packed under these names, never null.
fn pack(
    alloc: Global,
    names: &FieldNames,
    pieces: Vec<BoundExpression>,
) -> VortexResult<BoundExpression>
    requires { length names.now ≡ length pieces.items }
    ensures { ReturnsOrOom bound_of result (Ok (packed names.now (bounds_of pieces.items))) }
{
    let options = PackOptions {
        names: names.clone()?,
        nullability: Nullability::NonNullable,
    };
    BoundExpression::try_new(alloc, ScalarFnRef::Pack(options), pieces)
}

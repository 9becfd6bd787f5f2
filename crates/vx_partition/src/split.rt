// Bound trees split into partitions.
ghost use Rattle.std.specs.Prelude.{◌≡◌, ◌⊎◌, [], length, map, Err, IfErr, IfOk, IsTrue, None, OnOk, Option, Some};
ghost use Rattle.std.specs.Cmp.Lexicographic.{pointwise};
ghost use Rattle.std.specs.Option.{option_copied};
ghost use Rattle.vx_dtype.specs.declared.error.VortexError.TheVariants.{OutOfMemory};
ghost use Rattle.vx_value.specs.Returns.{ReturnsOrOom};
ghost use Rattle.vx_rewrite_analysis.specs.Answered.{root_of, tree_of, AreAnswered};
ghost use Rattle.vx_rewrite_analysis.specs.Covers.{has_single, Covered};
ghost use Rattle.vx_rewrite_analysis.specs.Reached.{IsNodeOf};
ghost use Rattle.vx_rewrite_analysis.specs.Refusals.{SaysBy, first_refusal, MeetsNoRefusal};
ghost use Rattle.vx_partition.specs.Collecting.{groups_in, SameGroups, marks_of};
ghost use Rattle.vx_partition.specs.Filling.{filled};
ghost use Rattle.vx_partition.specs.Gathered.{gathered_map};
ghost use Rattle.vx_partition.specs.Only.{annotations_met, only_annotation};
ghost use Rattle.vx_partition.specs.Packing.{all_holes, all_names};
ghost use Rattle.vx_partition.specs.Partitioned.{free_names, EquallyMany};
ghost use Rattle.vx_partition.specs.Splitting.{AnnotationMap, IsMapOf, IsPartitioned, IsSplitBy, IsSplitByPieces, IsTakenBySome};
ghost use Rattle.vx_partition_laws.specs.Holes.{recombination};
ghost use Rattle.vx_partition_laws.specs.Items.{struct_type};
ghost use Rattle.vx_partition_laws.specs.Partitions.{partitions, partition_names};
ghost use Rattle.vx_partition_laws.specs.Pieces.{pieces, annotations_of, groups};
ghost use Rattle.vx_tree.specs.Trees.{BoundTree, scope, WellTyped};
ghost use Rattle.vx_tree.specs.Views.{bound_of, bounds_of};

use crate::collect::collect;
use crate::fill::fill;
use crate::groups::Groups;
use crate::joined::joined_holes;
use crate::key::PartitionKey;
use crate::mark::Mark;
use crate::met::meet;
use crate::names::free_names;
use crate::numbered::{found_each, meet_numbered};
use crate::pack::pack_groups;
use crate::partitioned::BoundPartitionedExpr;
use indexmap::IndexMap;
use std::alloc::Global;
use vx_rewrite_analysis::{AnsweredNodes, BoundAnnotations};
use vx_tree::{BoundExpression, FieldNames, VortexResult};

/// The tree split by what the closure annotates its nodes with: as
/// [`partition_bound_annotations`] splits it by the map of
/// [`vx_rewrite_analysis::descendent_bound_annotations`], which isn't made. Takes time linear in the nodes, in
/// expectation, beside that of the closure.
///
/// Refuses with what the closure refuses, the first that is met, else with `PartitionNameTaken` (17)
/// exactly where two annotations of the pieces have one field name, and with `OutOfMemory` (1).
pub fn partition_bound<
    A: PartitionKey + Drop,
    F: Fn(&BoundExpression) -> VortexResult<Vec<A>> + Drop,
>(alloc: Global, e: BoundExpression, annotate: F) -> VortexResult<BoundPartitionedExpr<A>>
    requires callable { (x : _) → IsNodeOf (bound_of x.now) (bound_of e) → F.pre annotate x }
    requires well_typed { WellTyped (bound_of e) }
    ensures split { IfOk result (λ p. (m : AnnotationMap A) × IsMapOf A.eq (F.post annotate) (bound_of e) m
        × IsSplitBy A.eq A.text A.name m (bound_of e) p.partition_names (bounds_of p.partitions.items) p.partition_annotations.items (bound_of p.root)) }
    ensures counts { IfOk result (λ p. EquallyMany p.partition_names p.partition_annotations.items p.partitions.items) }
    ensures refusal { IfErr result (λ y. (y ≡ OutOfMemory) ⊎ ((x : _) × IsNodeOf (bound_of x.now) (bound_of e) × F.post annotate x (Err y)) ⊎ IsTakenBySome A.eq A.name (F.post annotate) (bound_of e) y) }
    ensures first { IfErr result (λ y. (said : _) → SaysBy A.eq (F.post annotate) said → (y ≡ OutOfMemory) ⊎ (first_refusal said (bound_of e) ≡ Some y)
        ⊎ ((first_refusal said (bound_of e) ≡ None) × IsTakenBySome A.eq A.name (F.post annotate) (bound_of e) y)) }
    ensures unrefused { OnOk result (MeetsNoRefusal A.eq (F.post annotate) (bound_of e)) }
{
    // By `drop`: to let go of a tree in place takes the proof far longer.
    let split = split_by_closure(alloc, &e, &annotate);
    drop(e);
    split
}

// The tree split by what the closure annotates its nodes with.
fn split_by_closure<A: PartitionKey + Drop, F: Fn(&BoundExpression) -> VortexResult<Vec<A>>>(
    alloc: Global,
    e: &BoundExpression,
    annotate: &F,
) -> VortexResult<BoundPartitionedExpr<A>>
    requires callable { (x : _) → IsNodeOf (bound_of x.now) (bound_of e.now) → F.pre annotate.now x }
    requires well_typed { WellTyped (bound_of e.now) }
    ensures split { IfOk result (λ p. (m : AnnotationMap A) × IsMapOf A.eq (F.post annotate.now) (bound_of e.now) m
        × IsSplitBy A.eq A.text A.name m (bound_of e.now) p.partition_names (bounds_of p.partitions.items) p.partition_annotations.items (bound_of p.root)) }
    ensures counts { IfOk result (λ p. EquallyMany p.partition_names p.partition_annotations.items p.partitions.items) }
    ensures refusal { IfErr result (λ y. (y ≡ OutOfMemory) ⊎ ((x : _) × IsNodeOf (bound_of x.now) (bound_of e.now) × F.post annotate.now x (Err y)) ⊎ IsTakenBySome A.eq A.name (F.post annotate.now) (bound_of e.now) y) }
    ensures first { IfErr result (λ y. (said : _) → SaysBy A.eq (F.post annotate.now) said → (y ≡ OutOfMemory) ⊎ (first_refusal said (bound_of e.now) ≡ Some y)
        ⊎ ((first_refusal said (bound_of e.now) ≡ None) × IsTakenBySome A.eq A.name (F.post annotate.now) (bound_of e.now) y)) }
    ensures unrefused { OnOk result (MeetsNoRefusal A.eq (F.post annotate.now) (bound_of e.now)) }
{
    match AnsweredNodes::new(alloc, e, annotate) {
        Ok(nodes) => {
            let split = split_by_numbers(alloc, e, &nodes);
            drop(nodes);
            split
        }
        Err(refusal) => Err(refusal),
    }
}

// The tree split by what a closure answered at its nodes, by their numbers.
fn split_by_numbers<A: PartitionKey + Drop>(
    alloc: Global,
    e: &BoundExpression,
    nodes: &AnsweredNodes<'_, A>,
) -> VortexResult<BoundPartitionedExpr<A>>
    requires well_typed { WellTyped (bound_of e.now) }
    requires numbered { AreAnswered nodes.now }
    requires root { tree_of nodes.now (root_of nodes.now) ≡ bound_of e.now }
    ensures names { ReturnsOrOom (λ p. p.partition_names) result (free_names (partition_names A.name (groups A.eq (only_annotation (gathered_map A.eq nodes.now)) (bound_of e.now)))) }
    ensures counts { IfOk result (λ p. EquallyMany p.partition_names p.partition_annotations.items p.partitions.items) }
    ensures split { IfOk result (λ p. IsSplitBy A.eq A.text A.name (gathered_map A.eq nodes.now) (bound_of e.now) p.partition_names (bounds_of p.partitions.items) p.partition_annotations.items (bound_of p.root)) }
{
    let found = found_each(alloc, nodes)?;
    let mut met = Vec::new(alloc);
    meet_numbered(nodes, nodes.root(), found.as_slice(), &mut met)?;
    partition_bound_met(alloc, e, met.as_slice())
}

/// The tree split by the annotations of its nodes: the pieces of each annotation packed, and the
/// root, which has holes in their place. A piece is an outermost node that has exactly one
/// annotation in the map; partitions stand in the order in which their annotations first appear.
///
/// Where the map covers the tree ([`vx_rewrite_analysis::covers`]) the root over the partitions' results
/// gives what the tree does. A scope root that no piece covers keeps its old type.
///
/// Refuses with `PartitionNameTaken` (17) exactly where two annotations of the pieces have one field
/// name, with the first name that an earlier one has, and with `OutOfMemory` (1).
pub fn partition_bound_annotations<A: PartitionKey + Drop>(
    alloc: Global,
    e: BoundExpression,
    annotations: BoundAnnotations<A>,
) -> VortexResult<BoundPartitionedExpr<A>>
    requires { WellTyped (bound_of e) }
    ensures names { ReturnsOrOom (λ p. p.partition_names) result (free_names (partition_names A.name (groups A.eq (only_annotation annotations) (bound_of e)))) }
    ensures partitions { IfOk result (λ p. bounds_of p.partitions.items ≡ partitions A.text (groups A.eq (only_annotation annotations) (bound_of e))) }
    ensures annotations { IfOk result (λ p. IsTrue (pointwise A.eq p.partition_annotations.items (annotations_of A.eq (pieces (only_annotation annotations) (bound_of e))))) }
    ensures root { IfOk result (λ p. bound_of p.root ≡ recombination A.eq A.text A.name (only_annotation annotations) (bound_of e)) }
    ensures counts { IfOk result (λ p. EquallyMany p.partition_names p.partition_annotations.items p.partitions.items) }
    ensures partitioned { IfOk result (λ p. IsPartitioned (Covered (has_single annotations) (bound_of e)) p.partition_names (bounds_of p.partitions.items) (bound_of p.root) (bound_of e)) }
{
    let split = split_by_map(alloc, &e, &annotations);
    drop(e);
    split
}

// The tree split by the map.
fn split_by_map<A: PartitionKey + Drop>(
    alloc: Global,
    e: &BoundExpression,
    annotations: &BoundAnnotations<A>,
) -> VortexResult<BoundPartitionedExpr<A>>
    requires { WellTyped (bound_of e.now) }
    ensures names { ReturnsOrOom (λ p. p.partition_names) result (free_names (partition_names A.name (groups A.eq (only_annotation annotations.now) (bound_of e.now)))) }
    ensures counts { IfOk result (λ p. EquallyMany p.partition_names p.partition_annotations.items p.partitions.items) }
    ensures split { IfOk result (λ p. IsSplitBy A.eq A.text A.name annotations.now (bound_of e.now) p.partition_names (bounds_of p.partitions.items) p.partition_annotations.items (bound_of p.root)) }
{
    let mut met = Vec::new(alloc);
    meet(e, annotations, &mut met)?;
    partition_bound_met(alloc, e, met.as_slice())
}

/// The tree split by the annotations of its nodes, as [`partition_bound_annotations`] splits it by a
/// map: `met` has the annotation of each node that has exactly one and None of any other, a node
/// before its children and these from left to right, where below a node with one annotation no node
/// is looked at. Its cost is linear in the nodes.
///
/// Refuses with `PartitionNameTaken` (17) exactly where two annotations of the pieces have one field
/// name, with the first name that an earlier one has, and with `OutOfMemory` (1).
pub fn partition_bound_met<A: PartitionKey + Drop>(
    alloc: Global,
    e: &BoundExpression,
    met: &[Option<&A>],
) -> VortexResult<BoundPartitionedExpr<A>>
    requires { WellTyped (bound_of e.now) }
    ensures names { (only : BoundTree → Option A) → map option_copied met.now ≡ annotations_met only (bound_of e.now) →
        ReturnsOrOom (λ p. p.partition_names) result (free_names (partition_names A.name (groups A.eq only (bound_of e.now)))) }
    ensures counts { IfOk result (λ p. EquallyMany p.partition_names p.partition_annotations.items p.partitions.items) }
    ensures split { (only : BoundTree → Option A) → map option_copied met.now ≡ annotations_met only (bound_of e.now) →
        IfOk result (λ p. IsSplitByPieces A.eq A.text A.name only (bound_of e.now) p.partition_names (bounds_of p.partitions.items) p.partition_annotations.items (bound_of p.root)) }
{
    let (groups, marks) = collected(alloc, e, met)?;
    let names = free_names(alloc, &groups)?;
    put_together(alloc, e, names, groups, marks.as_slice())
}

// The groups of the tree's pieces, and its marks.
fn collected<A: PartitionKey + Drop>(
    alloc: Global,
    e: &BoundExpression,
    met: &[Option<&A>],
) -> VortexResult<(Groups<A>, Vec<Mark>)>
    ensures found { IfOk result (λ r. (only : BoundTree → Option A) → map option_copied met.now ≡ annotations_met only (bound_of e.now) → SameGroups A.eq (groups_in r.0) (groups A.eq only (bound_of e.now))) }
    ensures marks { IfOk result (λ r. (only : BoundTree → Option A) → map option_copied met.now ≡ annotations_met only (bound_of e.now) → r.1.items ≡ marks_of A.eq only [] (bound_of e.now)) }
    ensures memory { IfErr result (λ y. y ≡ OutOfMemory) }
{
    let mut groups = IndexMap::new(alloc);
    let mut marks = Vec::new(alloc);
    collect(alloc, e, &mut met.iter(), &mut groups, &mut marks)?;
    Ok((groups, marks))
}

// The partitions of the groups under these names, and the tree over them as its marks say.
fn put_together<A: PartitionKey + Drop>(
    alloc: Global,
    e: &BoundExpression,
    names: FieldNames,
    groups: Groups<A>,
    marks: &[Mark],
) -> VortexResult<BoundPartitionedExpr<A>>
    requires { length names ≡ length (groups_in groups) }
    ensures names { IfOk result (λ p. p.partition_names ≡ names) }
    ensures counts { IfOk result (λ p. EquallyMany p.partition_names p.partition_annotations.items p.partitions.items) }
    ensures annotations { IfOk result (λ p. p.partition_annotations.items ≡ map (λ g. g.0) (groups_in groups)) }
    ensures partitions { IfOk result (λ p. bounds_of p.partitions.items ≡ partitions A.text (groups_in groups)) }
    ensures root { IfOk result (λ p. (rest : _) × (filled (all_holes (scope (struct_type names (partitions A.text (groups_in groups)))) names (all_names A.text (groups_in groups)) (partitions A.text (groups_in groups))) (bound_of e.now) marks.now ≡ (bound_of p.root, rest))) }
    ensures memory { IfErr result (λ y. y ≡ OutOfMemory) }
{
    let packed = pack_groups(alloc, groups)?;
    let holes = joined_holes(alloc, &names, &packed)?;
    Ok(BoundPartitionedExpr {
        root: fill(alloc, e, &mut marks.iter(), holes.as_slice())?,
        partitions: packed.partitions,
        partition_names: names,
        partition_annotations: packed.annotations,
    })
}

// A tree split into partitions, and the root that puts them together.
ghost use Rattle.std.specs.Prelude.{◌≡◌, ◌≢◌, length, Ok, Err, OnOk, OnErr, option_map, MatchResult};
ghost use Rattle.vx_value.specs.Returns.{ReturnsOrOom};
ghost use Rattle.vx_dtype.specs.declared.error.VortexError.TheVariants.{OutOfMemory, PartitionCount};
ghost use Rattle.vx_rewrite_core.specs.Keeps.{KeepsEach};
ghost use Rattle.vx_partition.specs.Partitioned.{EquallyMany, IsBoundAgain, StillRecombines};
ghost use Rattle.vx_tree.specs.Trees.{WellTyped, Over, unbound, typed, node_type};
ghost use Rattle.vx_tree.specs.Views.{bound_of, bounds_of};
ghost use Rattle.vx_partition_laws.specs.Items.{struct_type, tree_named};

use crate::joined::joined_dtype;
use crate::key::PartitionKey;
use std::alloc::Global;
use vx_tree::{BoundExpression, FieldNames, VortexError, VortexResult};

/// A tree split into partitions: over the struct of their results the root gives what the tree did.
#[derive(Debug, Drop)]
pub struct BoundPartitionedExpr<A> {
    /// The tree with holes, over the struct of the partitions.
    pub root: BoundExpression,
    /// For each annotation its pieces, packed.
    pub partitions: Vec<BoundExpression>,
    /// The field name of each partition.
    pub partition_names: FieldNames,
    /// The annotation of each partition.
    pub partition_annotations: Vec<A>,
}

impl<A: PartitionKey> BoundPartitionedExpr<A> {
    /// The first partition whose name is the annotation's field name, None exactly where there is
    /// none. Refuses with `OutOfMemory` (1) alone.
    pub fn find_partition(
        &self,
        alloc: Global,
        annotation: &A,
    ) -> VortexResult<Option<&BoundExpression>>
        ensures { ReturnsOrOom (λ o. option_map (λ b. bound_of b.now) o) result (Ok (tree_named (A.name annotation.now) self.now.partition_names (bounds_of self.now.partitions.items))) }
    {
        let name = annotation.field_name(alloc)?;
        match self.partition_names.find(&name) {
            Some(i) => Ok(self.partitions.get(i)),
            None => Ok(None),
        }
    }
}

impl<A: Drop> BoundPartitionedExpr<A> {
    /// Other partitions in place of these, with the same names and annotations, and the root bound
    /// to the struct type of theirs. Asks as many names as partitions.
    ///
    /// Over partitions that keep the old ones it is refused for memory alone, the root's type is no
    /// wider, and what was recombined still is.
    ///
    /// Refuses with `PartitionCount` (16) exactly where their number differs, else exactly where the
    /// root has no type over them, with its first refusal (2, 4 to 11), and with `OutOfMemory` (1).
    /// Refused, it changes nothing.
    pub fn replace_partitions(
        &mut self,
        alloc: Global,
        partitions: Vec<BoundExpression>,
    ) -> VortexResult<()>
        requires { length self.old.partition_names ≡ length self.old.partitions.items }
        ensures count { length partitions.items ≢ length self.old.partitions.items →
            result ≡ Err (PartitionCount (length self.old.partitions.items) (length partitions.items)) }
        ensures typed { length partitions.items ≡ length self.old.partitions.items →
            ReturnsOrOom (λ done. node_type (bound_of self.new.root)) result (typed (unbound (bound_of self.old.root)) (struct_type self.old.partition_names (bounds_of partitions.items))) }
        ensures root { OnOk result (IsBoundAgain (bound_of self.old.root) (struct_type self.old.partition_names (bounds_of partitions.items)) (bound_of self.new.root)) }
        ensures partitions { OnOk result (self.new.partitions ≡ partitions) }
        ensures names { self.new.partition_names ≡ self.old.partition_names }
        ensures annotations { self.new.partition_annotations ≡ self.old.partition_annotations }
        ensures counts { EquallyMany self.old.partition_names self.old.partition_annotations.items self.old.partitions.items →
            EquallyMany self.new.partition_names self.new.partition_annotations.items self.new.partitions.items }
        ensures unchanged { OnErr result (self.new ≡ self.old) }
        ensures kept { KeepsEach (bounds_of self.old.partitions.items) (bounds_of partitions.items) →
            WellTyped (bound_of self.old.root) →
            Over (bound_of self.old.root) (struct_type self.old.partition_names (bounds_of self.old.partitions.items)) →
            MatchResult result (λ done. StillRecombines (bounds_of self.old.partitions.items) (bounds_of partitions.items) (bound_of self.old.root) (bound_of self.new.root)) (λ e. e ≡ OutOfMemory) }
    {
        let expected = self.partitions.len();
        let got = partitions.len();
        if got != expected {
            return Err(VortexError::PartitionCount { expected, got });
        }
        let scope = joined_dtype(alloc, &self.partition_names, partitions.as_slice())?;
        let root = self.root.rebind(alloc, &scope)?;
        // By `drop`: to let go of a tree in place takes the proof far longer.
        drop(std::mem::replace(&mut self.root, root));
        self.partitions = partitions;
        Ok(())
    }
}

// Laws of recombination, as functions without a body.
ghost use Rattle.vx_partition_laws.specs.Recombining.{SplitsRecombine};
ghost use Rattle.vx_partition_laws.specs.Replacing.{ReplacedAreTyped, ReplacedRecombine};

/// A well-typed tree is split by every map of its nodes to annotations: its partitions and the tree
/// with holes are well typed, the latter with the tree's type. Where each scope root lies at or below
/// a piece, the partitions and the root over their values fault only where the tree does, and have
/// its meaning. It asks that the partitions' names differ, and is the same for every text and name
/// that equal annotations share.
pub fn splits_recombine<A: Eq>()
    ensures { SplitsRecombine A.eq }
{}

/// Over partitions that keep the old ones the root has a type, and no wider one: so binding it
/// there is refused for memory alone.
pub fn replaced_are_typed()
    ensures { ReplacedAreTyped }
{}

/// A root that was bound again over partitions that keep the old ones recombines them.
pub fn replaced_recombine()
    ensures { ReplacedRecombine }
{}

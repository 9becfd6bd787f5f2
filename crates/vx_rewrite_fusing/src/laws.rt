// Laws of merges, as functions without a body.
ghost use Rattle.vx_rewrite_fusing.specs.Laws.{FusedStays, FusingIsUnique, MergeShortens, MergesEnd, MergesKeep, MergeStaysFused};

/// Any number of merges keeps the tree, with an equal type.
pub fn merges_keep()
    ensures { MergesKeep }
{}

/// Nothing is merged in a tree in which no And has two mergeable conjuncts.
pub fn fused_stays()
    ensures { FusedStays }
{}

/// A merge makes no two mergeable conjuncts below its And.
pub fn merge_stays_fused()
    ensures { MergeStaysFused }
{}

/// A merge leaves one conjunct less.
pub fn merge_shortens()
    ensures { MergeShortens }
{}

/// There are no more merges than Ands.
pub fn merges_end()
    ensures { MergesEnd }
{}

/// Merges that leave no two mergeable conjuncts give one and the same tree, whatever their order.
pub fn fusing_is_unique()
    ensures { FusingIsUnique }
{}

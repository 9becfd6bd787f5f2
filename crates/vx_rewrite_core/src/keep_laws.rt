// Laws of keeping, as functions without a body.
ghost use Rattle.vx_rewrite_core.specs.Keeps.{KeepsIsReflexive, KeepsIsTransitive, KeepsTheMeaning, KeepsUnderNodes};

/// A well-typed tree keeps itself.
pub fn keeps_is_reflexive()
    ensures { KeepsIsReflexive }
{}

/// What keeps a tree that keeps another keeps the other. So any list of passes, each of which keeps
/// its tree, keeps the first tree's meaning.
pub fn keeps_is_transitive()
    ensures { KeepsIsTransitive }
{}

/// What keeps a tree means what the tree's source does, in every row of each batch on which the tree
/// doesn't fault.
pub fn keeps_the_meaning()
    ensures { KeepsTheMeaning }
{}

/// A node whose children are replaced by trees that keep them is typed anew, and keeps what it was.
pub fn keeps_under_nodes()
    ensures { KeepsUnderNodes }
{}

// Laws of bounds and verdicts, as functions without a body.
ghost use Rattle.vx_prune_tree.specs.Verdicts.{MoreIsAsSure, MoreNarrows};

/// Where more is known of a chunk, the bounds of each tree are within those of where less is known.
pub fn more_narrows()
    ensures { MoreNarrows }
{}

/// Where more is known of a chunk, no verdict is less sure: `NoRow` stays, and `EveryRow` stays or
/// becomes `NoRow`, which it may where what is known leaves no value at all.
pub fn more_is_as_sure()
    ensures { MoreIsAsSure }
{}

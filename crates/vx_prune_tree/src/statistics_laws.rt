// Laws of what is known of chunks, as functions without a body.
ghost use Rattle.vx_prune_tree.specs.Laws.{BoundsHold, BoundsNarrow, LessIsTrue, ReadIsTrue};

/// Where what is known of a chunk is true of some rows, the value of each of them along a path is within
/// the bounds of what is known of the path.
pub fn bounds_hold()
    ensures { BoundsHold }
{}

/// The more is known of a chunk, the narrower are the bounds.
pub fn bounds_narrow()
    ensures { BoundsNarrow }
{}

/// Where more is known of a chunk, and is true of some rows, what is known less is true of them.
pub fn less_is_true()
    ensures { LessIsTrue }
{}

/// What is read off rows along paths is true of them.
pub fn read_is_true()
    ensures { ReadIsTrue }
{}

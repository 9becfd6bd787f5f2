// Laws of bounds, as functions without a body.
ghost use Rattle.vx_prune_bounds.specs.Laws.{BoundsAreOrdered, WiderBoundsContainMore, ValuesAreBounds, JoinIsTheNarrowestAroundBoth, MeetIsTheWidestWithinBoth};

/// Proper bounds, of no value or with the least end at most the greatest, say all that they say themselves, and what says all that
/// others say says all that those say of third ones.
pub fn bounds_are_ordered()
    ensures { BoundsAreOrdered }
{}

/// A value within bounds is within all bounds that say less.
pub fn wider_bounds_contain_more()
    ensures { WiderBoundsContainMore }
{}

/// A value is within bounds exactly where the bounds of this value alone say all that they say.
pub fn values_are_bounds()
    ensures { ValuesAreBounds }
{}

/// The join of two bounds is around both, and within all bounds that are around both.
pub fn join_is_the_narrowest_around_both()
    ensures { JoinIsTheNarrowestAroundBoth }
{}

/// The meet of two bounds is within both, and around all bounds that are within both.
pub fn meet_is_the_widest_within_both()
    ensures { MeetIsTheWidestWithinBoth }
{}

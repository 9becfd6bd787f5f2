// What typing, operators and patterns promise.
ghost use Rattle.vx_fn.specs.Laws.{LikeIsDecided, MatchesIsDecided, SwappedOverExchangedOperands, TypingIsMonotone, TypingIsTheRelation};

/// The typing function gives the types of the typing relation, and no others.
pub fn typing_is_the_relation()
    ensures { TypingIsTheRelation }
{}

/// Children of narrower types are typed again, with a narrower type.
pub fn typing_is_monotone()
    ensures { TypingIsMonotone }
{}

/// The test of a pattern by search decides the relation by cuts, and so whether a text is like a pattern.
pub fn matches_is_decided()
    ensures parts { MatchesIsDecided }
    ensures like { LikeIsDecided }
{}

/// The swapped operator, if there is one, gives the operator's value over exchanged operands.
pub fn swapped_over_exchanged_operands()
    ensures { SwappedOverExchangedOperands }
{}

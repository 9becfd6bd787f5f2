// Laws of any sets of rules, as functions without a body.
ghost use Rattle.vx_rewrite_core.specs.Sets.{Functional, NormalFormIsOne, TogetherLawful, TogetherNormal};

use crate::rule::Rule;

/// Two sets of rules, each of which takes its new children from below the root and gives nothing at a
/// literal, make one such set together, and it is lawful: what one of them leaves normal below the
/// root the other can't undo.
pub fn two_sets_are_lawful<R: Rule, S: Rule>()
    ensures { (first : R) (second : S) → TogetherLawful (R.gives first) (S.gives second) }
{}

/// What is optimized by two sets together is optimized by the first.
pub fn normal_under_both<R: Rule, S: Rule>()
    ensures { (first : R) (second : S) → TogetherNormal (R.gives first) (S.gives second) }
{}

/// Where at most one tree is given at a node, a tree that is normal below its root has one normal
/// form: whatever steps are taken until no rule fits, they end alike.
pub fn normal_form_is_one<R: Rule>()
    ensures { (rules : R) → Functional (R.gives rules) → NormalFormIsOne (R.gives rules) }
{}

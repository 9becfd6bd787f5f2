// Laws of steps by lawful rules, as functions without a body.
ghost use Rattle.vx_rewrite_core.specs.Laws.{StepsKeep, NormalIsFinal};

use crate::rule::Rule;

/// Steps of lawful rules, at any nodes, lead to a tree that keeps the first, and each takes some of
/// its weight. So whatever is reached by steps keeps the meaning, and no tree takes more steps than
/// it weighs.
pub fn steps_keep<R: Rule>()
    ensures { (rules : R) → StepsKeep (R.gives rules) }
{}

/// A tree at no node of which a rule fits is its only normal form: optimizing what was optimized
/// gives an equal tree.
pub fn normal_is_final<R: Rule>()
    ensures { (rules : R) → NormalIsFinal (R.gives rules) }
{}

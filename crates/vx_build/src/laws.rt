// Laws of collects.
ghost use Rattle.vx_fn.specs.Functions.{Operation, and_also, or_else};
ghost use Rattle.vx_build.specs.Collects.{paired_trees, paired_bounds, CollectsTruthsAlone};
ghost use Rattle.vx_build.specs.Rounds.{CollectsInOrder};

/// What `and_collect` and `or_collect` give joins the items in their order, with at most as many joins
/// above each as the rounded-up binary logarithm of their number; it is None for no items alone.
pub fn collects_join_in_order()
    ensures unbound { (op : Operation) → CollectsInOrder (paired_trees op) }
    ensures bound { (op : Operation) → CollectsInOrder (paired_bounds op) }
{}

/// At least two bound items are collected by And or Or exactly where each is of type Bool; else the
/// refusal is `NotBool` (7).
pub fn collects_take_truths_alone()
    ensures ands { CollectsTruthsAlone and_also }
    ensures ors { CollectsTruthsAlone or_else }
{}

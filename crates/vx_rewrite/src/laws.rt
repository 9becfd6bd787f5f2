// The law of passes, as a function without a body, and the laws of all rewriting, which are handed on.
ghost use Rattle.vx_rewrite.specs.Laws.{PassesKeep};

pub use vx_partition::field_names_are_free;
pub use vx_partition_laws::{replaced_are_typed, replaced_recombine, splits_recombine};
pub use vx_rewrite_core::{
    keeps_is_reflexive, keeps_is_transitive, keeps_the_meaning, keeps_under_nodes,
    normal_form_is_one, normal_is_final, normal_under_both, steps_keep, two_sets_are_lawful,
};
pub use vx_rewrite_fusing::{
    fused_stays, fusing_is_unique, merge_shortens, merge_stays_fused, merges_end, merges_keep,
};
pub use vx_rewrite_rule_laws::{
    branch_normal_form_is_one, branch_normal_is_normal, branch_rules_are_functional,
    branch_rules_are_modest, branch_rules_keep, branch_rules_lighten, branch_rules_stay_normal,
    branches_are_decided, folding_normal_form_is_one, folding_normal_is_normal,
    folding_rules_are_functional, folding_rules_are_modest, folding_rules_keep,
    folding_rules_lighten, folding_rules_stay_normal, folds_keep, rules_are_decided,
    rules_are_functional, rules_are_modest, rules_keep, rules_lighten, rules_stay_normal,
};

/// Whatever a list of passes answers for a well-typed tree keeps it.
pub fn passes_keep()
    ensures { PassesKeep }
{}

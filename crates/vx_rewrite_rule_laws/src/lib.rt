// The built-in rules as relations, and their laws: the standard ones, those of a CASE, and folding.
#![tactic(auto)]

mod branch_laws;
mod folding_laws;
mod standard_laws;

pub use branch_laws::{
    branch_normal_form_is_one, branch_normal_is_normal, branch_rules_are_functional,
    branch_rules_are_modest, branch_rules_keep, branch_rules_lighten, branch_rules_stay_normal,
    branches_are_decided,
};
pub use folding_laws::{
    folding_normal_form_is_one, folding_normal_is_normal, folding_rules_are_functional,
    folding_rules_are_modest, folding_rules_keep, folding_rules_lighten, folding_rules_stay_normal,
    folds_keep,
};
pub use standard_laws::{
    rules_are_decided, rules_are_functional, rules_are_modest, rules_keep, rules_lighten,
    rules_stay_normal,
};

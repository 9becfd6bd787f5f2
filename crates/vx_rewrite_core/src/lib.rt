// What a rewritten tree keeps, what makes a set of rules lawful, the optimizer for any lawful set, and what sets share.
#![tactic(auto)]

mod keep_laws;
mod nodes;
mod optimizer_laws;
mod root;
mod rule;
mod rule_set_laws;
mod whole;

pub use keep_laws::{
    keeps_is_reflexive, keeps_is_transitive, keeps_the_meaning, keeps_under_nodes,
};
pub use nodes::{as_type, copies, first_two, literal_value, null_of, only, pair, triple};
pub use optimizer_laws::{normal_is_final, steps_keep};
pub use root::{optimize_root, optimized_root};
pub use rule::Rule;
pub use rule_set_laws::{normal_form_is_one, normal_under_both, two_sets_are_lawful};
pub use whole::{optimize_with, optimized};

// The constructors of expressions, unbound and bound.
#![tactic(auto)]

pub mod bound;
mod choices;
mod collects;
mod fields;
mod laws;
mod lists;
mod node;
mod nulls;
mod operands;
mod operators;
mod rounds;
mod texts;
mod values;

pub use choices::{case_when, case_when_no_else, mask, nested_case_when, zip_expr};
pub use collects::{and_collect, or_collect};
pub use fields::{col, get_item, is_root, pack, root, select, select_exclude};
pub use laws::{collects_join_in_order, collects_take_truths_alone};
pub use lists::list_contains;
pub use nulls::{fill_null, is_not_null, is_null};
pub use operands::case_operands;
pub use operators::{
    and, between, binary, checked_add, checked_div, checked_mul, checked_rem, checked_sub, eq, gt,
    gt_eq, lt, lt_eq, not, not_eq, or,
};
pub use texts::{byte_length, ilike, like, not_ilike, not_like, starts_with};
pub use values::{cast, lit};

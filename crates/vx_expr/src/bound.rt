//! Trees that are bound to a scope, with the type of each node, and their constructors.
pub use vx_forms::bound::{
    and, and_collect, between, binary, byte_length, case_when, case_when_no_else, cast,
    checked_add, checked_div, checked_mul, checked_rem, checked_sub, col, eq, fill_null, get_item,
    gt, gt_eq, ilike, is_not_null, is_null, like, list_contains, lit, lt, lt_eq, mask,
    nested_case_when, not, not_eq, not_ilike, not_like, or, or_collect, pack, root, select,
    select_exclude, starts_with, zip_expr,
};
pub use vx_tree::{BoundExpression, ExactBoundExpr, binding_is_unique, bound_means_its_source};

// Trees in short forms: names, literals and operands as they come, one `?` a tree.
#![tactic(auto)]

mod applied;
pub mod bound;
mod choices;
mod collects;
mod columns;
mod fields;
mod floating_numbers;
mod lists;
mod literals;
mod macros;
mod names;
mod native;
mod nulls;
mod operands;
mod operators;
mod paths;
mod replacing;
mod scalars;
mod texts;
mod types;
mod values;
mod whole_numbers;

pub use applied::apply;
pub use choices::{case_when, case_when_no_else, mask, nested_case_when, zip_expr};
pub use collects::{and_collect, or_collect};
pub use columns::{column, column_of, struct_column};
pub use fields::{col, get_item, pack, select, select_exclude};
pub use lists::list_contains;
pub use literals::{date, decimal, timestamp};
pub use names::{IntoFieldName, IntoFieldNames};
pub use native::Native;
pub use nulls::{fill_null, is_not_null, is_null};
pub use operands::Operand;
pub use operators::{
    and, between, binary, checked_add, checked_div, checked_mul, checked_rem, checked_sub, eq, gt,
    gt_eq, lt, lt_eq, not, not_eq, or,
};
pub use paths::field;
pub use replacing::replace_nodes;
pub use scalars::{IntoScalar, scalar, struct_row};
pub use texts::{byte_length, ilike, like, not_ilike, not_like, starts_with};
pub use types::struct_type;
pub use values::{cast, lit};
pub use vx_build::{is_root, root};

//! The same constructors over bound children, and those that need the scope's type or answer a bound
//! tree without having one. Each gives a well-typed node where its children are well typed, and
//! refuses exactly where typing gives the node no type.
ghost use Rattle.std.specs.Prelude.{◌≡◌};
ghost use Rattle.vx_value.specs.Views.{type_of};
ghost use Rattle.vx_fn.specs.Functions.{get_item, literal};
ghost use Rattle.vx_tree.specs.Built.{GivesBoundNode};
ghost use Rattle.vx_tree.specs.Trees.{scope, bound, no_bound};
ghost use Rattle.vx_tree.specs.Views.{bound_of};

mod collects;

pub use crate::choices::{case_when, case_when_no_else, mask, nested_case_when, zip_expr};
pub use crate::fields::{get_item, pack, select, select_exclude};
pub use crate::lists::list_contains;
pub use crate::nulls::{fill_null, is_not_null, is_null};
pub use crate::operators::{
    and, between, binary, checked_add, checked_div, checked_mul, checked_rem, checked_sub, eq, gt,
    gt_eq, lt, lt_eq, not, not_eq, or,
};
pub use crate::texts::{byte_length, ilike, like, not_ilike, not_like, starts_with};
pub use crate::values::cast;
pub use collects::{and_collect, or_collect};
use std::alloc::Global;
use vx_tree::{BoundExpression, DType, FieldName, Scalar, ScalarFnRef, TreeNode, VortexResult};

/// The row of a scope of that type.
pub fn root(dtype: DType) -> BoundExpression
    ensures { bound_of result ≡ scope (type_of dtype) }
{
    BoundExpression::new_root(dtype)
}

/// The first field of that name of a scope of that type. Refuses as the node does: `NotAStruct` (4),
/// `NoSuchField` (5).
pub fn col(alloc: Global, name: FieldName, dtype: DType) -> VortexResult<BoundExpression>
    ensures { GivesBoundNode (get_item name) (bound (scope (type_of dtype)) no_bound) result }
{
    get_item(alloc, name, root(dtype))
}

/// The scalar, whatever the row. Refuses with `OutOfMemory` (1) alone.
pub fn lit(alloc: Global, value: Scalar) -> VortexResult<BoundExpression>
    ensures { GivesBoundNode (literal value.type value.value) no_bound result }
{
    BoundExpression::of_function(alloc, ScalarFnRef::Literal(value), Vec::new(alloc))
}

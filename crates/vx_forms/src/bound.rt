//! The same forms for bound trees: those over operands, which serve either kind of tree, and those that
//! need the scope's type or answer a bound tree without having one.
ghost use Rattle.std.specs.Prelude.{map};
ghost use Rattle.vx_value.specs.Views.{type_of};
ghost use Rattle.vx_fn.specs.Functions.{and_also, or_else, get_item, literal};
ghost use Rattle.vx_tree.specs.Built.{GivesBoundNode};
ghost use Rattle.vx_tree.specs.Trees.{scope, bound, no_bound};
ghost use Rattle.vx_tree.specs.Views.{bound_of};
ghost use Rattle.vx_build.specs.Collects.{CollectsBound};
ghost use Rattle.vx_forms.specs.Collected.{CollectsGiven};

pub use crate::choices::{case_when, case_when_no_else, mask, nested_case_when, zip_expr};
pub use crate::fields::{get_item, pack, select, select_exclude};
pub use crate::lists::list_contains;
use crate::names::IntoFieldName;
pub use crate::nulls::{fill_null, is_not_null, is_null};
use crate::operands::{Operand, trees_given};
pub use crate::operators::{
    and, between, binary, checked_add, checked_div, checked_mul, checked_rem, checked_sub, eq, gt,
    gt_eq, lt, lt_eq, not, not_eq, or,
};
use crate::scalars::IntoScalar;
pub use crate::texts::{byte_length, ilike, like, not_ilike, not_like, starts_with};
pub use crate::values::cast;
use std::alloc::Global;
pub use vx_build::bound::root;
use vx_tree::{BoundExpression, DType, VortexResult};

/// The first field of that name of a scope of that type. Refuses as the node does: `NotAStruct` (4),
/// `NoSuchField` (5), and with `OutOfMemory` (1).
pub fn col<N: IntoFieldName>(alloc: Global, name: N, dtype: DType) -> VortexResult<BoundExpression>
    ensures { GivesBoundNode (get_item (N.name name)) (bound (scope (type_of dtype)) no_bound) result }
{
    vx_build::bound::col(alloc, name.into_field_name(alloc)?, dtype)
}

/// The value, whatever the row. Refuses with `OutOfMemory` (1) alone.
pub fn lit<S: IntoScalar>(alloc: Global, value: S) -> VortexResult<BoundExpression>
    ensures { GivesBoundNode (literal (S.constant value).type (S.constant value).value) no_bound result }
{
    vx_build::bound::lit(alloc, value.into_scalar(alloc)?)
}

/// The items joined by And in their order, balanced, None exactly for an empty list. Refuses as the
/// first item that was refused, with `NotBool` (7) where there are at least two items and some isn't of
/// type `Bool`, and with `OutOfMemory` (1).
pub fn and_collect<O: Operand<BoundExpression>, const N: usize>(
    alloc: Global,
    items: [O; N],
) -> VortexResult<Option<BoundExpression>>
    ensures { CollectsGiven bound_of (CollectsBound and_also) (map O.given items) result }
{
    let items = trees_given(alloc, Vec::from_array(alloc, items)?)?;
    vx_build::bound::and_collect(alloc, items)
}

/// The items joined by Or in their order, balanced, as [`and_collect`] joins them by And.
pub fn or_collect<O: Operand<BoundExpression>, const N: usize>(
    alloc: Global,
    items: [O; N],
) -> VortexResult<Option<BoundExpression>>
    ensures { CollectsGiven bound_of (CollectsBound or_else) (map O.given items) result }
{
    let items = trees_given(alloc, Vec::from_array(alloc, items)?)?;
    vx_build::bound::or_collect(alloc, items)
}

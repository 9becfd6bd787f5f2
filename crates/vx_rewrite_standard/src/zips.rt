// The rule of a choice by a literal.
ghost use Rattle.std.specs.Prelude.{◌≡◌, Ok};
ghost use Rattle.std.specs.Option.{option_map};
ghost use Rattle.vx_value.specs.Returns.{ReturnsOrOom};
ghost use Rattle.vx_value.specs.Views.{type_of};
ghost use Rattle.vx_rewrite_rule_laws.specs.StandardGiven.{zip_given};
ghost use Rattle.vx_tree.specs.Views.{bound_of};

use std::alloc::Global;
use vx_dtype::DType;
use vx_rewrite_core::{as_type, literal_value};
use vx_tree::{BoundExpression, VortexResult};
use vx_value::Value;

// A choice by a literal that isn't null is the chosen branch.
#[inline(never)]
pub(crate) fn zip_by_literal(
    alloc: Global,
    dtype: &DType,
    if_true: &BoundExpression,
    if_false: &BoundExpression,
    mask: &BoundExpression,
) -> VortexResult<Option<BoundExpression>>
    ensures { ReturnsOrOom (option_map bound_of) result (Ok (zip_given (type_of dtype.now) (bound_of if_true.now) (bound_of if_false.now) (bound_of mask.now))) }
{
    let Some(scalar) = literal_value(mask) else {
        return Ok(None);
    };
    match scalar.value() {
        Value::Bool(true) => Ok(Some(as_type(alloc, dtype, if_true)?)),
        Value::Bool(false) => Ok(Some(as_type(alloc, dtype, if_false)?)),
        _ => Ok(None),
    }
}

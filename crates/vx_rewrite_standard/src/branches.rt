// The rules of a CASE by its first condition.
ghost use Rattle.std.specs.Prelude.{◌≡◌, ◌⊎◌, ◌<◌, None, Ok, Some, IsFalse, IsTrue};
ghost use Rattle.std.specs.Option.{option_map};
ghost use Rattle.vx_value.specs.Returns.{ReturnsOrOom};
ghost use Rattle.vx_value.specs.Types.{is_nullable};
ghost use Rattle.vx_value.specs.Views.{type_of};
ghost use Rattle.vx_rewrite_rule_laws.specs.BranchGiven.{AreBehindPair, branch_given, case_given, last_given, others_given, rest_given};
ghost use Rattle.vx_fn.specs.Functions.{case_when};
ghost use Rattle.vx_tree.specs.Trees.{node, WellTyped};
ghost use Rattle.vx_tree.specs.Views.{bound_of, bounds_of};

use std::alloc::Global;
use vx_dtype::DType;
use vx_fn::{CaseWhenOptions, ScalarFnRef};
use vx_rewrite_core::{as_type, copies, first_two, literal_value, null_of, only};
use vx_tree::{BoundExpression, VortexResult};
use vx_value::Value;

// Whether something may be given at the node: at a CASE alone.
pub(crate) fn may_give(node: &BoundExpression) -> bool
    ensures { IsFalse result → branch_given (bound_of node.now) ≡ None }
{
    matches!(
        node,
        BoundExpression::Scalar {
            scalar_fn: ScalarFnRef::CaseWhen(_),
            ..
        }
    )
}

// What is given at a node.
pub(crate) fn branch_given(
    alloc: Global,
    node: &BoundExpression,
) -> VortexResult<Option<BoundExpression>>
    requires { WellTyped (bound_of node.now) }
    ensures { ReturnsOrOom (option_map bound_of) result (Ok (branch_given (bound_of node.now))) }
{
    let BoundExpression::Scalar {
        dtype,
        scalar_fn,
        children,
    } = node
    else {
        return Ok(None);
    };
    match scalar_fn {
        ScalarFnRef::CaseWhen(options) => of_case(alloc, dtype, *options, children.as_slice()),
        _ => Ok(None),
    }
}

// What is given at a CASE of the type.
fn of_case(
    alloc: Global,
    dtype: &DType,
    options: CaseWhenOptions,
    children: &[BoundExpression],
) -> VortexResult<Option<BoundExpression>>
    requires { WellTyped (node (type_of dtype.now) (case_when options.num_when_then_pairs options.has_else) (bounds_of children.now)) }
    ensures { ReturnsOrOom (option_map bound_of) result (Ok (case_given (type_of dtype.now) options.num_when_then_pairs options.has_else (bounds_of children.now))) }
{
    let Some((condition, then, rest)) = first_two(children) else {
        return Ok(None);
    };
    let Some(scalar) = literal_value(condition) else {
        return Ok(None);
    };
    match scalar.value() {
        Value::Bool(true) => Ok(Some(as_type(alloc, dtype, then)?)),
        Value::Bool(false) | Value::Null => without_first(alloc, dtype, options, rest),
        _ => Ok(None),
    }
}

// What is left of a CASE without its first pair.
fn without_first(
    alloc: Global,
    dtype: &DType,
    options: CaseWhenOptions,
    rest: &[BoundExpression],
) -> VortexResult<Option<BoundExpression>>
    requires { AreBehindPair (type_of dtype.now) options.num_when_then_pairs options.has_else (bounds_of rest.now) }
    ensures { ReturnsOrOom (option_map bound_of) result (Ok (rest_given (type_of dtype.now) options.num_when_then_pairs options.has_else (bounds_of rest.now))) }
{
    if options.num_when_then_pairs > 1 {
        return Ok(Some(others(alloc, dtype, options, rest)?));
    }
    last(alloc, dtype, options.has_else, rest)
}

// The CASE of the other pairs. The type is that of the CASE with the first.
fn others(
    alloc: Global,
    dtype: &DType,
    options: CaseWhenOptions,
    rest: &[BoundExpression],
) -> VortexResult<BoundExpression>
    requires several { 1 < options.num_when_then_pairs }
    requires typed { AreBehindPair (type_of dtype.now) options.num_when_then_pairs options.has_else (bounds_of rest.now) }
    ensures { ReturnsOrOom (λ b. Some (bound_of b)) result (Ok (others_given options.num_when_then_pairs options.has_else (bounds_of rest.now))) }
{
    let options = CaseWhenOptions {
        num_when_then_pairs: options.num_when_then_pairs - 1,
        has_else: options.has_else,
    };
    BoundExpression::try_new(alloc, ScalarFnRef::CaseWhen(options), copies(alloc, rest)?)
}

// What is left without the only pair: ELSE as one of the type, or null.
fn last(
    alloc: Global,
    dtype: &DType,
    has_else: bool,
    rest: &[BoundExpression],
) -> VortexResult<Option<BoundExpression>>
    requires { IsTrue has_else ⊎ IsTrue (is_nullable (type_of dtype.now)) }
    ensures { ReturnsOrOom (option_map bound_of) result (Ok (last_given (type_of dtype.now) has_else (bounds_of rest.now))) }
{
    if !has_else {
        return Ok(Some(null_of(alloc, dtype)?));
    }
    match only(rest) {
        Some(otherwise) => Ok(Some(as_type(alloc, dtype, otherwise)?)),
        None => Ok(None),
    }
}

// The rules of a CASE that replaces a null.
ghost use Rattle.std.specs.Prelude.{◌≡◌, Ok};
ghost use Rattle.std.specs.Option.{option_map};
ghost use Rattle.vx_value.specs.Returns.{ReturnsOrOom};
ghost use Rattle.vx_rewrite_rule_laws.specs.StandardGiven.{case_given, null_test, coalesce_given, replaced_null};
ghost use Rattle.vx_rewrite_rule_laws.specs.Rules.{fill_node};
ghost use Rattle.vx_rewrite_standard.specs.Views.{null_test_of, null_test_over};
ghost use Rattle.vx_tree.specs.Views.{bound_of};

use std::alloc::Global;
use vx_fn::{CaseWhenOptions, EmptyOptions, FillNull, ScalarFnRef};
use vx_rewrite_core::{literal_value, only};
use vx_tree::{BoundExpression, VortexResult};
use vx_value::Scalar;

// What a test for null looks at, and the values beside it.
#[derive(Clone, Copy)]
struct NullTest<'a> {
    tested: &'a BoundExpression,
    if_null: &'a BoundExpression,
    if_not: &'a BoundExpression,
}

// A CASE of one pair and an ELSE that replaces the null of a tree by a literal.
#[inline(never)]
pub(crate) fn coalesce(
    alloc: Global,
    options: CaseWhenOptions,
    condition: &BoundExpression,
    then: &BoundExpression,
    otherwise: &BoundExpression,
) -> VortexResult<Option<BoundExpression>>
    ensures { ReturnsOrOom (option_map bound_of) result (Ok (case_given options.num_when_then_pairs options.has_else (bound_of condition.now) (bound_of then.now) (bound_of otherwise.now))) }
{
    if options.num_when_then_pairs != 1 || !options.has_else {
        return Ok(None);
    }
    match null_test(condition, then, otherwise) {
        Some(test) => coalesce_by(alloc, test.tested, test.if_null, test.if_not),
        None => Ok(None),
    }
}

// A condition that tests for null, beside the values of its CASE.
fn null_test<'a>(
    condition: &'a BoundExpression,
    then: &'a BoundExpression,
    otherwise: &'a BoundExpression,
) -> Option<NullTest<'a>>
    ensures { option_map null_test_of result ≡ null_test (bound_of condition.now) (bound_of then.now) (bound_of otherwise.now) }
{
    let BoundExpression::Scalar {
        scalar_fn,
        children,
        ..
    } = condition
    else {
        return None;
    };
    match scalar_fn {
        ScalarFnRef::IsNull(_) => Some(NullTest {
            tested: only(children.as_slice())?,
            if_null: then,
            if_not: otherwise,
        }),
        ScalarFnRef::IsNotNull(_) => Some(NullTest {
            tested: only(children.as_slice())?,
            if_null: otherwise,
            if_not: then,
        }),
        _ => None,
    }
}

// A test for null with a literal where it is null, and elsewhere the tree that it looks at.
fn coalesce_by(
    alloc: Global,
    tested: &BoundExpression,
    if_null: &BoundExpression,
    if_not: &BoundExpression,
) -> VortexResult<Option<BoundExpression>>
    ensures { ReturnsOrOom (option_map bound_of) result (Ok (coalesce_given (null_test_over tested.now if_null.now if_not.now))) }
{
    let Some(scalar) = literal_value(if_null) else {
        return Ok(None);
    };
    if tested != if_not {
        return Ok(None);
    }
    replaced_null(alloc, tested, if_null, scalar)
}

// The tree, if its null is replaced by a null; else a fill by the literal, if the tree's type has one.
#[inline(never)]
fn replaced_null(
    alloc: Global,
    input: &BoundExpression,
    literal: &BoundExpression,
    scalar: &Scalar,
) -> VortexResult<Option<BoundExpression>>
    ensures { ReturnsOrOom (option_map bound_of) result (Ok (replaced_null (bound_of input.now) (bound_of literal.now) scalar.now.value)) }
{
    if scalar.is_null() {
        return Ok(Some(input.clone()?));
    }
    if !FillNull::supports_dtype(input.dtype()) {
        return Ok(None);
    }
    Ok(Some(fill(alloc, input, literal)?))
}

// The tree, and where it is null the other.
fn fill(
    alloc: Global,
    input: &BoundExpression,
    fill_value: &BoundExpression,
) -> VortexResult<BoundExpression>
    ensures { ReturnsOrOom bound_of result (Ok (fill_node (bound_of input.now) (bound_of fill_value.now))) }
{
    let dtype = input.dtype().clone()?;
    let children = vec![in alloc; input.clone()?, fill_value.clone()?]?;
    BoundExpression::new_typed(
        alloc,
        dtype.with_nullability(fill_value.dtype().nullability()),
        ScalarFnRef::FillNull(EmptyOptions),
        children,
    )
}

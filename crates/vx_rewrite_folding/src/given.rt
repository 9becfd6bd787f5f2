// What folding gives at a node: its value over literals, else what its function knows.
ghost use Rattle.std.specs.Prelude.{◌≡◌, IsFalse, None, Ok};
ghost use Rattle.std.specs.Option.{option_map};
ghost use Rattle.vx_value.specs.Returns.{ReturnsOrOom};
ghost use Rattle.vx_value.specs.Types.{LogicalType};
ghost use Rattle.vx_fn.specs.Functions.{case_when};
ghost use Rattle.vx_rewrite_rule_laws.specs.Folding.{constant_given, fold_given, known_given};
ghost use Rattle.vx_tree.specs.Trees.{node, WellTyped};
ghost use Rattle.vx_tree.specs.Views.{bound_of, bounds_of};

use crate::cases::{case_given, has_idle_pair};
use crate::constants::{constant_given, is_constant};
use crate::known::{known_of, known_tree};
use std::alloc::Global;
use vx_fn::{CaseWhenOptions, ScalarFnRef};
use vx_rewrite_core::first_two;
use vx_tree::{BoundExpression, VortexResult};

// Whether something may be given at the node: all but whether a node over literals faults is looked
// at, without memory, so that where nothing folds little is done.
pub(crate) fn may_give(node: &BoundExpression) -> bool
    ensures { IsFalse result → fold_given (bound_of node.now) ≡ None }
{
    is_constant(node) || may_know(node)
}

// Whether something is known of the node by its function.
fn may_know(node: &BoundExpression) -> bool
    ensures { IsFalse result → known_given (bound_of node.now) ≡ None }
{
    let Some(scalar_fn) = node.as_scalar() else {
        return false;
    };
    let children = node.children();
    match scalar_fn {
        ScalarFnRef::CaseWhen(_) => has_idle_pair(children),
        _ => known_of(node.dtype(), scalar_fn, children).is_some(),
    }
}

// What is given at a node.
pub(crate) fn fold_given(
    alloc: Global,
    node: &BoundExpression,
) -> VortexResult<Option<BoundExpression>>
    requires { WellTyped (bound_of node.now) }
    ensures { ReturnsOrOom (option_map bound_of) result (Ok (fold_given (bound_of node.now))) }
{
    match constant_given(alloc, node)? {
        Some(constant) => Ok(Some(constant)),
        None => known_given(alloc, node),
    }
}

// What is given by the function of a node that is no constant.
fn known_given(alloc: Global, node: &BoundExpression) -> VortexResult<Option<BoundExpression>>
    requires typed { WellTyped (bound_of node.now) }
    requires no_constant { constant_given (bound_of node.now) ≡ None }
    ensures { ReturnsOrOom (option_map bound_of) result (Ok (known_given (bound_of node.now))) }
{
    let Some(scalar_fn) = node.as_scalar() else {
        return Ok(None);
    };
    let children = node.children();
    if let ScalarFnRef::CaseWhen(options) = scalar_fn {
        return of_case(alloc, *options, children);
    }
    match known_of(node.dtype(), scalar_fn, children) {
        Some(known) => Ok(Some(known_tree(alloc, &known)?)),
        None => Ok(None),
    }
}

// What is given at a CASE, whatever its type is.
fn of_case(
    alloc: Global,
    options: CaseWhenOptions,
    children: &[BoundExpression],
) -> VortexResult<Option<BoundExpression>>
    requires { (t : LogicalType) × WellTyped (node t (case_when options.num_when_then_pairs options.has_else) (bounds_of children.now)) }
    ensures { (t : LogicalType) → ReturnsOrOom (option_map bound_of) result (Ok (known_given (node t (case_when options.num_when_then_pairs options.has_else) (bounds_of children.now)))) }
{
    match first_two(children) {
        Some((condition, then, rest)) => case_given(alloc, options, condition, then, rest),
        None => Ok(None),
    }
}

// A rule set of one rule: a negation of a negation is what is negated.
#![tactic(auto)]

ghost use Rattle.std.specs.Prelude.{◌≡◌, Ok};
ghost use Rattle.std.specs.Option.{option_map};
ghost use Rattle.vx_value.specs.Returns.{ReturnsOrOom};
ghost use Rattle.vx_tree.specs.Views.{bound_of};
ghost use Rattle.vx_example_double_negation.specs.DoubleNegation.{DoubleNegationAt, double_negation_lawful, given, negated};

use std::alloc::Global;
use vx_fn::ScalarFnRef;
use vx_rewrite_core::{Rule, only};
use vx_tree::{BoundExpression, VortexResult};

/// The rule that `not(not x)` is `x`, as an example of a rule set: definition, laws and code in full.
pub struct DoubleNegation;

impl Rule for DoubleNegation {
    ghost gives = { λ _. DoubleNegationAt };

    ghost lawful = { λ _. double_negation_lawful };

    fn apply_at(
        &self,
        alloc: Global,
        node: &BoundExpression,
    ) -> VortexResult<Option<BoundExpression>> {
        given(node)
    }
}

// What is given at a node.
fn given(node: &BoundExpression) -> VortexResult<Option<BoundExpression>>
    ensures { ReturnsOrOom (option_map bound_of) result (Ok (given (bound_of node.now))) }
{
    match negated(node).and_then(negated) {
        Some(input) => Ok(Some(input.clone()?)),
        None => Ok(None),
    }
}

// What a negation negates.
fn negated(node: &BoundExpression) -> Option<&BoundExpression>
    ensures { option_map (λ b. bound_of b.now) result ≡ negated (bound_of node.now) }
{
    match node.as_scalar() {
        Some(ScalarFnRef::Not(_)) => only(node.children()),
        _ => None,
    }
}

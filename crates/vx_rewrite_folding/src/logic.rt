// And and Or: beside a literal, and of two equal sides.
ghost use Rattle.std.specs.Prelude.{◌≡◌, option_and_then};
ghost use Rattle.std.specs.Option.{option_map};
ghost use Rattle.vx_rewrite_folding.specs.Known.{tree_of};
ghost use Rattle.vx_rewrite_rule_laws.specs.Folding.{beside, logic_given};
ghost use Rattle.vx_rewrite_core.specs.Nodes.{literal_value};
ghost use Rattle.vx_tree.specs.Views.{bound_of};

use crate::known::Known;
use vx_rewrite_core::literal_value;
use vx_tree::BoundExpression;
use vx_value::Value;

// What is known of And, where true leaves the other side as it is, or of Or, where false does. Sides
// are compared last, since a comparison may go through both.
pub(crate) fn known_of_logic<'a>(
    neutral: bool,
    left: &'a BoundExpression,
    right: &'a BoundExpression,
) -> Option<Known<'a>>
    ensures { option_map tree_of result ≡ logic_given neutral (bound_of left.now) (bound_of right.now) }
{
    if let Some(known) = beside(neutral, right, left) {
        return Some(known);
    }
    if let Some(known) = beside(neutral, left, right) {
        return Some(known);
    }
    if left != right {
        return None;
    }
    Some(Known::Tree(left))
}

// What is known where one side is a literal: the other side where the literal is the truth value that
// leaves it as it is, and that literal where it decides. Null decides nothing.
fn beside<'a>(
    neutral: bool,
    other: &'a BoundExpression,
    side: &BoundExpression,
) -> Option<Known<'a>>
    ensures { option_map tree_of result ≡ option_and_then (beside neutral (bound_of other.now)) (literal_value (bound_of side.now)) }
{
    let scalar = literal_value(side)?;
    let Value::Bool(b) = scalar.value() else {
        return None;
    };
    if *b == neutral {
        return Some(Known::Tree(other));
    }
    Some(Known::Truth(*b))
}

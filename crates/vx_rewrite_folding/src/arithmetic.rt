// Arithmetic beside a number that leaves the other as it is.
ghost use Rattle.std.specs.Prelude.{◌≡◌};
ghost use Rattle.std.specs.Option.{option_map};
ghost use Rattle.vx_fn.specs.Functions.{is_symmetric};
ghost use Rattle.vx_rewrite_folding.specs.Known.{tree_of};
ghost use Rattle.vx_rewrite_rule_laws.specs.Folding.{arithmetic_given, is_literal_of, is_neutral, leaves_as_is};
ghost use Rattle.vx_tree.specs.Views.{bound_of};

use crate::known::Known;
use vx_floats::Arithmetic;
use vx_rewrite_core::literal_value;
use vx_tree::BoundExpression;
use vx_value::Value;

// What is known of arithmetic: beside a number that leaves the other operand as it is, that operand. On
// the left such a number counts only where operands may be exchanged.
pub(crate) fn known_of_arithmetic<'a>(
    arithmetic: Arithmetic,
    left: &'a BoundExpression,
    right: &'a BoundExpression,
) -> Option<Known<'a>>
    ensures { option_map tree_of result ≡ arithmetic_given arithmetic (bound_of left.now) (bound_of right.now) }
{
    if is_neutral(arithmetic, right) {
        return Some(Known::Tree(left));
    }
    if is_symmetric(arithmetic) && is_neutral(arithmetic, left) {
        return Some(Known::Tree(right));
    }
    None
}

// Whether operands may be exchanged.
fn is_symmetric(arithmetic: Arithmetic) -> bool
    ensures { result ≡ is_symmetric arithmetic }
{
    matches!(arithmetic, Arithmetic::Sum | Arithmetic::Product)
}

// Whether the tree is the literal of a number that leaves the other operand as it is.
fn is_neutral(arithmetic: Arithmetic, tree: &BoundExpression) -> bool
    ensures { result ≡ is_literal_of (is_neutral arithmetic) (bound_of tree.now) }
{
    match literal_value(tree) {
        Some(scalar) => match scalar.value() {
            Value::Int(number) => leaves_as_is(arithmetic, *number),
            _ => false,
        },
        None => false,
    }
}

// Whether a number beside that one stays as it is.
fn leaves_as_is(arithmetic: Arithmetic, number: i128) -> bool
    ensures { result ≡ leaves_as_is arithmetic number }
{
    match arithmetic {
        Arithmetic::Sum | Arithmetic::Difference => number == 0,
        Arithmetic::Product | Arithmetic::Quotient => number == 1,
        Arithmetic::Remainder => false,
    }
}

// Which operators join conjuncts.
ghost use Rattle.std.specs.Prelude.{◌≡◌};
ghost use Rattle.vx_command_pages.specs.Conjuncts.{joins_conjuncts};

use vx_tree::Operator;

/// Whether what the operator makes is true where both of its operands are, and nowhere else.
pub fn joins_conjuncts(operator: Operator) -> bool
    ensures { result ≡ joins_conjuncts operator }
{
    match operator {
        Operator::And => true,
        Operator::Or
        | Operator::Eq
        | Operator::NotEq
        | Operator::Gt
        | Operator::Gte
        | Operator::Lt
        | Operator::Lte
        | Operator::Add
        | Operator::Sub
        | Operator::Mul
        | Operator::Div
        | Operator::Rem => false,
    }
}

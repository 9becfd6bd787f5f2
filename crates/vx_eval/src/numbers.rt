// What a comparison with a number asks of numbers, decided once for all rows.
ghost use Rattle.std.specs.Prelude.{◌≡◌, IsTrue, IfSome};
ghost use Rattle.vx_value.specs.Views.{value_of};
ghost use Rattle.vx_fn.specs.Values.{binary_value};
ghost use Rattle.vx_fn.specs.Views.{operation_of};
ghost use Rattle.vx_eval.specs.Items.{is_comparison, truth_datum};
ghost use Rattle.vx_eval.specs.Numbers.{holds_of, Tests};

use crate::comparison::compared;
use vx_fn::Operator;
use vx_value::Value;

/// A number, and in which orders to it the test holds of another one.
#[derive(Clone, Copy)]
pub struct NumberTest {
    number: i128,
    below: bool,
    same: bool,
    above: bool,
}

impl NumberTest {
    /// The test of numbers by the comparison with the value, if that is a number. Asks one of the
    /// six comparisons.
    pub fn new(operator: Operator, value: &Value) -> Option<NumberTest>
        requires { IsTrue (is_comparison (operation_of operator)) }
        ensures { IfSome result (Tests (operation_of operator) (value_of value.now)) }
    {
        let (below, same, above) = match operator {
            Operator::Eq => (false, true, false),
            Operator::NotEq => (true, false, true),
            Operator::Gt => (false, false, true),
            Operator::Gte => (false, true, true),
            Operator::Lt => (true, false, false),
            Operator::Lte => (true, true, false),
            Operator::And
            | Operator::Or
            | Operator::Add
            | Operator::Sub
            | Operator::Mul
            | Operator::Div
            | Operator::Rem => unreachable!(),
        };
        match value {
            Value::Int(number) => Some(NumberTest {
                number: *number,
                below,
                same,
                above,
            }),
            _ => None,
        }
    }

    /// Whether the test holds of the number.
    #[inline(always)]
    pub fn holds(&self, n: i128) -> bool
        ensures { result ≡ holds_of self.now n }
    {
        if n < self.number {
            self.below
        } else if n == self.number {
            self.same
        } else {
            self.above
        }
    }
}

/// What the comparison tells of the two values, with the test of numbers by the right one, if it has
/// one. Asks one of the six comparisons.
#[inline(always)]
pub fn compared_by(
    test: Option<NumberTest>,
    operator: Operator,
    v: &Value,
    w: &Value,
) -> Option<bool>
    requires comparison { IsTrue (is_comparison (operation_of operator)) }
    requires test { IfSome test (Tests (operation_of operator) (value_of w.now)) }
    ensures { truth_datum result ≡ binary_value (operation_of operator) (value_of v.now) (value_of w.now) }
{
    if let Value::Int(n) = v {
        if let Some(test) = test {
            return Some(test.holds(*n));
        }
    }
    if v.is_null() {
        return None;
    }
    compared_apart(operator, v, w)
}

// The comparison of two values, which stands apart from the loops over numbers.
#[inline(never)]
fn compared_apart(operator: Operator, v: &Value, w: &Value) -> Option<bool>
    requires { IsTrue (is_comparison (operation_of operator)) }
    ensures { truth_datum result ≡ binary_value (operation_of operator) (value_of v.now) (value_of w.now) }
{
    compared(operator, v, w)
}

// Comparisons of a lent field with one value, told row by row where they are asked for.
ghost use Rattle.std.specs.Prelude.{◌≡◌, ◌<◌, IsTrue, length, get_or};
ghost use Rattle.vx_value.specs.Types.{null};
ghost use Rattle.vx_value.specs.Views.{value_of};
ghost use Rattle.vx_fn.specs.Views.{operation_of};
ghost use Rattle.vx_eval_masks.specs.Merges.{values_of};
ghost use Rattle.vx_eval.specs.Items.{compared_items, is_comparison, truth_datum};

use crate::fields::item_row;
use crate::numbers::{NumberTest, compared_by};
use std::marker::Model;
use vx_fn::Operator;
use vx_value::Value;

/// The items at one place of structs that are lent, each to be compared with one value.
#[derive(Drop)]
pub struct ComparedItem<'a> {
    operator: Operator,
    rows: &'a [Value],
    place: usize,
    value: &'a Value,
    test: Option<NumberTest>,
}

impl<'a> Model for ComparedItem<'a> {
    ghost use Rattle.std.specs.Prelude.{List, IsTrue, IfSome};
    ghost use Rattle.std.specs.Coded.{coded_list};
    ghost use Rattle.vx_value.specs.Codes.{datum_code};
    ghost use Rattle.vx_value.specs.Types.{Datum};
    ghost use Rattle.vx_value.specs.Views.{value_of};
    ghost use Rattle.vx_fn.specs.Views.{operation_of};
    ghost use Rattle.vx_eval_masks.specs.Merges.{values_of};
    ghost use Rattle.vx_eval.specs.Items.{compared_items, is_comparison};
    ghost use Rattle.vx_eval.specs.Numbers.{Tests};

    ghost Value = { List Datum };

    ghost coded = { coded_list datum_code };

    ghost view = { λ c. compared_items (operation_of c.operator) c.place (value_of c.value.now) (values_of c.rows.now) };

    ghost invariant = { λ c. IsTrue (is_comparison (operation_of c.operator)) × IfSome c.test (Tests (operation_of c.operator) (value_of c.value.now)) };
}

impl<'a> ComparedItem<'a> {
    /// The comparison of each item at that place with the value. Asks one of the six comparisons.
    pub fn new(
        operator: Operator,
        rows: &'a [Value],
        place: usize,
        value: &'a Value,
    ) -> ComparedItem<'a>
        requires { IsTrue (is_comparison (operation_of operator)) }
        ensures { result ≡ compared_items (operation_of operator) place (value_of value.now) (values_of rows.now) }
    {
        ComparedItem {
            operator,
            rows,
            place,
            value,
            test: NumberTest::new(operator, value),
        }
    }

    /// The same comparisons.
    pub fn copy(&self) -> ComparedItem<'a>
        ensures { result ≡ self.now }
    {
        ComparedItem {
            operator: self.operator,
            rows: self.rows,
            place: self.place,
            value: self.value,
            test: self.test,
        }
    }

    /// The number of rows.
    pub fn len(&self) -> usize
        ensures { result ≡ length self.now }
    {
        self.rows.len()
    }

    /// What the comparison tells of that row, where the null that is given stands for an item that
    /// isn't there. Asks an index below the number of rows.
    #[inline(always)]
    pub fn truth(&self, otherwise: &Value, i: usize) -> Option<bool>
        requires null { value_of otherwise.now ≡ null }
        requires within { i < length self.now }
        ensures { truth_datum result ≡ get_or self.now i null }
    {
        let item = item_row(otherwise, self.rows, self.place, i);
        compared_by(self.test, self.operator, item, self.value)
    }
}

// Null and the truth values, to be lent.
ghost use Rattle.std.specs.Prelude.{◌≡◌};
ghost use Rattle.vx_value.specs.Types.{null};
ghost use Rattle.vx_value.specs.Views.{value_of};
ghost use Rattle.vx_eval.specs.Columns.{truth_datum};

use std::marker::Model;
use vx_value::Value;

/// Null, false and true, to be lent by a column that holds no values of its own.
#[derive(Drop)]
pub struct Constants {
    lent_null: Value,
    lent_false: Value,
    lent_true: Value,
}

impl Model for Constants {
    ghost use Rattle.std.specs.Prelude.{◌≡◌, ⊤, false, true};
    ghost use Rattle.vx_value.specs.Types.{null, bool};
    ghost use Rattle.vx_value.specs.Views.{value_of};

    ghost Value = { ⊤ };

    ghost view = { λ c. tt };

    ghost invariant = { λ c. (value_of c.lent_null ≡ null) × (value_of c.lent_false ≡ bool false) × (value_of c.lent_true ≡ bool true) };
}

impl Constants {
    /// The constants.
    pub fn new() -> Constants {
        Constants {
            lent_null: Value::Null,
            lent_false: Value::Bool(false),
            lent_true: Value::Bool(true),
        }
    }

    /// Null.
    pub fn null(&self) -> &Value
        ensures { value_of result.now ≡ null }
    {
        &self.lent_null
    }

    /// The value that a truth value is, or null.
    pub fn truth(&self, truth: Option<bool>) -> &Value
        ensures { value_of result.now ≡ truth_datum truth }
    {
        match truth {
            None => &self.lent_null,
            Some(false) => &self.lent_false,
            Some(true) => &self.lent_true,
        }
    }
}

// Texts against what they may begin with.
ghost use Rattle.std.specs.Prelude.{◌≡◌, length, List, [], ◌∷◌};
ghost use Rattle.vx_value.specs.Types.{LogicalType};
ghost use Rattle.vx_value.specs.Views.{value_of};
ghost use Rattle.vx_fn.specs.Functions as functions;
ghost use Rattle.vx_fn.specs.Values as values;
ghost use Rattle.vx_eval.specs.Columns.{rows_view, truth_datum, Evaluates};

use crate::rows::Rows;
use crate::truths::told;
use std::alloc::Global;
use vx_dtype::VortexResult;
use vx_eval_like::begins_with;
use vx_value::Value;

/// Whether each text begins with the one beside it. Refuses with `OutOfMemory` (1) alone.
pub fn starts_with<'a>(
    alloc: Global,
    count: usize,
    input: &Rows,
    prefix: &Rows,
) -> VortexResult<Rows<'a>>
    requires input { length (rows_view input.now) ≡ count }
    requires prefix { length (rows_view prefix.now) ≡ count }
    ensures { (ts : List LogicalType) → Evaluates functions.starts_with ts count (rows_view input.now ∷ rows_view prefix.now ∷ []) result }
{
    told(alloc, count, |i| begun(input.row(i), prefix.row(i)))
}

// Whether the text begins with the other one; null where one is.
fn begun(v: &Value, w: &Value) -> Option<bool>
    ensures { truth_datum result ≡ values.begun (value_of v.now) (value_of w.now) }
{
    match v {
        Value::Utf8(text) => match w {
            Value::Utf8(prefix) => Some(begins_with(text.as_str(), prefix.as_str())),
            _ => None,
        },
        _ => None,
    }
}

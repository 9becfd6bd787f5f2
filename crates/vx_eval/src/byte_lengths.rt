// Lengths of texts.
ghost use Rattle.std.specs.Prelude.{◌≡◌, length, IfOk, List, [], ◌∷◌};
ghost use Rattle.vx_value.specs.Types.{LogicalType};
ghost use Rattle.vx_value.specs.Views.{value_of};
ghost use Rattle.vx_fn.specs.Functions as functions;
ghost use Rattle.vx_fn.specs.Values as values;
ghost use Rattle.vx_eval.specs.Columns.{rows_view, Evaluates};

use crate::filling::tabulated;
use crate::rows::Rows;
use std::alloc::{AllocError, Global};
use vx_dtype::VortexResult;
use vx_value::Value;

/// The number of each text's bytes. Refuses with `OutOfMemory` (1) alone.
pub fn byte_length<'a>(alloc: Global, count: usize, input: &Rows) -> VortexResult<Rows<'a>>
    requires { length (rows_view input.now) ≡ count }
    ensures { (ts : List LogicalType) → Evaluates functions.byte_length ts count (rows_view input.now ∷ []) result }
{
    tabulated(alloc, count, |i| counted(input.row(i)))
}

// The number of the text's bytes; null of null. Takes no memory.
fn counted(v: &Value) -> Result<Value, AllocError>
    ensures { IfOk result (λ out. value_of out ≡ values.counted_bytes (value_of v.now)) }
{
    match v {
        Value::Utf8(text) => Ok(Value::Int(text.len().min(i64::MAX as usize) as i128)),
        _ => Ok(Value::Null),
    }
}

// Casts.
ghost use Rattle.std.specs.Prelude.{◌≡◌, length, position, List, [], ◌∷◌};
ghost use Rattle.vx_value.specs.Types.{LogicalType};
ghost use Rattle.vx_value.specs.Views.{type_of};
ghost use Rattle.vx_fn.specs.Faults.{misfits};
ghost use Rattle.vx_fn.specs.Functions as functions;
ghost use Rattle.vx_eval.specs.Columns.{rows_view, rows_of, Evaluates};

use crate::rows::Rows;
use vx_dtype::{DType, VortexError, VortexResult};

/// The values themselves, as values of the target type. Refuses with `CastNull` (14) and the first
/// row whose value isn't one of it; takes no memory.
pub fn cast<'a>(count: usize, target: &DType, input: Rows<'a>) -> VortexResult<Rows<'a>>
    requires { length (rows_view input) ≡ count }
    ensures { (ts : List LogicalType) → Evaluates (functions.cast (type_of target.now)) ts count (rows_view input.entry ∷ []) result }
{
    match first_misfit(count, target, &input) {
        Some(row) => {
            drop(input);
            Err(VortexError::CastNull { row })
        }
        None => Ok(input),
    }
}

// The first row whose value isn't one of the type.
fn first_misfit(count: usize, target: &DType, input: &Rows) -> Option<usize>
    requires { length (rows_view input.now) ≡ count }
    ensures { result ≡ position (misfits (type_of target.now)) (rows_of count (rows_view input.now ∷ [])) }
{
    for i in 0..count {
        if !input.row(i).fits(target) {
            return Some(i);
        }
    }
    None
}

// Truth values and null, by Kleene's tables.
ghost use Rattle.std.specs.Prelude.{◌≡◌, length, List, [], ◌∷◌};
ghost use Rattle.vx_value.specs.Types.{LogicalType};
ghost use Rattle.vx_fn.specs.Functions.{binary, and_also, or_else, logical_not};
ghost use Rattle.vx_fn.specs.Values as values;
ghost use Rattle.vx_eval.specs.Columns.{rows_view, truth_datum, Evaluates};

use crate::rows::Rows;
use crate::truths::told;
use std::alloc::Global;
use vx_dtype::VortexResult;

/// The And of two columns; of comparisons that wait to be asked for, one that waits, too. Refuses
/// with `OutOfMemory` (1) alone.
pub fn and<'a>(alloc: Global, count: usize, lhs: Rows<'a>, rhs: Rows<'a>) -> VortexResult<Rows<'a>>
    requires left { length (rows_view lhs) ≡ count }
    requires right { length (rows_view rhs) ≡ count }
    ensures { (ts : List LogicalType) → Evaluates (binary and_also) ts count (rows_view lhs.entry ∷ rows_view rhs.entry ∷ []) result }
{
    match (lhs, rhs) {
        (Rows::Compared(first), Rows::Compared(second)) => Ok(Rows::Compared(first.and(second)?)),
        (lhs, rhs) => {
            let truths = told(alloc, count, |i| kleene_and(lhs.truth(i), rhs.truth(i)));
            drop(lhs);
            drop(rhs);
            truths
        }
    }
}

/// The Or of two columns. Refuses with `OutOfMemory` (1) alone.
pub fn or<'a>(alloc: Global, count: usize, lhs: &Rows, rhs: &Rows) -> VortexResult<Rows<'a>>
    requires left { length (rows_view lhs.now) ≡ count }
    requires right { length (rows_view rhs.now) ≡ count }
    ensures { (ts : List LogicalType) → Evaluates (binary or_else) ts count (rows_view lhs.now ∷ rows_view rhs.now ∷ []) result }
{
    told(alloc, count, |i| kleene_or(lhs.truth(i), rhs.truth(i)))
}

/// The negation of a column. Refuses with `OutOfMemory` (1) alone.
pub fn not<'a>(alloc: Global, count: usize, input: &Rows) -> VortexResult<Rows<'a>>
    requires { length (rows_view input.now) ≡ count }
    ensures { (ts : List LogicalType) → Evaluates logical_not ts count (rows_view input.now ∷ []) result }
{
    told(alloc, count, |i| kleene_not(input.truth(i)))
}

/// False where one of the two is, else true where both are, else null.
pub fn kleene_and(v: Option<bool>, w: Option<bool>) -> Option<bool>
    ensures { truth_datum result ≡ values.kleene_and (truth_datum v) (truth_datum w) }
{
    match v {
        Some(false) => Some(false),
        Some(true) => w,
        None => if matches!(w, Some(false)) { w } else { None },
    }
}

// True where one of the two is, else false where both are, else null.
fn kleene_or(v: Option<bool>, w: Option<bool>) -> Option<bool>
    ensures { truth_datum result ≡ values.kleene_or (truth_datum v) (truth_datum w) }
{
    match v {
        Some(true) => Some(true),
        Some(false) => w,
        None => if matches!(w, Some(true)) { w } else { None },
    }
}

// The other truth value, or null.
fn kleene_not(v: Option<bool>) -> Option<bool>
    ensures { truth_datum result ≡ values.kleene_not (truth_datum v) }
{
    match v {
        Some(b) => Some(!b),
        None => None,
    }
}

// Which rows are valid, as bits tell.
ghost use Rattle.std.specs.Prelude.{◌≡◌, IfOk, List, length};
ghost use Rattle.vx_array_loops.specs.WordBits.{count_true};
ghost use Rattle.vx_array.specs.declared.validity.Validity.TheVariants.{All};
ghost use Rattle.vx_array.specs.Shown.{masked, shown};
ghost use Rattle.vx_value.specs.Types.{Datum};

use std::alloc::{AllocError, Global};
use vx_array::{BitPart, Validity};
use vx_array_loops::Bits;

/// The validity of so many rows, of which those are valid whose bit is true: no bits where all are. Reads each
/// word once.
pub fn validity_by(alloc: Global, valid: Bits, rows: usize) -> Result<Validity, AllocError>
    ensures shown { IfOk result (λ v. (ds : List Datum) → length ds ≡ rows → shown v ds ≡ masked valid ds) }
    ensures all { IfOk result (λ v. length valid ≡ rows → count_true valid ≡ rows → v ≡ All) }
{
    if valid.len() == rows && valid.count_ones() == rows {
        return Ok(Validity::All);
    }
    Ok(Validity::Rows(BitPart::new(alloc, valid)?))
}

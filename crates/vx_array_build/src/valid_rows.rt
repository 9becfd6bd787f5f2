// Which rows aren't null, row after row.
ghost use Rattle.std.specs.Prelude.{◌≡◌, ◌++◌, ◌+◌, ℕ, IfOk, IfSome, List, length, true};
ghost use Rattle.std.proofs.Math.ListN.{replicate};
ghost use Rattle.vx_value.specs.Types.{Datum};
ghost use Rattle.vx_array.specs.Shown.{HasRows, masked, shown};
ghost use Rattle.vx_array_build.specs.Rowed.{flags, valid_in};

use crate::joined_bits::JoinedBits;
use std::alloc::{AllocError, Global};
use vx_array::{BitPart, Validity};
use vx_array_loops::Bits;

/// Which rows are valid: all of them, or those whose bit is true.
#[derive(Drop)]
pub(crate) enum ValidRows {
    /// All of them.
    All,
    /// Those that are true, of as many as there are bits.
    Listed(JoinedBits),
}

// Of so many rows, which are valid, and behind them so many that a validity tells of. There is an answer as
// for bits that are appended.
pub(crate) fn valid_behind(
    alloc: Global,
    valid: ValidRows,
    rows: usize,
    validity: &Validity,
    count: usize,
) -> Result<Option<ValidRows>, AllocError>
    requires { HasRows validity.now count }
    ensures { IfOk result (λ found. IfSome found (λ more. flags (rows + count) more ≡ flags rows valid ++ valid_in validity.now count)) }
{
    let bits = match (valid, validity) {
        (ValidRows::All, Validity::All) => return Ok(Some(ValidRows::All)),
        (ValidRows::All, _) => JoinedBits::of(all_rows(alloc, rows)?),
        (ValidRows::Listed(bits), _) => bits,
    };
    match bits.append(alloc, &valid_bits(alloc, validity, count)?)? {
        Some(bits) => Ok(Some(ValidRows::Listed(bits))),
        None => Ok(None),
    }
}

// Whether each of the first so many rows is valid.
fn valid_bits(alloc: Global, validity: &Validity, count: usize) -> Result<Bits, AllocError>
    requires { HasRows validity.now count }
    ensures { IfOk result (λ bits. bits ≡ valid_in validity.now count) }
{
    match validity {
        Validity::All => all_rows(alloc, count),
        Validity::Nothing => Bits::zeros(alloc, count),
        Validity::Rows(bits) => bits.first(alloc, count),
    }
}

// So many rows that are true.
fn all_rows(alloc: Global, count: usize) -> Result<Bits, AllocError>
    ensures { IfOk result (λ bits. bits ≡ replicate count true) }
{
    Bits::tabulated(alloc, count, |_| true)
}

// That as the validity of so many rows.
pub(crate) fn validity_of_rows(alloc: Global, valid: ValidRows) -> Result<Validity, AllocError>
    ensures { IfOk result (λ v. (ds : List Datum) → shown v ds ≡ masked (flags (length ds) valid) ds) }
{
    match valid {
        ValidRows::All => Ok(Validity::All),
        ValidRows::Listed(bits) => {
            let bits = bits.finish(alloc)?;
            Ok(Validity::Rows(BitPart::new(alloc, bits)?))
        }
    }
}

// Truth values, to which those of lanes are added.
ghost use Rattle.std.specs.Prelude.{◌≡◌, ◌++◌, IfOk, IfSome, map};
ghost use Rattle.vx_array.specs.Shown.{shown};
ghost use Rattle.vx_value.specs.Types.{bool};

use crate::joined_bits::JoinedBits;
use crate::rows_builder::RowsBuilder;
use crate::valid_rows::{ValidRows, valid_behind, validity_of_rows};
use std::alloc::{AllocError, Global};
use std::marker::Model;
use vx_array::{BitPart, Lanes, Validity};

/// Truth values, of which some may be null, to which others are added. Contracts see them as the rows.
#[derive(Drop)]
pub struct TruthsBuilder {
    truths: JoinedBits,
    valid: ValidRows,
}

impl Model for TruthsBuilder {
    ghost use Rattle.std.specs.Prelude.{◌≡◌, List, length, map};
    ghost use Rattle.std.specs.Coded.{coded_list};
    ghost use Rattle.vx_value.specs.Codes.{datum_code};
    ghost use Rattle.vx_value.specs.Types.{Datum, bool};
    ghost use Rattle.vx_array.specs.Shown.{masked};
    ghost use Rattle.vx_array_build.specs.Rowed.{flags};

    ghost Value = { List Datum };

    ghost coded = { coded_list datum_code };

    ghost view = { λ b. masked (flags (length b.truths) b.valid) (map bool b.truths) };

    ghost invariant = { λ b. length (flags (length b.truths) b.valid) ≡ length b.truths };
}

impl RowsBuilder for TruthsBuilder {
    ghost rows = { λ b. b };

    fn with_capacity(alloc: Global, count: usize) -> Result<TruthsBuilder, AllocError> {
        Ok(TruthsBuilder {
            truths: JoinedBits::with_capacity(alloc, count)?,
            valid: ValidRows::All,
        })
    }

    fn push(self, alloc: Global, lanes: &Lanes) -> Result<Option<TruthsBuilder>, AllocError> {
        match lanes {
            Lanes::Bools(bits, validity) => with_part(alloc, self, bits, validity),
            _ => Ok(None),
        }
    }

    fn finish(self, alloc: Global) -> Result<Lanes, AllocError> {
        let TruthsBuilder { truths, valid } = self;
        let validity = validity_of_rows(alloc, valid)?;
        let truths = truths.finish(alloc)?;
        Ok(Lanes::Bools(BitPart::new(alloc, truths)?, validity))
    }
}

// The same rows and behind them the truth values, where they are valid. There is an answer as for bits that
// are appended.
fn with_part(
    alloc: Global,
    rows: TruthsBuilder,
    part: &BitPart,
    validity: &Validity,
) -> Result<Option<TruthsBuilder>, AllocError>
    ensures { IfOk result (λ found. IfSome found (λ b. b ≡ rows ++ shown validity.now (map bool part.now))) }
{
    let TruthsBuilder { truths, valid } = rows;
    let count = validity.count(part.len());
    let Some(valid) = valid_behind(alloc, valid, truths.len(), validity, count)? else {
        return Ok(None);
    };
    match truths.append(alloc, &part.first(alloc, count)?)? {
        Some(truths) => Ok(Some(TruthsBuilder { truths, valid })),
        None => Ok(None),
    }
}

// Numbers of one width, to which those of lanes are added.
ghost use Rattle.std.specs.Prelude.{◌≡◌, ◌++◌, IfOk, IfSome, map};
ghost use Rattle.vx_array.specs.Shown.{shown};
ghost use Rattle.vx_value.specs.Types.{int};

use crate::native::Native;
use crate::rows_builder::RowsBuilder;
use crate::valid_rows::{ValidRows, valid_behind, validity_of_rows};
use std::alloc::{AllocError, Global};
use std::marker::Model;
use vx_array::{Lanes, Part, Validity};
use vx_array_loops::Number;

/// Numbers of one width, of which some may be null, to which others are added. Contracts see them as the
/// rows.
#[derive(Drop)]
pub struct NumbersBuilder<T: Native> {
    numbers: Vec<T>,
    valid: ValidRows,
}

impl<T: Native> Model for NumbersBuilder<T> {
    ghost use Rattle.std.specs.Prelude.{◌≡◌, List, length, map};
    ghost use Rattle.std.specs.Coded.{coded_list};
    ghost use Rattle.vx_value.specs.Codes.{datum_code};
    ghost use Rattle.vx_value.specs.Types.{Datum, int};
    ghost use Rattle.vx_array.specs.Shown.{masked};
    ghost use Rattle.vx_array_build.specs.Rowed.{flags};

    ghost Value = { List Datum };

    ghost coded = { coded_list datum_code };

    ghost view = { λ b. masked (flags (length b.numbers.items) b.valid) (map int (map T.number b.numbers.items)) };

    ghost invariant = { λ b. length (flags (length b.numbers.items) b.valid) ≡ length b.numbers.items };
}

impl<T: Native> NumbersBuilder<T> {
    /// The numbers in a buffer, and which of them are valid.
    pub(crate) fn into_parts(self, alloc: Global) -> Result<(Part<T>, Validity), AllocError>
        ensures { IfOk result (λ parts. shown parts.1 (map int (map T.number parts.0)) ≡ self) }
    {
        let NumbersBuilder { numbers, valid } = self;
        let validity = validity_of_rows(alloc, valid)?;
        Ok((Part::new(alloc, numbers)?, validity))
    }
}

impl<T: Native> RowsBuilder for NumbersBuilder<T> {
    ghost rows = { λ b. b };

    fn with_capacity(alloc: Global, count: usize) -> Result<NumbersBuilder<T>, AllocError> {
        Ok(NumbersBuilder {
            numbers: Vec::with_capacity(alloc, count)?,
            valid: ValidRows::All,
        })
    }

    fn push(self, alloc: Global, lanes: &Lanes) -> Result<Option<NumbersBuilder<T>>, AllocError> {
        match lanes {
            Lanes::Numbers(numbers, validity) => match T::of(numbers) {
                Some(part) => with_part(alloc, self, part, validity),
                None => Ok(None),
            },
            _ => Ok(None),
        }
    }

    fn finish(self, alloc: Global) -> Result<Lanes, AllocError> {
        let (numbers, validity) = self.into_parts(alloc)?;
        Ok(Lanes::Numbers(T::numbers(numbers), validity))
    }
}

// The same rows and behind them the numbers, where they are valid. There is an answer as for bits that are
// appended.
fn with_part<T: Native>(
    alloc: Global,
    rows: NumbersBuilder<T>,
    part: &Part<T>,
    validity: &Validity,
) -> Result<Option<NumbersBuilder<T>>, AllocError>
    ensures { IfOk result (λ found. IfSome found (λ b. b ≡ rows ++ shown validity.now (map int (map T.number part.now)))) }
{
    let NumbersBuilder { mut numbers, valid } = rows;
    let count = validity.count(part.len());
    let Some(valid) = valid_behind(alloc, valid, numbers.len(), validity, count)? else {
        return Ok(None);
    };
    numbers.extend_from_slice(&part.as_slice()[..count])?;
    Ok(Some(NumbersBuilder { numbers, valid }))
}

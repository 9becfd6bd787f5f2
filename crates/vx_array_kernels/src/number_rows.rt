// Columns of numbers in a buffer, which others are written over.
ghost use Rattle.std.specs.Prelude.{◌≡◌, IfOk, IfSome, length, map, true};
ghost use Rattle.vx_value.specs.Views.{value_of};
ghost use Rattle.vx_array.specs.Shown.{shown};
ghost use Rattle.vx_array_kernels.specs.Choices.{blended};
ghost use Rattle.vx_value.specs.Types.{int, null};
ghost use Rattle.std.proofs.Math.ListN.{replicate};

use crate::blend::Blend;
use crate::truths::{all_rows, put_bits, valid_rows};
use crate::validity::validity_by;
use crate::width::Width;
use std::alloc::{AllocError, Global};
use std::marker::Model;
use vx_array::{Lanes, Part, Validity};
use vx_array_build::Native;
use vx_array_loops::{Bits, Number, tabulated, write_where};
use vx_value::Value;

/// Numbers, and as many bits that say which of them are valid. Contracts see them as the rows.
#[derive(Drop)]
pub struct NumberRows<T: Width> {
    numbers: Vec<T>,
    valid: Bits,
}

impl<T: Width> Model for NumberRows<T> {
    ghost use Rattle.std.specs.Prelude.{◌≡◌, List, length, map};
    ghost use Rattle.std.specs.Coded.{coded_list};
    ghost use Rattle.vx_value.specs.Codes.{datum_code};
    ghost use Rattle.vx_value.specs.Types.{Datum};
    ghost use Rattle.vx_array_kernels.specs.Choices.{number_rows};

    ghost Value = { List Datum };

    ghost coded = { coded_list datum_code };

    ghost view = { λ r. number_rows r.valid (map T.number r.numbers.items) };

    ghost invariant = { λ r. length r.valid ≡ length r.numbers.items };
}

impl<T: Width> Blend for NumberRows<T> {
    ghost rows = { λ r. r };

    fn of(alloc: Global, count: usize, lanes: &Lanes) -> Result<Option<NumberRows<T>>, AllocError> {
        match lanes {
            Lanes::Numbers(numbers, validity) => match T::part(numbers) {
                Some(part) => Ok(Some(copied(alloc, count, part, validity)?)),
                None => Ok(None),
            },
            Lanes::Same(value, _) => repeated(alloc, count, value.as_ref()),
            _ => Ok(None),
        }
    }

    fn put(&mut self, alloc: Global, mask: &Bits, lanes: &Lanes) -> Result<bool, AllocError> {
        match lanes {
            Lanes::Numbers(numbers, validity) => match T::part(numbers) {
                Some(part) => put_part(alloc, self, mask, part, validity),
                None => Ok(false),
            },
            Lanes::Same(value, _) => match value.as_ref() {
                Value::Null => put_nulls(alloc, self, mask),
                Value::Int(number) => put_number(alloc, self, mask, number),
                _ => Ok(false),
            },
            _ => Ok(false),
        }
    }

    fn into_lanes(self, alloc: Global) -> Result<Option<Lanes>, AllocError> {
        let validity = validity_by(alloc, self.valid, self.numbers.len())?;
        let numbers = T::numbers(Part::new(alloc, self.numbers)?);
        Ok(Some(Lanes::Numbers(numbers, validity)))
    }
}

// The numbers, where they are valid. Asks just so many rows.
fn copied<T: Width>(
    alloc: Global,
    count: usize,
    part: &Part<T>,
    validity: &Validity,
) -> Result<NumberRows<T>, AllocError>
    requires { length (shown validity.now (map int (map T.number part.now))) ≡ count }
    ensures { IfOk result (λ r. r ≡ shown validity.now (map int (map T.number part.now))) }
{
    let _ = part.len();
    let numbers = Vec::from_slice(alloc, &part.as_slice()[..count])?;
    let valid = valid_rows(alloc, count, validity)?;
    Ok(NumberRows { numbers, valid })
}

// Writes numbers, where they are valid, over the rows where the mask is true.
fn put_part<T: Width>(
    alloc: Global,
    rows: &mut NumberRows<T>,
    mask: &Bits,
    part: &Part<T>,
    validity: &Validity,
) -> Result<bool, AllocError>
    requires mask { length mask.now ≡ length rows.old }
    requires part { length (shown validity.now (map int (map T.number part.now))) ≡ length rows.old }
    ensures { IfOk result (λ done. rows.new ≡ blended mask.now (shown validity.now (map int (map T.number part.now))) rows.old) }
{
    let numbers = part.as_slice();
    write_where(rows.numbers.as_mut_slice(), mask, |i| numbers[i]);
    let valid = valid_rows(alloc, mask.len(), validity)?;
    put_bits(&mut rows.valid, mask, valid);
    Ok(true)
}

// Makes the rows null where the mask is true.
fn put_nulls<T: Width>(
    alloc: Global,
    rows: &mut NumberRows<T>,
    mask: &Bits,
) -> Result<bool, AllocError>
    requires { length mask.now ≡ length rows.old }
    ensures { IfOk result (λ done. rows.new ≡ blended mask.now (replicate (length rows.old) null) rows.old) }
{
    let none = Bits::zeros(alloc, mask.len())?;
    put_bits(&mut rows.valid, mask, none);
    Ok(true)
}

// Writes one number over the rows where the mask is true, if it has the width.
fn put_number<T: Width>(
    alloc: Global,
    rows: &mut NumberRows<T>,
    mask: &Bits,
    number: &i128,
) -> Result<bool, AllocError>
    requires { length mask.now ≡ length rows.old }
    ensures { IfOk result (λ done. done ≡ true → rows.new ≡ blended mask.now (replicate (length rows.old) (int number.now)) rows.old) }
{
    match T::narrowed(*number) {
        Some(number) => {
            write_where(rows.numbers.as_mut_slice(), mask, |_| number);
            let all = all_rows(alloc, mask.len())?;
            put_bits(&mut rows.valid, mask, all);
            Ok(true)
        }
        None => Ok(false),
    }
}

// One value in so many rows, if it is null or a number of the width.
fn repeated<T: Width>(
    alloc: Global,
    count: usize,
    value: &Value,
) -> Result<Option<NumberRows<T>>, AllocError>
    ensures { IfOk result (λ found. IfSome found (λ r. r ≡ replicate count (value_of value.now))) }
{
    match value {
        Value::Null => {
            let numbers = vec![in alloc; T::zero(); count]?;
            let valid = Bits::zeros(alloc, count)?;
            Ok(Some(NumberRows { numbers, valid }))
        }
        Value::Int(number) => repeated_number(alloc, count, number),
        _ => Ok(None),
    }
}

// One number in so many rows, if it has the width.
fn repeated_number<T: Width>(
    alloc: Global,
    count: usize,
    number: &i128,
) -> Result<Option<NumberRows<T>>, AllocError>
    ensures { IfOk result (λ found. IfSome found (λ r. r ≡ replicate count (int number.now))) }
{
    match T::narrowed(*number) {
        Some(number) => {
            let numbers = tabulated(alloc, count, number, |_| number)?;
            let valid = all_rows(alloc, count)?;
            Ok(Some(NumberRows { numbers, valid }))
        }
        None => Ok(None),
    }
}

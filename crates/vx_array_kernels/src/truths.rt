// Columns of truth values in bits, which functions write over.
ghost use Rattle.std.specs.Prelude.{◌≡◌, ◌<◌, ℕ, IfOk, IfSome, false, true, get_or, length, map, not};
ghost use Rattle.vx_value.specs.Types.{bool};
ghost use Rattle.vx_fn.specs.Values.{kleene_and, kleene_or};
ghost use Rattle.vx_array.specs.Rows.{lanes_rows};
ghost use Rattle.vx_array.specs.Shown.{HasRows, is_valid, shown};
ghost use Rattle.std.proofs.Math.ListN.{replicate};
ghost use Rattle.vx_value.specs.Views.{value_of};
ghost use Rattle.vx_array_kernels.specs.Choices.{chosen};
ghost use Rattle.vx_array_kernels.specs.Connected.{connected};
ghost use Rattle.vx_array_kernels.specs.Truths.{both_rows};

use crate::blend::Blend;
use crate::logic::Connective;
use crate::validity::validity_by;
use std::alloc::{AllocError, Global};
use std::marker::Model;
use vx_array::{BitPart, Lanes, Validity};
use vx_array_loops::Bits;
use vx_value::Value;

/// Truth values, and as many that say which of them are valid. Contracts see them as the rows.
#[derive(Drop)]
pub struct Truths {
    valid: Bits,
    bits: Bits,
}

impl Model for Truths {
    ghost use Rattle.std.specs.Prelude.{◌≡◌, List, length};
    ghost use Rattle.std.specs.Coded.{coded_list};
    ghost use Rattle.vx_value.specs.Codes.{datum_code};
    ghost use Rattle.vx_value.specs.Types.{Datum};
    ghost use Rattle.vx_array_kernels.specs.Truths.{truth_rows};

    ghost Value = { List Datum };

    ghost coded = { coded_list datum_code };

    ghost view = { λ t. truth_rows (length t.bits) t.valid t.bits };

    ghost invariant = { λ t. length t.valid ≡ length t.bits };
}

impl Truths {
    /// The first so many rows of truth values, where they are valid. Asks just so many rows.
    pub fn of_bits(
        alloc: Global,
        count: usize,
        bits: &BitPart,
        validity: &Validity,
    ) -> Result<Truths, AllocError>
        requires { length (shown validity.now (map bool bits.now)) ≡ count }
        ensures { IfOk result (λ t. t ≡ shown validity.now (map bool bits.now)) }
    {
        Ok(Truths {
            valid: valid_rows(alloc, count, validity)?,
            bits: bits.first(alloc, count)?,
        })
    }

    // Makes of each the And with the one beside it. Asks as many.
    fn and_with(&mut self, other: &Truths)
        requires { length other.now ≡ length self.old }
        ensures { self.new ≡ both_rows (length self.old) kleene_and self.old other.now }
    {
        self.valid
            .and_validity(&self.bits, &other.valid, &other.bits);
        self.bits.and_with(&other.bits);
    }

    // Makes of each the Or with the one beside it. Asks as many.
    fn or_with(&mut self, other: &Truths)
        requires { length other.now ≡ length self.old }
        ensures { self.new ≡ both_rows (length self.old) kleene_or self.old other.now }
    {
        self.valid
            .or_validity(&self.bits, &other.valid, &other.bits);
        self.bits.or_with(&other.bits);
    }

    /// Joins each with the one beside it. Asks as many.
    pub fn connect(&mut self, connective: Connective, other: &Truths)
        requires { length other.now ≡ length self.old }
        ensures { self.new ≡ both_rows (length self.old) (connected connective) self.old other.now }
    {
        match connective {
            Connective::And => self.and_with(other),
            Connective::Or => self.or_with(other),
        }
    }
}

impl Blend for Truths {
    ghost rows = { λ t. t };

    fn of(alloc: Global, count: usize, lanes: &Lanes) -> Result<Option<Truths>, AllocError> {
        match lanes {
            Lanes::Bools(bits, validity) => Ok(Some(Truths::of_bits(
                alloc, count, bits, validity,
            )?)),
            Lanes::Same(value, _) => repeated(alloc, count, value.as_ref()),
            _ => Ok(None),
        }
    }

    fn put(&mut self, alloc: Global, mask: &Bits, lanes: &Lanes) -> Result<bool, AllocError> {
        let Some(other) = Truths::of(alloc, mask.len(), lanes)? else {
            return Ok(false);
        };
        put_bits(&mut self.bits, mask, other.bits);
        put_bits(&mut self.valid, mask, other.valid);
        Ok(true)
    }

    fn into_lanes(self, alloc: Global) -> Result<Option<Lanes>, AllocError> {
        let validity = validity_by(alloc, self.valid, self.bits.len())?;
        Ok(Some(Lanes::Bools(BitPart::new(alloc, self.bits)?, validity)))
    }
}

// One value in so many rows, if it is null or a truth value.
fn repeated(alloc: Global, count: usize, value: &Value) -> Result<Option<Truths>, AllocError>
    ensures { IfOk result (λ found. IfSome found (λ t. t ≡ replicate count (value_of value.now))) }
{
    match value {
        Value::Null => Ok(Some(Truths {
            valid: Bits::zeros(alloc, count)?,
            bits: Bits::zeros(alloc, count)?,
        })),
        Value::Bool(truth) => Ok(Some(Truths {
            valid: all_rows(alloc, count)?,
            bits: same_rows(alloc, count, *truth)?,
        })),
        _ => Ok(None),
    }
}

/// So many rows that are that truth value.
pub fn same_rows(alloc: Global, count: usize, truth: bool) -> Result<Bits, AllocError>
    ensures { IfOk result (λ b. b ≡ replicate count truth) }
{
    if truth {
        all_rows(alloc, count)
    } else {
        Bits::zeros(alloc, count)
    }
}

/// Which of the first so many rows are valid. Asks rows that are there.
pub fn valid_rows(alloc: Global, count: usize, validity: &Validity) -> Result<Bits, AllocError>
    requires { HasRows validity.now count }
    ensures long { IfOk result (λ b. length b ≡ count) }
    ensures each { IfOk result (λ b. (k : ℕ) → k < count → get_or b k false ≡ is_valid validity.now k) }
{
    match validity {
        Validity::All => Bits::tabulated(alloc, count, |_| true),
        Validity::Nothing => Bits::zeros(alloc, count),
        Validity::Rows(rows) => rows.first(alloc, count),
    }
}

/// So many rows that are true.
pub fn all_rows(alloc: Global, count: usize) -> Result<Bits, AllocError>
    ensures { IfOk result (λ b. b ≡ replicate count true) }
{
    turned(alloc, &Bits::zeros(alloc, count)?)
}

/// Writes the other's bits where the mask is true. Asks equally many.
pub fn put_bits(bits: &mut Bits, mask: &Bits, mut other: Bits)
    requires mask { length mask.now ≡ length bits.old }
    requires other { length other ≡ length bits.old }
    ensures { bits.new ≡ chosen mask.now other bits.old }
{
    other.and_with(mask);
    bits.and_not_with(mask);
    bits.or_with(&other);
}

/// The bits turned round.
pub fn turned(alloc: Global, bits: &Bits) -> Result<Bits, AllocError>
    ensures { IfOk result (λ b. b ≡ map not bits.now) }
{
    let mut others = Bits::zeros(alloc, bits.len())?;
    others.or_not_with(bits);
    Ok(others)
}

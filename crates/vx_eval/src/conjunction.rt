// Comparisons joined by And, told row by row where they are asked for.
ghost use Rattle.std.specs.Prelude.{◌≡◌, ◌<◌, IfOk, length, get_or, ◌∷◌, []};
ghost use Rattle.vx_value.specs.Types.{null};
ghost use Rattle.vx_value.specs.Views.{value_of};
ghost use Rattle.vx_fn.specs.Values as values;
ghost use Rattle.vx_eval_masks.specs.Merges.{each_row, row_at};
ghost use Rattle.vx_eval.specs.Items.{all_of, conjoined, truth_datum, HaveRow};

use crate::compared::ComparedItem;
use crate::constants::Constants;
use std::alloc::{AllocError, Global};
use std::marker::Model;
use vx_value::Value;

/// Comparisons of lent items, joined by Kleene's And: they are told in one walk of the rows, and of
/// a row no more of them than up to the first that is false.
#[derive(Drop)]
pub struct Conjunction<'a> {
    count: usize,
    items: Vec<ComparedItem<'a>>,
    constants: Constants,
}

impl<'a> Model for Conjunction<'a> {
    ghost use Rattle.std.specs.Prelude.{List};
    ghost use Rattle.std.specs.Coded.{coded_list};
    ghost use Rattle.vx_value.specs.Codes.{datum_code};
    ghost use Rattle.vx_value.specs.Types.{Datum};
    ghost use Rattle.vx_eval.specs.Items.{conjoined, AllLong};

    ghost Value = { List Datum };

    ghost coded = { coded_list datum_code };

    ghost view = { λ c. conjoined c.count c.items.items };

    ghost invariant = { λ c. AllLong c.count c.items.items };
}

impl<'a> Conjunction<'a> {
    /// The one comparison.
    pub fn new(alloc: Global, item: ComparedItem<'a>) -> Result<Conjunction<'a>, AllocError>
        ensures { IfOk result (λ c. c ≡ conjoined (length item.entry) (item.entry ∷ [])) }
    {
        Ok(Conjunction {
            count: item.len(),
            items: vec![in alloc; item]?,
            constants: Constants::new(),
        })
    }

    /// The number of rows.
    pub fn len(&self) -> usize
        ensures { result ≡ length self.now }
    {
        self.count
    }

    /// What is told of that row. Asks an index below the number of rows.
    #[inline(always)]
    pub fn truth(&self, i: usize) -> Option<bool>
        requires { i < length self.now }
        ensures { truth_datum result ≡ get_or self.now i null }
    {
        match self.items.as_slice() {
            [item] => item.truth(self.constants.null(), i),
            items => all_told(items, self.constants.null(), i),
        }
    }

    /// Whether true is told of that row. Asks an index below the number of rows.
    #[inline(always)]
    pub fn is_true(&self, i: usize) -> bool
        requires { i < length self.now }
        ensures { result ≡ values.is_true (get_or self.now i null) }
    {
        matches!(self.truth(i), Some(true))
    }

    /// What is told of that row, as a value. Asks an index below the number of rows.
    #[inline(never)]
    pub fn row(&self, i: usize) -> &Value
        requires { i < length self.now }
        ensures { value_of result.now ≡ get_or self.now i null }
    {
        self.constants.truth(self.truth(i))
    }

    /// The And with another conjunction. Asks as many rows. The fewer comparisons go behind the
    /// others, so a chain of Ands costs its length on whichever side it goes on.
    pub fn and(self, other: Conjunction<'a>) -> Result<Conjunction<'a>, AllocError>
        requires { length other ≡ length self }
        ensures { IfOk result (λ c. c ≡ each_row (length self.entry) (λ k. values.kleene_and (get_or self.entry k null) (get_or other.entry k null))) }
    {
        if self.items.len() < other.items.len() {
            let joined = other.before(&self);
            drop(self);
            joined
        } else {
            let joined = self.before(&other);
            drop(other);
            joined
        }
    }

    // The And, with the comparisons of the other one behind these.
    fn before(self, other: &Conjunction<'a>) -> Result<Conjunction<'a>, AllocError>
        requires { length other.now ≡ length self }
        ensures { IfOk result (λ c. c ≡ each_row (length self.entry) (λ k. values.kleene_and (get_or self.entry k null) (get_or other.now k null))) }
    {
        let mut joined = self;
        let others = other.items.as_slice();
        for k in 0..others.len() {
            joined.items.push(others[k].copy())?;
        }
        Ok(joined)
    }
}

// What is told of that row by all of the comparisons, up to the first that is false.
#[inline(always)]
fn all_told(items: &[ComparedItem], otherwise: &Value, i: usize) -> Option<bool>
    requires null { value_of otherwise.now ≡ null }
    requires within { HaveRow i items.now }
    ensures { truth_datum result ≡ all_of (row_at items.now i) }
{
    let mut all_true = true;
    for k in 0..items.len() {
        match items[k].truth(otherwise, i) {
            Some(true) => {}
            Some(false) => return Some(false),
            None => all_true = false,
        }
    }
    if all_true { Some(true) } else { None }
}

// The items of ranges by numbers, and the first ranges of each.
ghost use Rattle.std.specs.Prelude.{◌≡◌, IfOk, OnOk, Some, cond};
ghost use denote.Ref.{Bor};
ghost use Rattle.vx_tree.specs.Equality.{equal_bound};
ghost use Rattle.vx_tree.specs.Views.{bound_of};
ghost use Rattle.vx_tree.specs.declared.bound.BoundExpression.{BoundExpression};
ghost use Rattle.vx_rewrite_fusing.specs.Places.{first_at, number_at, place_at, IsNumbered, KeepsNumbers, SetsFirst};

use crate::ranges::Side;
use std::alloc::AllocError;
use std::collections::HashMap;
use vx_tree::BoundExpression;

// The places of an item's first ranges that are still to be merged, from either side.
#[derive(Drop)]
pub(crate) struct Firsts {
    pub below: Option<usize>,
    pub above: Option<usize>,
}

// The number of each item that has one, and the first ranges of the item of each number.
#[derive(Drop)]
pub(crate) struct Heads<'a> {
    pub numbers: HashMap<&'a BoundExpression, usize>,
    pub firsts: Vec<Firsts>,
}

impl<'a> Heads<'a> {
    // The number of the item, a new one where it has none. Here alone an item is looked up.
    pub(crate) fn number(&mut self, item: &'a BoundExpression) -> Result<usize, AllocError>
        requires { IsNumbered self.old }
        ensures numbered { OnOk result (IsNumbered self.new) }
        ensures number { IfOk result (λ n. number_at self.new item.entry ≡ Some n) }
        ensures keeps { OnOk result (KeepsNumbers self.old self.new) }
    {
        if let Some(number) = self.numbers.get(&item) {
            return Ok(*number);
        }
        let number = self.firsts.len();
        self.firsts.push(Firsts {
            below: None,
            above: None,
        })?;
        note(&mut self.numbers, item, number)?;
        Ok(number)
    }

    // The first place of a range of that side and of the item of that number.
    pub(crate) fn first(&self, side: Side, number: usize) -> Option<usize>
        ensures { result ≡ first_at self.now.firsts.items side number }
    {
        let firsts = self.firsts.get(number)?;
        match side {
            Side::Below => firsts.below,
            Side::Above => firsts.above,
        }
    }

    // Makes another place the first one of that side and of the item of that number.
    pub(crate) fn set(&mut self, side: Side, number: usize, place: Option<usize>)
        ensures numbers { self.new.numbers ≡ self.old.numbers }
        ensures sets { SetsFirst self.old.firsts.items self.new.firsts.items side number place }
    {
        if let Some(firsts) = self.firsts.get_mut(number) {
            match side {
                Side::Below => firsts.below = place,
                Side::Above => firsts.above = place,
            }
        }
    }
}

// Gives the item that number.
fn note<'a>(
    numbers: &mut HashMap<&'a BoundExpression, usize>,
    item: &'a BoundExpression,
    number: usize,
) -> Result<(), AllocError>
    ensures { OnOk result ((y : Bor BoundExpression) → place_at numbers.new (bound_of y.now) ≡ cond (equal_bound (bound_of item.now) (bound_of y.now)) (Some number) (place_at numbers.old (bound_of y.now))) }
{
    numbers.insert(item, number)?;
    Ok(())
}

// The conjuncts of a tree while pairs are merged, and where the ranges of an item stand.
ghost use Rattle.std.specs.Prelude.{◌≡◌, ◌<◌, ◌≤◌, ◌∷◌, ◌++◌, [], None, Some, MatchOption, OnOk, length, slice_get};
ghost use Rattle.vx_rewrite_fusing.specs.Places.{bounded_by, IsFirstOf, IsLinked, IsPair, IsPlaceOf, NoneFrom, PairIsMerged};
ghost use Rattle.vx_rewrite_fusing.specs.declared.places.Place.{Place};
ghost use Rattle.vx_rewrite_fusing.specs.declared.places.Place.TheVariants.{Open};

use crate::heads::Heads;
use crate::ranges::{RangeComparison, between_of};
use std::alloc::{AllocError, Global};
use std::collections::HashMap;
use vx_tree::{BoundExpression, VortexResult};

// Where the other ranges of a range's item are: by the item's number, and the place of the next one
// of its side.
#[derive(Clone, Copy)]
pub(crate) struct Link {
    pub number: usize,
    pub next: Option<usize>,
}

// What became of a conjunct.
#[derive(Drop)]
pub(crate) enum Place<'a> {
    // It is no range comparison.
    Other,
    // It is still to be merged.
    Open {
        range: RangeComparison<'a>,
        link: Link,
    },
    // A later one is merged with it.
    Merged(Box<BoundExpression>),
    // It is merged with an earlier one.
    Gone,
}

// The conjuncts of a tree, from the last one to the first.
#[derive(Drop)]
pub(crate) struct Places<'a> {
    pub list: Vec<Place<'a>>,
    pub heads: Heads<'a>,
}

impl<'a> Places<'a> {
    // No conjunct yet.
    pub(crate) fn new(alloc: Global) -> Places<'a>
        ensures list { result.list.items ≡ [] }
        ensures linked { IsLinked result }
    {
        let heads = Heads {
            numbers: HashMap::new(alloc),
            firsts: Vec::new(alloc),
        };
        Places {
            list: Vec::new(alloc),
            heads,
        }
    }

    // Puts a conjunct of that range in front of those that are there.
    pub(crate) fn push(&mut self, range: Option<RangeComparison<'a>>) -> Result<(), AllocError>
        requires { IsLinked self.old }
        ensures linked { OnOk result (IsLinked self.new) }
        ensures pushed { OnOk result ((p : Place) × (self.new.list.items ≡ self.old.list.items ++ p ∷ []) × IsPlaceOf range.entry p) }
    {
        let Some(range) = range else {
            self.list.push(Place::Other)?;
            return Ok(());
        };
        let number = self.heads.number(range.item)?;
        let next = self.heads.first(range.side, number);
        self.heads.set(range.side, number, Some(self.list.len()));
        let link = Link { number, next };
        self.list.push(Place::Open { range, link })?;
        Ok(())
    }

    // The place of the first range from `from` on that bounds the item of the one at `at` from the
    // other side.
    pub(crate) fn partner(&self, at: usize, from: usize) -> Option<usize>
        requires linked { IsLinked self.now }
        requires inside { at < length self.now.list.items }
        ensures { MatchOption result
            ((p : Place) → slice_get self.now.list.items at ≡ Some p → NoneFrom self.now.list.items from p)
            (λ first. (p : Place) → slice_get self.now.list.items at ≡ Some p → (from ≤ first) × IsFirstOf self.now.list.items first p) }
    {
        let (range, link) = range_at(&self.list[at])?;
        let first = self.heads.first(range.side.opposite(), link.number)?;
        if first < from {
            return None;
        }
        Some(first)
    }

    // Merges the ranges at two places, which bound one item from opposite sides and are the first
    // that do: the right one is gone then.
    pub(crate) fn merge(&mut self, alloc: Global, left: usize, right: usize) -> VortexResult<()>
        requires linked { IsLinked self.old }
        requires pair { IsPair self.old.list.items left right }
        ensures linked { OnOk result (IsLinked self.new) }
        ensures merged { OnOk result (PairIsMerged self.old.list.items left right self.new.list.items) }
    {
        let Some((c, c_link)) = range_at(&self.list[left]) else {
            return Ok(());
        };
        let Some((d, d_link)) = range_at(&self.list[right]) else {
            return Ok(());
        };
        let merged = between_of(alloc, c, d)?;
        self.heads.set(c.side, c_link.number, c_link.next);
        self.heads.set(d.side, d_link.number, d_link.next);
        self.list[left] = Place::Merged(merged);
        self.list[right] = Place::Gone;
        Ok(())
    }
}

// The range at a place that is still to be merged, and where the others of its item are.
fn range_at<'a>(place: &Place<'a>) -> Option<(RangeComparison<'a>, Link)>
    ensures { MatchOption result (bounded_by place.now ≡ None) (λ o. place.now ≡ Open o.0 o.1) }
{
    match place {
        Place::Open { range, link } => Some((*range, *link)),
        Place::Other | Place::Merged(_) | Place::Gone => None,
    }
}

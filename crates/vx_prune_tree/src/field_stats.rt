// Statistics of the values along a path.
ghost use Rattle.std.specs.Prelude.{◌≡◌, None, option_map};
ghost use Rattle.vx_value.specs.Views.{value_of};
ghost use Rattle.vx_prune_bounds.specs.Views.{bounds_view, endpoint_value};
ghost use Rattle.vx_prune_tree.specs.Consistent.{AreConsistent, are_at_most, are_ordered, inconsistency_of};
ghost use Rattle.vx_prune_tree.specs.Stats.{field_bounds, is_known_as, known_end, no_facts};

use crate::order::at_most;
use vx_prune_bounds::{Bounds, Endpoint, is_interval};
use vx_value::Value;

/// What is known of the values along a path of a chunk's rows. Nothing sees that it is true.
#[derive(Debug, Drop)]
pub struct FieldStats {
    /// How many of them are null, those of rows with a null struct on the way among them.
    pub null_count: Option<usize>,
    /// A value that comes before each one that isn't null, or is equal to it.
    pub least: Option<Value>,
    /// A value that comes behind each one that isn't null, or is equal to it.
    pub greatest: Option<Value>,
}

/// What can't be so of the values along a path.
#[derive(Clone, Copy, Debug, PartialEq, Eq)]
pub enum Inconsistency {
    /// More of them are null than there are rows.
    MoreNullsThanRows,
    /// The least one comes behind the greatest, or the two can't be compared.
    LeastAboveGreatest,
}

impl FieldStats {
    ghost use Rattle.vx_prune_tree.specs.Views.{stats_facts};

    /// That nothing is known.
    pub fn unknown() -> FieldStats
        ensures { stats_facts result ≡ no_facts }
    {
        FieldStats {
            null_count: None,
            least: None,
            greatest: None,
        }
    }

    /// Bounds of the values along the path, in a chunk of so many rows. One may be null unless it is
    /// known that none is, and another value unless it is known that all are null or the least isn't at
    /// most the greatest; the ends are the least and the greatest, where they can be compared. Where
    /// what is known is true, each of the values is within these bounds. Takes no memory.
    pub fn bounds(&self, rows: usize) -> Bounds<'_>
        ensures { bounds_view result ≡ field_bounds rows (stats_facts self.now) }
    {
        let least = known_end(&self.least);
        let greatest = known_end(&self.greatest);
        Bounds {
            null: !is_known_as(0, self.null_count),
            value: !is_known_as(rows, self.null_count) && is_interval(least, greatest),
            least,
            greatest,
        }
    }

    /// What of this can't be so of values in a chunk of so many rows, if something can't: more nulls
    /// than rows, else a least value that isn't at most the greatest. NaN comes behind every other
    /// number. Takes no memory.
    pub fn inconsistency(&self, rows: usize) -> Option<Inconsistency>
        ensures exact { result ≡ inconsistency_of rows (stats_facts self.now) }
        ensures consistent { result ≡ None → AreConsistent rows (stats_facts self.now) }
    {
        if !are_at_most(self.null_count, rows) {
            Some(Inconsistency::MoreNullsThanRows)
        } else if !are_ordered(&self.least, &self.greatest) {
            Some(Inconsistency::LeastAboveGreatest)
        } else {
            None
        }
    }
}

// Whether there are no more than so many, where their number is known.
fn are_at_most(known: Option<usize>, rows: usize) -> bool
    ensures { result ≡ are_at_most known rows }
{
    match known {
        Some(count) => count <= rows,
        None => true,
    }
}

// Whether the first value is at most the second, where both are known.
fn are_ordered(least: &Option<Value>, greatest: &Option<Value>) -> bool
    ensures { result ≡ are_ordered (option_map value_of least.now) (option_map value_of greatest.now) }
{
    match (least, greatest) {
        (Some(least), Some(greatest)) => at_most(least, greatest),
        _ => true,
    }
}

// Whether that number is known.
fn is_known_as(number: usize, known: Option<usize>) -> bool
    ensures { result ≡ is_known_as number known }
{
    match known {
        Some(count) => count == number,
        None => false,
    }
}

// The value, if one is known that can be compared.
fn known_end(known: &Option<Value>) -> Option<Endpoint<'_>>
    ensures { option_map endpoint_value result ≡ known_end (option_map value_of known.now) }
{
    match known {
        Some(value) => Endpoint::of(value),
        None => None,
    }
}

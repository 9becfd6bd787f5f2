// Statistics that are read off rows.
ghost use Rattle.std.specs.Prelude.{◌≡◌, ◌≤◌, IfOk, length, count_by, map, option_map};
ghost use Rattle.vx_value.specs.Returns.{ReturnsOrOom};
ghost use Rattle.vx_value.specs.Types.{is_null_datum};
ghost use Rattle.vx_value.specs.Views.{value_of, type_of};
ghost use Rattle.vx_prune_tree.specs.Ends.{AreEnds};
ghost use Rattle.vx_prune_tree.specs.Lent.{at_places, lent_value};
ghost use Rattle.vx_projection.specs.Lost.{lost, unless_lost};
ghost use Rattle.vx_prune_tree.specs.Reading.{entry_along, facts_of, not_nulls};
ghost use Rattle.vx_prune_tree.specs.Views.{entry_facts, stats_facts};

use crate::ends::Ends;
use crate::field_stats::FieldStats;
use crate::places::{places_along, value_at};
use std::alloc::{AllocError, Global};
use vx_dtype::VortexResult;
use vx_value::{Column, FieldPath, Value};

// The path, and what the batch has along it. Refuses a path that leads nowhere in the batch's type.
pub(crate) fn entry_along(
    alloc: Global,
    batch: &Column,
    path: &FieldPath,
) -> VortexResult<(FieldPath, FieldStats)>
    ensures { ReturnsOrOom entry_facts result (unless_lost (lost path.now batch.now.type) (entry_along batch.now.type batch.now.rows path.now)) }
{
    let places = places_along(alloc, batch.dtype(), path.parts())?;
    let stats = stats_of(batch.rows(), places.as_slice())?;
    Ok((path.clone()?, stats))
}

// What the rows have at the places.
fn stats_of(rows: &[Value], places: &[usize]) -> Result<FieldStats, AllocError>
    ensures { IfOk result (λ s. stats_facts s ≡ facts_of (map (at_places places.now) (map value_of rows.now))) }
{
    let (nulls, ends) = scanned(rows, places);
    let least = copied(ends.and_then(|ends| ends.least))?;
    let greatest = copied(ends.and_then(|ends| ends.greatest))?;
    Ok(FieldStats {
        null_count: Some(nulls),
        least,
        greatest,
    })
}

// How many nulls the rows have at the places, and the least and the greatest of the other values.
fn scanned<'a>(rows: &'a [Value], places: &[usize]) -> (usize, Option<Ends<'a>>)
    ensures nulls { result.0 ≡ count_by is_null_datum (map (at_places places.now) (map value_of rows.now)) }
    ensures ends { AreEnds result.1 (not_nulls (map (at_places places.now) (map value_of rows.now))) }
{
    let mut nulls = 0;
    let mut ends = None;
    for row in rows {
        match value_at(row, places) {
            None => nulls += 1,
            Some(value) => ends = Some(Ends::with(ends, value)),
        }
    }
    (nulls, ends)
}

// A copy of the value, if there is one.
fn copied(value: Option<&Value>) -> Result<Option<Value>, AllocError>
    ensures { IfOk result (λ copy. option_map value_of copy ≡ lent_value value.entry) }
{
    match value {
        Some(value) => Ok(Some(value.clone()?)),
        None => Ok(None),
    }
}

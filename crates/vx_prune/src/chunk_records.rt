// Records that say what is known of chunks.
ghost use Rattle.std.specs.Prelude.{◌≡◌, IfOk, Some, [], option_map, unwrap_or};
ghost use Rattle.vx_value.specs.Items.{datum_at};
ghost use Rattle.vx_value.specs.Types.{null};
ghost use Rattle.vx_value.specs.Views.{data_view, type_of, value_of};
ghost use Rattle.vx_prune_tree.specs.Consistent.{IsConsistent};
ghost use Rattle.vx_prune_tree.specs.Lent.{lent_value};
ghost use Rattle.vx_prune_tree.specs.Reading.{unless_null};
ghost use Rattle.vx_prune_tree.specs.Stats.{facts};
ghost use Rattle.vx_prune_tree.specs.Views.{stats_facts};
ghost use Rattle.vx_prune.specs.Records.{GivesOrOom, count_in, field_said, in_rows, stats_in, with_place, with_places};
ghost use Rattle.vx_prune.specs.Views.{place_of, places_of};

use crate::places::{Place, places_in};
use crate::record_type::record_type;
use crate::stats_error::StatsError;
use std::alloc::{AllocError, Global};
use std::marker::Model;
use vx_dtype::{DType, VortexResult};
use vx_prune_tree::{ChunkStats, FieldStats, Inconsistency};
use vx_value::Value;

/// What records of statistics say of chunks of rows of a type.
///
/// A record has the number of `rows`, and in `fields` for any places how many values are null
/// (`nulls`), and the `least` and the `greatest` of the others:
/// `{"rows": 3, "fields": {"a.x": {"nulls": 1, "least": 1, "greatest": 5}}}`. A place is called by its
/// path as source text has it: names that are no words stand between backquotes, as in `` a.`x.y` ``,
/// and `$` is the whole row. What isn't there isn't known.
#[derive(Drop)]
pub struct ChunkRecords<'a> {
    dtype: DType,
    places: Vec<Place<'a>>,
}

impl<'a> Model for ChunkRecords<'a> {
    ghost use Rattle.vx_value.specs.Views.{type_of};
    ghost use Rattle.vx_prune.specs.Records.{Form, form, form_code};
    ghost use Rattle.vx_prune.specs.Views.{places_of};

    ghost Value = { Form };

    ghost coded = { form_code };

    ghost view = { λ r. form (type_of r.dtype) (places_of r.places.items) };
}

impl<'a> ChunkRecords<'a> {
    /// Those of chunks of rows of that type. Refuses with `OutOfMemory` (1) alone.
    pub fn new(alloc: Global, dtype: &'a DType) -> VortexResult<ChunkRecords<'a>> {
        let places = places_in(alloc, dtype)?;
        Ok(ChunkRecords {
            dtype: record_type(alloc, places.as_slice())?,
            places,
        })
    }

    /// The type of the records. Refuses with `OutOfMemory` (1) alone.
    pub fn record_type(&self) -> VortexResult<DType>
        ensures { IfOk result (λ t. type_of t ≡ self.now.type) }
    {
        Ok(self.dtype.clone()?)
    }

    /// What the record says that is this row. Refuses one that isn't of the type of the records with
    /// `Misfit`; else what can't be so of the first such place: more nulls than rows with
    /// `MoreNullsThanRows`, and then a least value that isn't at most the greatest with
    /// `LeastAboveGreatest`, each with what the place is called; and with `OutOfMemory`. So what is read
    /// is consistent.
    pub fn stats(&self, alloc: Global, row: &Value) -> Result<ChunkStats, StatsError>
        ensures read { GivesOrOom (λ stats. stats) result (stats_in self.now (value_of row.now)) }
        ensures consistent { IfOk result IsConsistent }
    {
        if !row.fits(&self.dtype) {
            return Err(StatsError::Misfit);
        }
        let Value::Struct(parts) = row else {
            return Err(StatsError::Misfit);
        };
        in_parts(alloc, self.places.as_slice(), parts.as_slice())
    }
}

// What is known, by the number of rows and by what is said of the places behind it.
fn in_parts(alloc: Global, places: &[Place<'_>], parts: &[Value]) -> Result<ChunkStats, StatsError>
    ensures read { GivesOrOom (λ stats. stats) result (in_rows (places_of places.now) (count_in (datum_at 0 (data_view parts.now))) (datum_at 1 (data_view parts.now))) }
    ensures consistent { IfOk result IsConsistent }
{
    match count(parts.first()) {
        Some(rows) => in_rows(alloc, rows, places, parts.get(1)),
        None => Err(StatsError::Misfit),
    }
}

// What is known of so many rows, by what the value says of the places; null, and what isn't there, says
// nothing.
fn in_rows(
    alloc: Global,
    rows: usize,
    places: &[Place<'_>],
    said: Option<&Value>,
) -> Result<ChunkStats, StatsError>
    ensures read { GivesOrOom (λ stats. stats) result (in_rows (places_of places.now) (Some rows) (unwrap_or (lent_value said.entry) null)) }
    ensures consistent { IfOk result IsConsistent }
{
    match said {
        Some(Value::Struct(values)) => with_places(alloc, rows, places, values.as_slice()),
        _ => Ok(ChunkStats::new(alloc, rows)),
    }
}

// What is known of so many rows, by what the values say of the places beside them.
fn with_places(
    alloc: Global,
    rows: usize,
    places: &[Place<'_>],
    values: &[Value],
) -> Result<ChunkStats, StatsError>
    ensures { GivesOrOom (λ stats. stats) result (with_places (facts rows []) (places_of places.now) (data_view values.now)) }
{
    let mut stats = ChunkStats::new(alloc, rows);
    for (place, value) in places.iter().zip(values) {
        add_place(place, value, &mut stats)?;
    }
    Ok(stats)
}

// Adds what the value says of the place.
fn add_place(place: &Place<'_>, value: &Value, stats: &mut ChunkStats) -> Result<(), StatsError>
    ensures { GivesOrOom (λ _. stats.new) result (with_place stats.old (place_of place.now) (value_of value.now)) }
{
    let Value::Struct(said) = value else {
        return Ok(());
    };
    let known = field_stats(said.as_slice())?;
    match known.inconsistency(stats.rows()) {
        None => match stats.insert(place.path.clone()?, known) {
            Ok(()) => Ok(()),
            Err(_) => Err(StatsError::OutOfMemory),
        },
        Some(Inconsistency::MoreNullsThanRows) => {
            Err(StatsError::MoreNullsThanRows(place.name.clone()?))
        }
        Some(Inconsistency::LeastAboveGreatest) => {
            Err(StatsError::LeastAboveGreatest(place.name.clone()?))
        }
    }
}

// What the number of nulls, the least and the greatest value say; null, and what isn't there, says
// nothing.
fn field_stats(said: &[Value]) -> Result<FieldStats, AllocError>
    ensures { IfOk result (λ known. stats_facts known ≡ field_said (data_view said.now)) }
{
    Ok(FieldStats {
        null_count: count(said.first()),
        least: end(said.get(1))?,
        greatest: end(said.get(2))?,
    })
}

// The number, if one is said.
fn count(value: Option<&Value>) -> Option<usize>
    ensures { result ≡ count_in (unwrap_or (lent_value value.entry) null) }
{
    match value {
        Some(Value::Int(count)) => usize::try_from(*count).ok(),
        _ => None,
    }
}

// A copy of the value, if one is said.
fn end(value: Option<&Value>) -> Result<Option<Value>, AllocError>
    ensures { IfOk result (λ end. option_map value_of end ≡ unless_null (unwrap_or (lent_value value.entry) null)) }
{
    match value {
        Some(value) if !value.is_null() => Ok(Some(value.clone()?)),
        _ => Ok(None),
    }
}

// Statistics of a chunk of rows.
ghost use Rattle.std.specs.Prelude.{◌≡◌, [], List, IfErr, IfOk, OnErr, OnOk, map, option_map, position, unwrap_or};
ghost use Rattle.vx_value.specs.Returns.{ReturnsOrOom};
ghost use Rattle.vx_value.specs.Paths.{equal_path, minimal_paths};
ghost use Rattle.vx_value.specs.Types.{Datum, LogicalType};
ghost use Rattle.vx_prune_bounds.specs.Views.{bounds_view};
ghost use Rattle.vx_dtype.specs.declared.error.VortexError.TheVariants.{OutOfMemory};
ghost use Rattle.vx_projection.specs.Lost.{first_lost, unless_lost};
ghost use Rattle.vx_prune_tree.specs.Reading.{facts_along};
ghost use Rattle.vx_prune_tree.specs.Stats.{along, AreTrueOf, Describes, entry_at, facts, facts_at, field_bounds, no_facts, put_facts};
ghost use Rattle.vx_prune_tree.specs.Views.{entry_facts, stats_facts};

use crate::field_stats::FieldStats;
use crate::reading::entry_along;
use std::alloc::Global;
use std::marker::Model;
use vx_dtype::VortexResult;
use vx_prune_bounds::Bounds;
use vx_value::{Column, FieldPath, FieldPathSet};

/// What is known of a chunk of rows: how many there are, and of some paths what is known of the
/// values along them. Nothing sees that it is true, but for what [`ChunkStats::of`] reads.
#[derive(Debug, Drop)]
pub struct ChunkStats {
    rows: usize,
    fields: Vec<(FieldPath, FieldStats)>,
}

impl Model for ChunkStats {
    ghost use Rattle.std.specs.Prelude.{map};
    ghost use Rattle.vx_prune_tree.specs.Codes.{facts_code};
    ghost use Rattle.vx_prune_tree.specs.Stats.{Facts, facts};
    ghost use Rattle.vx_prune_tree.specs.Views.{entry_facts};

    ghost Value = { Facts };

    ghost coded = { facts_code };

    ghost view = { λ s. facts s.rows (map entry_facts s.fields.items) };
}

impl ChunkStats {
    /// Those of so many rows of which nothing else is known. Takes no memory.
    pub fn new(alloc: Global, rows: usize) -> ChunkStats
        ensures { result ≡ facts rows [] }
    {
        ChunkStats {
            rows,
            fields: Vec::new(alloc),
        }
    }

    /// What the batch has along the paths of [`FieldPathSet::iter`], in their order: its number of
    /// rows, and of each path how many of the values along it are null, and the least and the greatest
    /// of the others. Neither is known where all values are null, nor where two can't be compared, as
    /// lists and structs. A field of a null struct is null.
    ///
    /// Reads each row once for each path, and copies the least and the greatest values alone.
    ///
    /// Refuses the first path that leads nowhere in the batch's type: with `NoSuchField` (5) and the
    /// name where there is no field of it, and with `NotAStruct` (4) where it goes on in another type
    /// than a struct; and with `OutOfMemory` (1).
    pub fn of(alloc: Global, batch: &Column, paths: &FieldPathSet) -> VortexResult<ChunkStats>
        ensures read { ReturnsOrOom (λ stats. stats) result (unless_lost (first_lost (minimal_paths paths.now) batch.now.type) (facts_along batch.now.type (minimal_paths paths.now) batch.now.rows)) }
        ensures describes { IfOk result (λ stats. Describes stats batch.now.type batch.now.rows) }
    {
        let mut fields = Vec::new(alloc);
        for path in paths.iter() {
            match entry_along(alloc, batch, path) {
                Ok(entry) => fields.push(entry)?,
                Err(refusal) => return Err(refusal),
            }
        }
        Ok(ChunkStats {
            rows: batch.len(),
            fields,
        })
    }

    /// The same, with this for what is known of the path. Looks through the paths that are there.
    /// Refuses with `OutOfMemory` (1) alone, and is then as it was.
    pub fn insert(&mut self, path: FieldPath, stats: FieldStats) -> VortexResult<()>
        ensures inserted { OnOk result (self.new ≡ facts self.old.rows (put_facts self.old.fields path (stats_facts stats))) }
        ensures known { OnOk result (facts_at self.new.fields path ≡ stats_facts stats) }
        ensures describes { OnOk result ((t : LogicalType) (rows : List Datum) → Describes self.old t rows → AreTrueOf (stats_facts stats) (along t path rows) → Describes self.new t rows) }
        ensures unchanged { OnErr result (self.new ≡ self.old) }
        ensures memory { IfErr result (λ e. e ≡ OutOfMemory) }
    {
        match place_of(self.fields.as_slice(), &path) {
            Some(place) => self.fields[place].1 = stats,
            None => self.fields.push((path, stats))?,
        }
        Ok(())
    }

    /// The number of rows.
    pub fn rows(&self) -> usize
        ensures { result ≡ self.now.rows }
    {
        self.rows
    }

    /// What is known of the values along the path, if that is something. Looks through the paths.
    pub fn field(&self, path: &FieldPath) -> Option<&FieldStats>
        ensures { option_map (λ stats. stats_facts stats.now) result ≡ entry_at self.now.fields path.now }
    {
        let place = place_of(self.fields.as_slice(), path)?;
        Some(&self.fields[place].1)
    }

    /// Bounds of the values along the path: each of them is within these, where what is known is true.
    /// Looks through the paths.
    pub fn bounds(&self, path: &FieldPath) -> Bounds<'_>
        ensures { bounds_view result ≡ field_bounds self.now.rows (facts_at self.now.fields path.now) }
    {
        self.bounds_of(self.field(path))
    }

    /// The same of a path that was looked up already, among [`ChunkStats::entries`]. Takes no memory.
    pub fn bounds_of<'a>(&'a self, known: Option<&'a FieldStats>) -> Bounds<'a>
        ensures { bounds_view result ≡ field_bounds self.now.rows (unwrap_or (option_map (λ stats. stats_facts stats.now) known.entry) no_facts) }
    {
        match known {
            Some(stats) => stats.bounds(self.rows),
            None => Bounds {
                null: true,
                value: true,
                least: None,
                greatest: None,
            },
        }
    }

    /// The paths, each beside what is known of the values along it.
    pub fn entries(&self) -> &[(FieldPath, FieldStats)]
        ensures { map entry_facts result.now ≡ self.now.fields }
    {
        self.fields.as_slice()
    }
}

// Where the path stands among the entries.
fn place_of(entries: &[(FieldPath, FieldStats)], path: &FieldPath) -> Option<usize>
    ensures { result ≡ position (λ entry. equal_path path.now entry.0) entries.now }
{
    entries.iter().position(|entry| *path == entry.0)
}

// Columns beside masks that are apart, as one column: in the order of the rows, or over another.
ghost use Rattle.std.specs.Prelude.{◌≡◌, ◌<◌, ◌≤◌, ℕ, IfOk, IfErr, length, map, get_or, List, [], ◌∷◌, ◌++◌};
ghost use Rattle.vx_dtype.specs.declared.error.VortexError.TheVariants.{OutOfMemory};
ghost use Rattle.vx_value.specs.Types.{Datum, null};
ghost use Rattle.vx_eval_masks.specs.Merges.{merged_at, EachMask, AreApart};
ghost use Rattle.vx_eval.specs.Columns.{values_of, rows_view, rows_views, row_at, each_row, AllLong};
ghost use Rattle.vx_eval.specs.Choices.{SameRows};

use crate::rows::Rows;
use std::alloc::{AllocError, Global};
use vx_dtype::VortexResult;
use vx_eval_masks::{Merging, RowMask, place_at, place_of_all};
use vx_value::Value;

/// At each row the value of the column whose mask is true there, else null. A column that has every
/// row is answered as it is; else what is owned is moved, and what is lent copied. Asks masks of
/// which no two are true at one row. Refuses with `OutOfMemory` (1) alone.
pub fn merged<'a>(
    alloc: Global,
    count: usize,
    merging: Merging,
    masks: Vec<RowMask>,
    mut values: Vec<Rows<'a>>,
) -> VortexResult<Rows<'a>>
    requires pairs { length values.items ≡ length masks.items }
    requires masks { EachMask count masks.items }
    requires columns { AllLong count (rows_views values.items) }
    requires apart { AreApart masks.items }
    ensures rows { IfOk result (λ out. rows_view out ≡ each_row count (merged_at masks.items (rows_views values.entry.items) null)) }
    ensures memory { IfErr result (λ e. e ≡ OutOfMemory) }
{
    let choices = Choices {
        masks: masks.as_slice(),
        merging,
    };
    match place_of_all(choices.masks) {
        Some(place) => Ok(values.swap_remove(place)),
        None => Ok(Rows::Owned(choices.in_order(alloc, count, values)?)),
    }
}

/// The same over rows that are there: those that no mask has stay.
pub fn written<'a>(
    mut rows: Vec<Value>,
    mut masks: Vec<RowMask>,
    mut values: Vec<Rows<'a>>,
) -> VortexResult<Rows<'a>>
    requires pairs { length values.items ≡ length masks.items }
    requires masks { EachMask (length rows.items) masks.items }
    requires columns { AllLong (length rows.items) (rows_views values.items) }
    requires apart { AreApart masks.items }
    ensures rows { IfOk result (λ out. rows_view out ≡ each_row (length rows.items) (λ k. merged_at masks.items (rows_views values.entry.items) (get_or (values_of rows.items) k null) k)) }
    ensures memory { IfErr result (λ e. e ≡ OutOfMemory) }
{
    if let Some(place) = place_of_all(masks.as_slice()) {
        drop(rows);
        return Ok(values.swap_remove(place));
    }
    while let Some(mask) = masks.pop() {
        pop_last(&mut values).write_rows(&mut rows, &mask)?;
    }
    Ok(Rows::Owned(rows))
}

// The last column.
fn pop_last<'a>(columns: &mut Vec<Rows<'a>>) -> Rows<'a>
    requires { 0 < length columns.old.items }
    ensures { columns.old.items ≡ columns.new.items ++ result ∷ [] }
{
    columns.pop().unwrap()
}

// Masks of which no two are true at one row, and in what steps rows of their columns are put together.
#[derive(Clone, Copy)]
struct Choices<'m> {
    masks: &'m [RowMask],
    merging: Merging,
}

impl Choices<'_> {
    // The rows in their order, a stretch of one column at a time.
    fn in_order(
        &self,
        alloc: Global,
        count: usize,
        mut values: Vec<Rows>,
    ) -> Result<Vec<Value>, AllocError>
        requires pairs { length values.items ≡ length self.now.masks.now }
        requires masks { EachMask count self.now.masks.now }
        requires columns { AllLong count (rows_views values.items) }
        requires apart { AreApart self.now.masks.now }
        ensures { IfOk result (λ rows. values_of rows.items ≡ each_row count (merged_at self.now.masks.now (rows_views values.entry.items) null)) }
    {
        let mut rows = Vec::with_capacity(alloc, count)?;
        let mut next = 0;
        while next < count {
            next = self.push_stretch(count, &mut rows, &mut values, next)?;
        }
        Ok(rows)
    }

    // Puts the rows from that one on behind others, as far as one mask is true, or a null where none
    // is, and gives the row behind them. The values of the rows behind them stay.
    fn push_stretch(
        &self,
        count: usize,
        rows: &mut Vec<Value>,
        values: &mut Vec<Rows>,
        next: usize,
    ) -> Result<usize, AllocError>
        requires row { next < count }
        requires pairs { length values.old.items ≡ length self.now.masks.now }
        requires masks { EachMask count self.now.masks.now }
        requires columns { AllLong count (rows_views values.old.items) }
        requires apart { AreApart self.now.masks.now }
        ensures further { IfOk result (λ end. next < end) }
        ensures within { IfOk result (λ end. end ≤ count) }
        ensures rows { (cs : List (List Datum)) → length cs ≡ length self.now.masks.now → SameRows next cs (rows_views values.old.items) → values_of rows.old.items ≡ each_row next (merged_at self.now.masks.now cs null) → IfOk result (λ end. values_of rows.new.items ≡ each_row end (merged_at self.now.masks.now cs null)) }
        ensures left { IfOk result (λ end. SameRows end (rows_views values.old.items) (rows_views values.new.items)) }
        ensures long { IfOk result (λ _. map length (rows_views values.new.items) ≡ map length (rows_views values.old.items)) }
    {
        let Choices { masks, merging } = *self;
        match place_at(masks, next) {
            Some(place) => values[place].push_rows(merging, rows, &masks[place], next),
            None => {
                rows.push(Value::Null)?;
                Ok(next + 1)
            }
        }
    }
}

// The values of a column while it is worked on.
ghost use Rattle.std.specs.Prelude.{◌++◌, ◌≡◌, ◌≢◌, ◌<◌, ℕ, IfOk, true, false, length, get_or, map, Ok};
ghost use Rattle.vx_dtype.specs.Returns.{ReturnsOrOom};
ghost use Rattle.vx_value.specs.Types.{Datum, null};
ghost use Rattle.vx_value.specs.Columns.{batch};
ghost use Rattle.vx_value.specs.Fits.{IsBatch};
ghost use Rattle.vx_value.specs.Views.{type_of, value_of};
ghost use Rattle.vx_fn.specs.Values as values;
ghost use Rattle.vx_eval_masks.specs.Masks.{both, IsRunFrom};
ghost use Rattle.vx_eval_masks.specs.Merges.{HoldsIn, StaysFrom, IsWritten};
ghost use Rattle.vx_eval.specs.Columns.{each_row, values_of, rows_view, rows_views, row_at, truth_of, HaveRow};

use crate::conjunction::Conjunction;
use crate::constants::Constants;
use crate::fields::item_row;
use crate::filling::made_behind;
use crate::truths::{mask_of, truth_at, truth_of, truth_value};
use std::alloc::{AllocError, Global};
use std::sync::Arc;
use vx_dtype::{DType, VortexResult};
use vx_eval_masks::{
    Merging, RowMask, push_moved, push_repeated, push_with, write_moved, write_repeated, write_with,
};
use vx_value::{Column, TakeRow, Value};

/// The values of a column, row by row: lent, or its own to move.
#[derive(Drop)]
pub enum Rows<'a> {
    /// Values that are lent.
    Lent(&'a [Value]),
    /// The values of a whole column that is lent, which others may share.
    Shared(&'a Arc<Vec<Value>>),
    /// The items at one place of structs that are lent.
    Item(&'a [Value], usize, Constants),
    /// Values that nobody shares.
    Owned(Vec<Value>),
    /// One lent value, in so many rows.
    Same(&'a Value, usize),
    /// Truth values, and null where there is none.
    Truths(Vec<Option<bool>>, Constants),
    /// Comparisons of items that are lent, joined by And.
    Compared(Conjunction<'a>),
}

impl<'a> Rows<'a> {
    /// The rows of a column that is lent.
    pub fn of(column: &'a Column) -> Rows<'a>
        ensures { rows_view result ≡ column.now.rows }
    {
        match column.shared_rows() {
            Some(values) => Rows::Shared(values),
            None => Rows::Lent(column.rows()),
        }
    }

    /// The value of that row. Asks an index below the number of rows.
    #[inline]
    pub fn row(&self, i: usize) -> &Value
        requires { i < length (rows_view self.now) }
        ensures { value_of result.now ≡ get_or (rows_view self.now) i null }
    {
        match self {
            Rows::Lent(values) => value_at(*values, i),
            Rows::Shared(values) => &values.as_slice()[i],
            Rows::Item(values, place, constants) => item_row(constants.null(), *values, *place, i),
            Rows::Owned(values) => &values[i],
            Rows::Same(value, _) => value,
            Rows::Truths(truths, constants) => constants.truth(truths[i]),
            Rows::Compared(tests) => tests.row(i),
        }
    }

    /// The truth value of that row, if its value is one. Asks an index below the number of rows.
    #[inline]
    pub fn truth(&self, i: usize) -> Option<bool>
        requires { i < length (rows_view self.now) }
        ensures { result ≡ truth_of (get_or (rows_view self.now) i null) }
    {
        match self {
            Rows::Truths(truths, _) => truths[i],
            Rows::Compared(tests) => tests.truth(i),
            values => truth_of(values.row(i)),
        }
    }

    /// Whether the value of that row is true. Asks an index below the number of rows.
    #[inline]
    pub fn is_true(&self, i: usize) -> bool
        requires { i < length (rows_view self.now) }
        ensures { result ≡ values.is_true (get_or (rows_view self.now) i null) }
    {
        matches!(self.truth(i), Some(true))
    }

    /// The mask of those rows of another one whose value is true; the others are passed over. Asks a
    /// mask of as many rows.
    pub fn true_rows(&self, alloc: Global, among: &RowMask) -> Result<RowMask, AllocError>
        requires { length (rows_view self.now) ≡ length among.now }
        ensures { IfOk result (λ mask. mask ≡ both (map values.is_true (rows_view self.now)) among.now) }
    {
        let among = among.as_slice();
        match self {
            Rows::Compared(tests) => mask_of(alloc, among.len(), |i| among[i] && tests.is_true(i)),
            column => mask_of(alloc, among.len(), |i| among[i] && column.is_true(i)),
        }
    }

    /// Puts the values from that row on, as far as the mask is true, behind others, and gives the
    /// row behind them. What is owned is moved, what is lent copied; the values behind them stay.
    /// Asks a mask that is true at that row, and as many values as rows.
    pub fn push_rows(
        &mut self,
        merging: Merging,
        rows: &mut Vec<Value>,
        mask: &RowMask,
        from: usize,
    ) -> Result<usize, AllocError>
        requires within { from < length mask.now }
        requires here { get_or mask.now from false ≡ true }
        requires values { length (rows_view self.old) ≡ length mask.now }
        ensures run { IfOk result (λ end. IsRunFrom mask.now from end) }
        ensures rows { (g : ℕ → Datum) → HoldsIn mask.now from (rows_view self.old) g → values_of rows.old.items ≡ each_row from g → IfOk result (λ end. values_of rows.new.items ≡ each_row end g) }
        ensures left { IfOk result (λ end. StaysFrom end (rows_view self.old) (rows_view self.new)) }
        ensures long { IfOk result (λ _. length (rows_view self.new) ≡ length (rows_view self.old)) }
    {
        if let Rows::Owned(values) = self {
            return push_moved(merging, rows, mask, from, values);
        }
        match &*self {
            Rows::Same(value, _) => push_repeated(merging, rows, mask, from, value),
            Rows::Item(structs, place, constants) => {
                let (structs, place, otherwise) = (*structs, *place, constants.null());
                push_with(
                    merging,
                    rows,
                    mask,
                    from,
                    |i| copied(item_row(otherwise, structs, place, i)),
                )
            }
            column => push_with(merging, rows, mask, from, |i| copied(column.row(i))),
        }
    }

    /// Writes the values of the true rows into these rows: what is owned is moved, what is lent
    /// copied. Asks a mask and values of as many rows.
    pub fn write_rows(self, rows: &mut Vec<Value>, mask: &RowMask) -> Result<(), AllocError>
        requires mask { length mask.now ≡ length rows.old.items }
        requires column { length (rows_view self) ≡ length rows.old.items }
        ensures { IfOk result (λ _. IsWritten mask.now (λ k. get_or (rows_view self.entry) k null) (values_of rows.old.items) (values_of rows.new.items)) }
    {
        match self {
            Rows::Owned(values) => {
                write_moved(rows, mask.as_slice(), values);
                Ok(())
            }
            Rows::Same(value, _) => write_repeated(rows, mask.as_slice(), value),
            Rows::Item(structs, place, constants) => {
                let otherwise = constants.null();
                write_with(
                    rows,
                    mask.as_slice(),
                    |i| copied(item_row(otherwise, structs, place, i)),
                )
            }
            column => write_with(rows, mask.as_slice(), |i| copied(column.row(i))),
        }
    }

    /// The rows as a column of the type, which has to be that of each value. Refuses with
    /// `OutOfMemory` (1) alone.
    pub fn into_column(self, alloc: Global, dtype: &DType) -> VortexResult<Column>
        requires { IsBatch (type_of dtype.now) (rows_view self) }
        ensures { ReturnsOrOom (λ c. c) result (Ok (batch (type_of dtype.now) (rows_view self.entry))) }
    {
        let rows = self.into_shared(alloc)?;
        let dtype = dtype.clone()?;
        Ok(Column::from_shared(dtype, rows))
    }

    /// The values as a `Vec` that others may share, with no copy where they are in one. Refuses
    /// with `OutOfMemory` (1) alone.
    pub fn into_shared(self, alloc: Global) -> VortexResult<Arc<Vec<Value>>>
        ensures { ReturnsOrOom (λ values. values_of values.value.items) result (Ok (rows_view self.entry)) }
    {
        // Columns are let go of by `drop`: in place that takes the proof far longer.
        match self {
            Rows::Shared(values) => {
                drop(self);
                Ok(values.clone()?)
            }
            rows => {
                let values = rows.into_values(alloc)?;
                Ok(Arc::new(alloc, values)?)
            }
        }
    }

    /// The values: those that are owned as they are, copies of the others. Refuses with `OutOfMemory`
    /// (1) alone.
    pub fn into_values(self, alloc: Global) -> VortexResult<Vec<Value>>
        ensures { ReturnsOrOom (λ values. values_of values.items) result (Ok (rows_view self.entry)) }
    {
        match self {
            Rows::Owned(values) => Ok(values),
            rows => {
                let copies = rows.copies(alloc);
                drop(rows);
                copies
            }
        }
    }

    /// Other values, with these behind them: those that are owned are moved, the others copied.
    pub fn put_behind(self, values: Vec<Value>) -> Result<Vec<Value>, AllocError>
        ensures { IfOk result (λ all. values_of all.items ≡ values_of values.items ++ rows_view self.entry) }
    {
        match self {
            Rows::Owned(own) => joined(values, own),
            rows => {
                let all = rows.copied_behind(values);
                drop(rows);
                all
            }
        }
    }

    // A copy of each value.
    fn copies(&self, alloc: Global) -> VortexResult<Vec<Value>>
        ensures { ReturnsOrOom (λ values. values_of values.items) result (Ok (rows_view self.now)) }
    {
        Ok(self.copied_behind(Vec::with_capacity(alloc, self.len())?)?)
    }

    // Other values, with a copy of each of these behind them.
    fn copied_behind(&self, values: Vec<Value>) -> Result<Vec<Value>, AllocError>
        ensures { IfOk result (λ all. values_of all.items ≡ values_of values.items ++ rows_view self.now) }
    {
        let count = self.len();
        match self {
            Rows::Truths(truths, _) => made_behind(
                values,
                count,
                |i| Ok(truth_at(truths.as_slice(), i)),
            ),
            Rows::Compared(tests) => made_behind(
                values,
                count,
                |i| Ok(truth_value(tests.truth(i))),
            ),
            Rows::Item(structs, place, constants) => {
                let (structs, place, otherwise) = (*structs, *place, constants.null());
                made_behind(
                    values,
                    count,
                    |i| copied(item_row(otherwise, structs, place, i)),
                )
            }
            rows => made_behind(values, count, |i| copied(rows.row(i))),
        }
    }

    // The number of rows.
    fn len(&self) -> usize
        ensures { result ≡ length (rows_view self.now) }
    {
        match self {
            Rows::Lent(values) => values.len(),
            Rows::Shared(values) => values.len(),
            Rows::Item(values, _, _) => values.len(),
            Rows::Owned(values) => values.len(),
            Rows::Same(_, count) => *count,
            Rows::Truths(truths, _) => truths.len(),
            Rows::Compared(tests) => tests.len(),
        }
    }
}

/// Values that are owned are moved out, others copied.
impl TakeRow for Rows<'_> {
    ghost rows = { rows_view };

    fn take(&mut self, i: usize) -> Result<Value, AllocError> {
        match self {
            Rows::Owned(values) => Ok(std::mem::replace(&mut values[i], Value::Null)),
            _ => copied(self.row(i)),
        }
    }
}

// The value of that row.
#[inline(always)]
fn value_at(values: &[Value], i: usize) -> &Value
    requires { i < length values.now }
    ensures { value_of result.now ≡ get_or (values_of values.now) i null }
{
    &values[i]
}

// The values, with those of the other list moved behind them.
fn joined(mut values: Vec<Value>, mut others: Vec<Value>) -> Result<Vec<Value>, AllocError>
    ensures { IfOk result (λ all. all.items ≡ values.items ++ others.items) }
{
    values.append(&mut others)?;
    Ok(values)
}

/// The same value; what takes no memory is copied here, and the rest by its `clone`.
#[inline]
pub fn copied(value: &Value) -> Result<Value, AllocError>
    ensures { IfOk result (λ copy. value_of copy ≡ value_of value.now) }
{
    match value {
        Value::Null => Ok(Value::Null),
        Value::Bool(b) => Ok(Value::Bool(*b)),
        Value::Int(z) => Ok(Value::Int(*z)),
        Value::Float(x) => Ok(Value::Float(*x)),
        _ => value.clone(),
    }
}

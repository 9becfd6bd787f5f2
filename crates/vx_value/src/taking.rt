// Rows moved out of columns.
ghost use Rattle.std.specs.Prelude.{◌≡◌, ◌≢◌, ◌<◌, ℕ, IfOk, List, get_or, length, map};
ghost use Rattle.vx_value.specs.Fields.{data_of};
ghost use Rattle.vx_value.specs.StructColumns.{HaveRow, row_at};
ghost use Rattle.vx_value.specs.Types.{Datum, null, struct_of};
ghost use Rattle.vx_value.specs.Views.{value_of};

use crate::Value;
use std::alloc::{AllocError, Global};

/// A column whose values can be taken, one at a time.
pub trait TakeRow {
    /// The values, row by row.
    ghost rows: { Self → List Datum };

    /// The value of that row; those of the other rows stay. Asks an index below the number of rows.
    fn take(&mut self, i: usize) -> Result<Value, AllocError>
        requires { i < length (rows self.old) }
        ensures value { IfOk result (λ v. value_of v ≡ get_or (rows self.old) i null) }
        ensures others { (k : ℕ) → k ≢ i → get_or (rows self.new) k null ≡ get_or (rows self.old) k null }
        ensures long { length (rows self.new) ≡ length (rows self.old) };
}

/// Values are moved out.
impl TakeRow for Vec<Value> {
    ghost rows = { λ values. map value_of values.items };

    fn take(&mut self, i: usize) -> Result<Value, AllocError> {
        Ok(std::mem::replace(&mut self[i], Value::Null))
    }
}

/// The struct of the columns' values in that row, taken out of them. Asks a row that each column has.
pub fn take_row<C: TakeRow>(
    alloc: Global,
    columns: &mut Vec<C>,
    i: usize,
) -> Result<Value, AllocError>
    requires { HaveRow i (map C.rows columns.old.items) }
    ensures value { IfOk result (λ v. value_of v ≡ struct_of (data_of (row_at i (map C.rows columns.old.items)))) }
    ensures others { (k : ℕ) → k ≢ i → row_at k (map C.rows columns.new.items) ≡ row_at k (map C.rows columns.old.items) }
    ensures long { map length (map C.rows columns.new.items) ≡ map length (map C.rows columns.old.items) }
{
    let mut items = Vec::with_capacity(alloc, columns.len())?;
    for place in 0..columns.len() {
        items.push(take_at(columns, place, i)?)?;
    }
    Ok(Value::Struct(items))
}

// The value of that row of that column; what stands elsewhere stays. Asks a column that is there, and a
// row that each column has.
fn take_at<C: TakeRow>(columns: &mut Vec<C>, place: usize, i: usize) -> Result<Value, AllocError>
    requires within { place < length columns.old.items }
    requires row { HaveRow i (map C.rows columns.old.items) }
    ensures value { IfOk result (λ v. value_of v ≡ get_or (row_at i (map C.rows columns.old.items)) place null) }
    ensures rest { (m : ℕ) → m ≢ place → get_or (row_at i (map C.rows columns.new.items)) m null ≡ get_or (row_at i (map C.rows columns.old.items)) m null }
    ensures others { (k : ℕ) → k ≢ i → row_at k (map C.rows columns.new.items) ≡ row_at k (map C.rows columns.old.items) }
    ensures long { map length (map C.rows columns.new.items) ≡ map length (map C.rows columns.old.items) }
{
    columns[place].take(i)
}

// The value beside the first condition that is true, over columns.
ghost use Rattle.std.specs.Prelude.{◌≡◌, ◌<◌, length, option_map, IsTrue, MatchOption, Ok};
ghost use Rattle.vx_dtype.specs.Returns.{ReturnsOrOom};
ghost use Rattle.vx_value.specs.Columns.{batch};
ghost use Rattle.vx_value.specs.Fits.{IsBatch};
ghost use Rattle.vx_value.specs.Types.{is_nullable};
ghost use Rattle.vx_value.specs.Views.{type_of};
ghost use Rattle.vx_eval.specs.Choices.{rows_in, height, EachBatch, matched_at, in_turn};
ghost use Rattle.vx_eval.specs.Columns.{rows_views, each_row, AllLong};

use crate::choice::first_true;
use crate::rows::Rows;
use std::alloc::Global;
use vx_dtype::{DType, VortexResult};
use vx_value::Column;

/// At each row the value beside the first condition that is true there, else the ELSE value, else
/// null, as a column of the type. A condition that is null counts as false. Asks at least one
/// condition, a value column for each, all columns of one length, values of the type, and without
/// ELSE a nullable type. Refuses with `OutOfMemory` (1) alone.
pub fn first_match(
    alloc: Global,
    conditions: &[Column],
    values: &[Column],
    otherwise: Option<&Column>,
    dtype: &DType,
) -> VortexResult<Column>
    requires some { 0 < length conditions.now }
    requires pairs { length values.now ≡ length conditions.now }
    requires tests { AllLong (height conditions.now) (rows_in conditions.now) }
    requires choices { AllLong (height conditions.now) (rows_in values.now) }
    requires fit { EachBatch (type_of dtype.now) (rows_in values.now) }
    requires last { MatchOption otherwise (IsTrue (is_nullable (type_of dtype.now))) (λ c. (length c.now.rows ≡ height conditions.now) × IsBatch (type_of dtype.now) c.now.rows) }
    ensures { let last = option_map (λ c. c.now.rows) otherwise.entry in
        ReturnsOrOom (λ c. c) result (Ok (batch (type_of dtype.now) (each_row (height conditions.now) (matched_at (rows_in conditions.now) (rows_in values.now) last)))) }
{
    let count = conditions[0].len();
    let columns = in_turn(alloc, conditions, values, otherwise)?;
    first_true(alloc, count, columns)?.into_column(alloc, dtype)
}

// The conditions and values in turn, all lent, with ELSE last.
fn in_turn<'a>(
    alloc: Global,
    conditions: &'a [Column],
    values: &'a [Column],
    otherwise: Option<&'a Column>,
) -> VortexResult<Vec<Rows<'a>>>
    requires { length values.now ≡ length conditions.now }
    ensures { ReturnsOrOom (λ v. rows_views v.items) result (Ok (in_turn (rows_in conditions.now) (rows_in values.now) (option_map (λ c. c.now.rows) otherwise.entry))) }
{
    let mut columns = Vec::new(alloc);
    for i in 0..conditions.len() {
        columns.push(Rows::of(&conditions[i]))?;
        columns.push(Rows::of(&values[i]))?;
    }
    if let Some(column) = otherwise {
        columns.push(Rows::of(column))?;
    }
    Ok(columns)
}

// The value beside the first condition that is true, over arrays.
ghost use Rattle.std.specs.Prelude.{◌≡◌, ◌<◌, length, option_map, IsTrue, MatchOption, Ok};
ghost use Rattle.vx_dtype.specs.Returns.{ReturnsOrOom};
ghost use Rattle.vx_value.specs.Columns.{batch};
ghost use Rattle.vx_value.specs.Fits.{IsBatch};
ghost use Rattle.vx_value.specs.Types.{is_nullable};
ghost use Rattle.vx_value.specs.Views.{type_of};
ghost use Rattle.vx_eval.specs.Choices.{rows_in, height, EachBatch, matched_at};
ghost use Rattle.vx_eval.specs.Columns.{each_row, AllLong};

use crate::chosen::chosen;
use crate::columns::columns_of;
use crate::turns::in_turn;
use std::alloc::Global;
use vx_array::Array;
use vx_array_build::from_column;
use vx_dtype::{DType, VortexResult};
use vx_eval::first_match;

/// At each row the value beside the first condition that is true there, else the ELSE value, else
/// null, as an array of the type. A condition that is null counts as false. Asks at least one
/// condition, a value array for each, all arrays of one length, values of the type, and without
/// ELSE a nullable type. Refuses with `OutOfMemory` (1) alone. Goes over words and buffers where truth
/// values are conditions, and truth values, numbers, texts or bytes are chosen; else over columns.
pub fn first_match_array(
    alloc: Global,
    conditions: &[Array],
    values: &[Array],
    otherwise: Option<&Array>,
    dtype: &DType,
) -> VortexResult<Array>
    requires some { 0 < length conditions.now }
    requires pairs { length values.now ≡ length conditions.now }
    requires tests { AllLong (height conditions.now) (rows_in conditions.now) }
    requires choices { AllLong (height conditions.now) (rows_in values.now) }
    requires fit { EachBatch (type_of dtype.now) (rows_in values.now) }
    requires last { MatchOption otherwise (IsTrue (is_nullable (type_of dtype.now))) (λ a. (length a.now.rows ≡ height conditions.now) × IsBatch (type_of dtype.now) a.now.rows) }
    ensures { let last = option_map (λ a. a.now.rows) otherwise.entry in
        ReturnsOrOom (λ a. a) result (Ok (batch (type_of dtype.now) (each_row (height conditions.now) (matched_at (rows_in conditions.now) (rows_in values.now) last)))) }
{
    let count = conditions[0].len();
    let below = in_turn(alloc, conditions, values, otherwise)?;
    match chosen(alloc, count, dtype, below.as_slice())? {
        Some(array) => Ok(array),
        None => by_columns(alloc, conditions, values, otherwise, dtype),
    }
}

// The same by way of columns of values.
fn by_columns(
    alloc: Global,
    conditions: &[Array],
    values: &[Array],
    otherwise: Option<&Array>,
    dtype: &DType,
) -> VortexResult<Array>
    requires some { 0 < length conditions.now }
    requires pairs { length values.now ≡ length conditions.now }
    requires tests { AllLong (height conditions.now) (rows_in conditions.now) }
    requires choices { AllLong (height conditions.now) (rows_in values.now) }
    requires fit { EachBatch (type_of dtype.now) (rows_in values.now) }
    requires last { MatchOption otherwise (IsTrue (is_nullable (type_of dtype.now))) (λ a. (length a.now.rows ≡ height conditions.now) × IsBatch (type_of dtype.now) a.now.rows) }
    ensures { let last = option_map (λ a. a.now.rows) otherwise.entry in
        ReturnsOrOom (λ a. a) result (Ok (batch (type_of dtype.now) (each_row (height conditions.now) (matched_at (rows_in conditions.now) (rows_in values.now) last)))) }
{
    let tests = columns_of(alloc, conditions)?;
    let choices = columns_of(alloc, values)?;
    let tests = tests.as_slice();
    let choices = choices.as_slice();
    let matched = match otherwise {
        Some(array) => {
            let last = array.to_column(alloc)?;
            first_match(alloc, tests, choices, Some(&last), dtype)?
        }
        None => first_match(alloc, tests, choices, None, dtype)?,
    };
    from_column(alloc, &matched)
}

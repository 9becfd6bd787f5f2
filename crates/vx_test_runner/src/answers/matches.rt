// Answers of patterns, and of the first match.
ghost use Rattle.std.specs.Prelude.{◌≡◌, ◌<◌, length, IfOk, IsTrue, MatchOption};
ghost use Rattle.vx_eval.specs.Choices.{rows_in, height, EachBatch};
ghost use Rattle.vx_eval.specs.Columns.{AllLong};
ghost use Rattle.vx_value.specs.Fits.{IsBatch};
ghost use Rattle.vx_value.specs.Types.{is_nullable};
ghost use Rattle.vx_value.specs.Views.{type_of};

use crate::answers::arrays::matches_agree;
use crate::told::told;
use std::alloc::Global;
use vx_dtype::laws::types_are_equal_exactly;
use vx_eval::first_match;
use vx_eval_like::{Pattern, is_like};
use vx_test_support::{Unread, column, dtype, values};
use vx_tree::{Column, DType, VortexResult};

/// Whether the text is like the pattern, or `ilike` where only the ignored case makes it so.
pub fn like(alloc: Global, pattern: &str, text: &str) -> Result<String, Unread> {
    let word = match (
        matches(alloc, pattern, text, false)?,
        matches(alloc, pattern, text, true)?,
    ) {
        (Some(true), Some(true)) => "like",
        (Some(false), Some(true)) => "ilike",
        (Some(false), Some(false)) => "neither",
        _ => "one call says otherwise than another",
    };
    Ok(String::from_str(alloc, word)?)
}

// None where the calls don't agree.
fn matches(
    alloc: Global,
    pattern: &str,
    text: &str,
    ignores_case: bool,
) -> VortexResult<Option<bool>> {
    let compiled = Pattern::compile(alloc, pattern, ignores_case)?;
    let told = compiled.matches(text);
    let again = is_like(alloc, text, pattern, ignores_case)?;
    Ok((told == again).then_some(told))
}

/// The value beside the first of one or two conditions that is true, else the ELSE value, else null.
pub fn matched(
    alloc: Global,
    kind: &str,
    conditions: &str,
    chosen: &str,
    otherwise: &str,
) -> Result<String, Unread> {
    let kind = dtype(alloc, kind)?;
    match (conditions.split_once(';'), chosen.split_once(';')) {
        (None, None) => of_one(alloc, &kind, conditions, chosen, otherwise),
        (Some(conditions), Some(chosen)) => of_two(alloc, &kind, conditions, chosen, otherwise),
        _ => Err(Unread::Word("not one value for each condition")),
    }
}

fn of_one(
    alloc: Global,
    kind: &DType,
    condition: &str,
    chosen: &str,
    otherwise: &str,
) -> Result<String, Unread> {
    let conditions = [column(alloc, "bool?", condition)?];
    let chosen = [column_of(alloc, kind, chosen)?];
    if chosen[0].len() != conditions[0].len() {
        return Err(Unread::Word("columns of unequal length"));
    }
    first_of(alloc, kind, &conditions, &chosen, otherwise)
}

fn of_two(
    alloc: Global,
    kind: &DType,
    conditions: (&str, &str),
    chosen: (&str, &str),
    otherwise: &str,
) -> Result<String, Unread> {
    let conditions = [
        column(alloc, "bool?", conditions.0)?,
        column(alloc, "bool?", conditions.1)?,
    ];
    let chosen = [
        column_of(alloc, kind, chosen.0)?,
        column_of(alloc, kind, chosen.1)?,
    ];
    let count = conditions[0].len();
    if conditions[1].len() != count || chosen[0].len() != count || chosen[1].len() != count {
        return Err(Unread::Word("columns of unequal length"));
    }
    first_of(alloc, kind, &conditions, &chosen, otherwise)
}

// The first match of these columns, by the ELSE of the words.
fn first_of(
    alloc: Global,
    kind: &DType,
    conditions: &[Column],
    chosen: &[Column],
    otherwise: &str,
) -> Result<String, Unread>
    requires some { 0 < length conditions.now }
    requires pairs { length chosen.now ≡ length conditions.now }
    requires tests { AllLong (height conditions.now) (rows_in conditions.now) }
    requires choices { AllLong (height conditions.now) (rows_in chosen.now) }
    requires fit { EachBatch (type_of kind.now) (rows_in chosen.now) }
{
    if otherwise == "none" {
        if !kind.is_nullable() {
            return Err(Unread::Word("no ELSE for a type without null"));
        }
        return told_of(alloc, kind, conditions, chosen, None);
    }
    let last = column_of(alloc, kind, otherwise)?;
    if last.len() != conditions[0].len() {
        return Err(Unread::Word("columns of unequal length"));
    }
    told_of(alloc, kind, conditions, chosen, Some(&last))
}

// The first match, and a word before it where arrays of these rows give another.
fn told_of(
    alloc: Global,
    kind: &DType,
    conditions: &[Column],
    chosen: &[Column],
    otherwise: Option<&Column>,
) -> Result<String, Unread>
    requires some { 0 < length conditions.now }
    requires pairs { length chosen.now ≡ length conditions.now }
    requires tests { AllLong (height conditions.now) (rows_in conditions.now) }
    requires choices { AllLong (height conditions.now) (rows_in chosen.now) }
    requires fit { EachBatch (type_of kind.now) (rows_in chosen.now) }
    requires last { MatchOption otherwise (IsTrue (is_nullable (type_of kind.now))) (λ c. (length c.now.rows ≡ height conditions.now) × IsBatch (type_of kind.now) c.now.rows) }
{
    let answer = first_match(alloc, conditions, chosen, otherwise, kind);
    if matches_agree(alloc, kind, conditions, chosen, otherwise, &answer)? {
        return Ok(told(alloc, answer)?);
    }
    let answer = told(alloc, answer)?;
    Ok(format!(in alloc; "arrays differ from {answer}")?)
}

// The column of the type with these rows.
fn column_of(alloc: Global, kind: &DType, rows: &str) -> Result<Column, Unread>
    ensures { IfOk result (λ c. IsBatch (type_of kind.now) c.rows) }
{
    let rows = values(alloc, rows)?;
    let column = Column::try_new(kind.clone()?, rows)?;
    if is_of(&column, kind) {
        Ok(column)
    } else {
        Err(Unread::Word("a column of another type"))
    }
}

// Whether the column is of that type; then its rows are.
fn is_of(column: &Column, kind: &DType) -> bool
    ensures { IsTrue result → IsBatch (type_of kind.now) column.now.rows }
{
    let _rows = column.rows();
    types_are_equal_exactly(column.dtype(), kind)
}

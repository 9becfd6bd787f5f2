// Evaluation, scans, queries and selections over arrays beside those over columns: the same answers.
ghost use Rattle.std.specs.Prelude.{◌≡◌, ◌<◌, length, IfOk, IsTrue, MatchOption};
ghost use Rattle.vx_value.specs.Fits.{IsBatch};
ghost use Rattle.vx_value.specs.Types.{is_nullable};
ghost use Rattle.vx_value.specs.Views.{type_of};
ghost use Rattle.vx_eval.specs.Choices.{rows_in, height, EachBatch};
ghost use Rattle.vx_eval.specs.Columns.{AllLong};
ghost use Rattle.vx_tree.specs.Trees.{WellTyped};
ghost use Rattle.vx_tree.specs.Views.{bound_of};

use crate::answers::queries::Plan;
use crate::refusals::name_of;
use std::alloc::Global;
use vx_array::Array;
use vx_array_build::{are_within, from_column, take};
use vx_array_eval::apply_array;
use vx_array_loops::Bits;
use vx_array_merges::first_match_array;
use vx_array_projection::ArrayPlanReader;
use vx_array_query::run_query_array;
use vx_array_scan::{scan_array, select_rows_array};
use vx_eval_masks::RowMask;
use vx_prune_tree::ChunkStats;
use vx_scan::ScanPlan;
use vx_tree::{BoundExpression, Column, DType, Expression, VortexError, VortexResult};
use vx_value::laws::columns_are_equal_exactly;

// How an array holds the rows of a batch: in typed buffers, in the middle of longer ones, or boxed.
#[derive(Clone, Copy)]
enum Form {
    Buffers,
    Slice,
    Boxed,
}

/// Whether the first match of arrays of these rows is that answer, too, unless memory ran out for it.
/// Refuses with `OutOfMemory` where it does over an array.
pub fn matches_agree(
    alloc: Global,
    kind: &DType,
    conditions: &[Column],
    chosen: &[Column],
    otherwise: Option<&Column>,
    answer: &VortexResult<Column>,
) -> VortexResult<bool>
    requires some { 0 < length conditions.now }
    requires pairs { length chosen.now ≡ length conditions.now }
    requires tests { AllLong (height conditions.now) (rows_in conditions.now) }
    requires choices { AllLong (height conditions.now) (rows_in chosen.now) }
    requires fit { EachBatch (type_of kind.now) (rows_in chosen.now) }
    requires last { MatchOption otherwise (IsTrue (is_nullable (type_of kind.now))) (λ c. (length c.now.rows ≡ height conditions.now) × IsBatch (type_of kind.now) c.now.rows) }
{
    for form in [Form::Buffers, Form::Slice, Form::Boxed] {
        let conditions = arrays(alloc, form, conditions)?;
        let chosen = arrays(alloc, form, chosen)?;
        let conditions = conditions.as_slice();
        let chosen = chosen.as_slice();
        let found = match otherwise {
            Some(column) => {
                let last = array(alloc, form, column)?;
                first_match_array(alloc, conditions, chosen, Some(&last), kind)
            }
            None => first_match_array(alloc, conditions, chosen, None, kind),
        };
        if !agrees(answer, &in_column(alloc, found))? {
            return Ok(false);
        }
    }
    Ok(true)
}

fn in_column(alloc: Global, found: VortexResult<Array>) -> VortexResult<Column> {
    found?.to_column(alloc)
}

/// Whether the tree gives that answer over arrays of the batch's rows, too, unless memory ran out for it.
/// Refuses with `OutOfMemory` where it does over an array.
pub fn arrays_agree(
    alloc: Global,
    batch: &Column,
    tree: &BoundExpression,
    answer: &VortexResult<Column>,
) -> VortexResult<bool>
    requires { WellTyped (bound_of tree.now) }
{
    for form in [Form::Buffers, Form::Slice, Form::Boxed] {
        let array = array(alloc, form, batch)?;
        let found = Box::new(alloc, evaluated(alloc, &array, tree))?;
        if !agrees(answer, &found)? {
            return Ok(false);
        }
    }
    Ok(true)
}

/// The same of a scan by the plan.
pub fn scans_agree(
    alloc: Global,
    batch: &Column,
    plan: &ScanPlan,
    answer: &VortexResult<Column>,
) -> VortexResult<bool> {
    for form in [Form::Buffers, Form::Slice, Form::Boxed] {
        let array = array(alloc, form, batch)?;
        let found = Box::new(alloc, scanned(alloc, &array, plan))?;
        if !agrees(answer, &found)? {
            return Ok(false);
        }
    }
    Ok(true)
}

/// The same of a query by the plan.
pub fn queries_agree(
    alloc: Global,
    batch: &Column,
    source: &Expression,
    plan: &Plan,
    answer: &VortexResult<Column>,
) -> VortexResult<bool> {
    for form in [Form::Buffers, Form::Slice, Form::Boxed] {
        let array = array(alloc, form, batch)?;
        let found = Box::new(alloc, queried(alloc, &array, source, plan))?;
        if !agrees(answer, &found)? {
            return Ok(false);
        }
    }
    Ok(true)
}

/// Whether the plan selects these rows of arrays of the batch's rows by the statistics, too.
pub fn selections_agree(
    alloc: Global,
    batch: &Column,
    plan: &ScanPlan,
    stats: &ChunkStats,
    answer: &VortexResult<RowMask>,
) -> VortexResult<bool> {
    for form in [Form::Buffers, Form::Slice, Form::Boxed] {
        let array = array(alloc, form, batch)?;
        let reader = ArrayPlanReader::new(&array, plan.paths());
        let found = select_rows_array(alloc, &reader, plan, stats);
        if !selections_agree_on(answer, &found)? {
            return Ok(false);
        }
    }
    Ok(true)
}

// Whether both select the same rows, or are the same refusal, unless memory ran out for the answer. Refuses
// where it did for what was found.
fn selections_agree_on(
    answer: &VortexResult<RowMask>,
    found: &VortexResult<Bits>,
) -> VortexResult<bool> {
    match (answer, found) {
        (_, Err(VortexError::OutOfMemory)) => Err(VortexError::OutOfMemory),
        (Err(VortexError::OutOfMemory), _) => Ok(true),
        (Ok(mask), Ok(bits)) => Ok(has_rows(bits, mask.as_slice())),
        (Err(one), Err(other)) => Ok(is_same_refusal(one, other)),
        _ => Ok(false),
    }
}

fn has_rows(bits: &Bits, rows: &[bool]) -> bool {
    let mut k = 0;
    for row in rows {
        if k >= bits.len() || bits.get(k) != *row {
            return false;
        }
        k += 1;
    }
    k == bits.len()
}

// Whether both are the same, unless memory ran out for the answer. Refuses where it did for what was found.
fn agrees(answer: &VortexResult<Column>, found: &VortexResult<Column>) -> VortexResult<bool> {
    if is_exhausted(found) {
        return Err(VortexError::OutOfMemory);
    }
    Ok(is_exhausted(answer) || is_same(answer, found))
}

// Refuses rows that a slice doesn't keep.
fn array(alloc: Global, form: Form, batch: &Column) -> VortexResult<Array>
    ensures { IfOk result (λ a. a ≡ batch.now) }
{
    match form {
        Form::Buffers => from_column(alloc, batch),
        Form::Slice => {
            let array = slice(alloc, batch)?;
            if columns_are_equal_exactly(&array.to_column(alloc)?, batch) {
                return Ok(array);
            }
            Err(VortexError::RowMisfit { row: batch.len() })
        }
        Form::Boxed => Array::from_column(alloc, batch),
    }
}

fn arrays(alloc: Global, form: Form, columns: &[Column]) -> VortexResult<Vec<Array>>
    ensures { IfOk result (λ arrays. arrays.items ≡ columns.now) }
{
    let mut arrays = Vec::with_capacity(alloc, columns.len())?;
    for column in columns {
        arrays.push(array(alloc, form, column)?)?;
    }
    Ok(arrays)
}

// The rows behind a copy of the last one and before one of the first, of which they are a slice.
fn slice(alloc: Global, batch: &Column) -> VortexResult<Array> {
    let array = from_column(alloc, batch)?;
    let indices = around(alloc, array.len())?;
    let indices = indices.as_slice();
    if !are_within(indices, array.len()) {
        return Err(VortexError::RowMisfit { row: array.len() });
    }
    let wide = take(alloc, &array, indices)?;
    if wide.len() <= array.len() {
        return wide.slice(0, wide.len());
    }
    wide.slice(1, array.len())
}

// The indices of so many rows, that of the last before them and that of the first behind them; none of none.
fn around(alloc: Global, rows: usize) -> VortexResult<Vec<usize>> {
    let mut indices = Vec::new(alloc);
    if rows > 0 {
        indices.push(rows - 1)?;
        for i in 0..rows {
            indices.push(i)?;
        }
        indices.push(0)?;
    }
    Ok(indices)
}

fn evaluated(alloc: Global, array: &Array, tree: &BoundExpression) -> VortexResult<Column>
    requires { WellTyped (bound_of tree.now) }
{
    apply_array(alloc, array, tree)?.to_column(alloc)
}

fn scanned(alloc: Global, array: &Array, plan: &ScanPlan) -> VortexResult<Column> {
    let reader = ArrayPlanReader::new(array, plan.paths());
    scan_array(alloc, &reader, plan)?.to_column(alloc)
}

fn queried(alloc: Global, array: &Array, source: &Expression, plan: &Plan) -> VortexResult<Column> {
    run_query_array(alloc, source, array, plan.passes.as_slice(), plan.split)?.to_column(alloc)
}

// Whether memory ran out.
fn is_exhausted(answer: &VortexResult<Column>) -> bool {
    matches!(answer, Err(VortexError::OutOfMemory))
}

// Whether both are the same rows of one type, or the same refusal.
fn is_same(one: &VortexResult<Column>, other: &VortexResult<Column>) -> bool {
    match (one, other) {
        (Ok(one), Ok(other)) => one == other,
        (Err(one), Err(other)) => is_same_refusal(one, other),
        _ => false,
    }
}

// Whether both have one name, and tell the same row where they tell one.
fn is_same_refusal(one: &VortexError, other: &VortexError) -> bool {
    match (one, other) {
        (VortexError::AddOverflow { row: one }, VortexError::AddOverflow { row: other })
        | (VortexError::CastNull { row: one }, VortexError::CastNull { row: other })
        | (VortexError::DivisionByZero { row: one }, VortexError::DivisionByZero { row: other }) =>
            { one == other }
        _ => name_of(one) == name_of(other),
    }
}

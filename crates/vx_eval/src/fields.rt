// Structs: their fields, and structs of columns.
ghost use Rattle.std.specs.Prelude.{◌≡◌, ◌<◌, Bool, true, is_some, length, get_or, map, List, [], ◌∷◌, IsOk, IfOk, IfErr, Ok, None};
ghost use Rattle.vx_dtype.specs.Returns.{ReturnsOrOom};
ghost use Rattle.vx_value.specs.Fields.{data_of, field_type, field_value, first_unknown, project_values};
ghost use Rattle.vx_value.specs.Types.{Name, LogicalType, Datum, Data, null, struct_of};
ghost use Rattle.vx_value.specs.Views.{type_of, fields_of, value_of};
ghost use Rattle.vx_dtype.specs.declared.error.VortexError.TheVariants.{OutOfMemory};
ghost use Rattle.vx_fn.specs.Functions.{item_type, select_type, selection_names, included};
ghost use Rattle.vx_fn.specs.Functions as functions;
ghost use Rattle.vx_fn.specs.Values.{item_value, select_value};
ghost use Rattle.vx_eval.specs.Columns.{values_of, rows_view, rows_views, row_at, AllLong, Evaluates, datum_at, item_at};
ghost use Rattle.vx_eval.specs.Kernels.{items_at};

use crate::constants::Constants;
use crate::filling::{overwritten, tabulated};
use crate::rows::{Rows, copied};
use std::alloc::{AllocError, Global};
use vx_dtype::{DType, FieldName, FieldNames, StructFields, VortexResult};
use vx_fn::FieldSelection;
use vx_value::{Value, take_row};

/// The first field of that name of each struct: lent by structs that are lent, moved out of those
/// that are owned, and copied out of items that are lent. Refuses with `OutOfMemory` (1) alone.
pub fn get_item<'a>(
    alloc: Global,
    count: usize,
    name: &FieldName,
    dtype: &DType,
    input: Rows<'a>,
) -> VortexResult<Rows<'a>>
    requires typed { IsOk (item_type name.now (type_of dtype.now)) }
    requires long { length (rows_view input) ≡ count }
    ensures { Evaluates (functions.get_item name.now) (type_of dtype.now ∷ []) count (rows_view input.entry ∷ []) result }
{
    let place = place_of(name, dtype);
    // Columns and values are let go of by `drop`: in place that takes the proof far longer.
    match input {
        Rows::Lent(rows) => {
            drop(input);
            Ok(Rows::Item(rows, place, Constants::new()))
        }
        Rows::Owned(rows) => overwritten(rows, |_, row| Ok(item_moved(row, place))),
        lent => {
            let items = tabulated(alloc, count, |i| item_copied(lent.row(i), place));
            drop(lent);
            items
        }
    }
}

/// Where the values of the first field of that name stand in the structs of the type.
pub fn place_of(name: &FieldName, dtype: &DType) -> usize
    requires { IsOk (item_type name.now (type_of dtype.now)) }
    ensures { (v : Datum) → item_value name.now (type_of dtype.now ∷ []) v ≡ item_at result v }
{
    match dtype {
        DType::Struct(fields, _) => field_place(name, fields),
        _ => unreachable!(),
    }
}

// Where the first field of that name stands. Asks for such a field.
fn field_place(name: &FieldName, fields: &StructFields) -> usize
    requires { is_some (field_type name.now (fields_of fields.now)) ≡ true }
    ensures { (vs : Data) → field_value name.now (fields_of fields.now) vs ≡ datum_at result vs }
{
    match fields.names().find(name) {
        Some(place) => place,
        None => unreachable!(),
    }
}

// The item at that place of a struct, or null.
fn item_moved(mut row: Value, place: usize) -> Value
    ensures { value_of result ≡ item_at place (value_of row) }
{
    match &mut row {
        Value::Struct(items) => if place < items.len() {
            items.swap_remove(place)
        } else {
            Value::Null
        },
        _ => Value::Null,
    }
}

/// The item at that place of that row's struct, or the null that is given.
#[inline(always)]
pub fn item_row<'v>(otherwise: &'v Value, rows: &'v [Value], place: usize, i: usize) -> &'v Value
    requires null { value_of otherwise.now ≡ null }
    requires within { i < length rows.now }
    ensures { value_of result.now ≡ get_or (map (item_at place) (values_of rows.now)) i null }
{
    item_or(otherwise, &rows[i], place)
}

// The item at that place of a struct, or the null that is given.
#[inline(always)]
fn item_or<'v>(otherwise: &'v Value, row: &'v Value, place: usize) -> &'v Value
    requires { value_of otherwise.now ≡ null }
    ensures { value_of result.now ≡ item_at place (value_of row.now) }
{
    match row {
        Value::Struct(items) => match items.get(place) {
            Some(item) => item,
            None => otherwise,
        },
        _ => otherwise,
    }
}

// A copy of the item at that place of a struct, or null.
fn item_copied(row: &Value, place: usize) -> Result<Value, AllocError>
    ensures { IfOk result (λ item. value_of item ≡ item_at place (value_of row.now)) }
{
    match row {
        Value::Struct(items) => match items.get(place) {
            Some(item) => copied(item),
            None => Ok(Value::Null),
        },
        _ => Ok(Value::Null),
    }
}

/// The struct of the included fields of each struct, each the first of its name. Refuses with
/// `OutOfMemory` (1) alone.
pub fn select<'a>(
    alloc: Global,
    count: usize,
    selection: &FieldSelection,
    dtype: &DType,
    input: &Rows,
) -> VortexResult<Rows<'a>>
    requires typed { IsOk (select_type selection.now (type_of dtype.now)) }
    requires long { length (rows_view input.now) ≡ count }
    ensures { Evaluates (functions.select selection.now) (type_of dtype.now ∷ []) count (rows_view input.now ∷ []) result }
{
    let places = places_of(alloc, selection, dtype)?;
    let places = places.as_slice();
    tabulated(alloc, count, |i| items_copied(alloc, input.row(i), places))
}

/// Where the values of the included fields stand in the structs of the type. Refuses with
/// `OutOfMemory` (1) alone.
pub fn places_of(
    alloc: Global,
    selection: &FieldSelection,
    dtype: &DType,
) -> VortexResult<Vec<usize>>
    requires { IsOk (select_type selection.now (type_of dtype.now)) }
    ensures places { IfOk result (λ places. (v : Datum) → select_value selection.now (type_of dtype.now ∷ []) v ≡ items_at places.items v) }
    ensures memory { IfErr result (λ e. e ≡ OutOfMemory) }
{
    match dtype {
        DType::Struct(fields, _) => {
            let names = included(alloc, selection, fields)?;
            field_places(alloc, &names, fields)
        }
        _ => unreachable!(),
    }
}

// The names of the included fields.
fn included(
    alloc: Global,
    selection: &FieldSelection,
    fields: &StructFields,
) -> VortexResult<FieldNames>
    ensures { ReturnsOrOom (λ names. names) result (Ok (included selection.now (fields_of fields.now))) }
{
    let names = &fields.names().as_slice()[..fields.nfields()];
    selection.kept(alloc, names)
}

// Where the first field of each of the names stands. Asks for such fields.
fn field_places(
    alloc: Global,
    names: &FieldNames,
    fields: &StructFields,
) -> VortexResult<Vec<usize>>
    requires { first_unknown names.now (fields_of fields.now) ≡ None }
    ensures places { IfOk result (λ places. (vs : Data) → project_values names.now (fields_of fields.now) vs ≡ data_of (map (λ k. datum_at k vs) places.items)) }
    ensures memory { IfErr result (λ e. e ≡ OutOfMemory) }
{
    let names = names.as_slice();
    let mut places = Vec::with_capacity(alloc, names.len())?;
    for i in 0..names.len() {
        places.push(field_place(&names[i], fields))?;
    }
    Ok(places)
}

// The struct of copies of the items at those places of a struct, or null.
fn items_copied(alloc: Global, row: &Value, places: &[usize]) -> Result<Value, AllocError>
    ensures { IfOk result (λ out. value_of out ≡ items_at places.now (value_of row.now)) }
{
    match row {
        Value::Struct(_) => {
            let mut items = Vec::with_capacity(alloc, places.len())?;
            for i in 0..places.len() {
                items.push(item_copied(row, places[i])?)?;
            }
            Ok(Value::Struct(items))
        }
        _ => Ok(Value::Null),
    }
}

/// The struct of the columns' values in each row; those that are owned are moved. Refuses with
/// `OutOfMemory` (1) alone.
pub fn pack<'a>(alloc: Global, count: usize, mut columns: Vec<Rows<'a>>) -> VortexResult<Rows<'a>>
    requires { AllLong count (rows_views columns.items) }
    ensures { (names : List Name) (n : Bool) (ts : List LogicalType) → Evaluates (functions.pack names n) ts count (rows_views columns.entry.items) result }
{
    let mut structs = Vec::with_capacity(alloc, count)?;
    for i in 0..count {
        structs.push(take_row(alloc, &mut columns, i)?)?;
    }
    Ok(Rows::Owned(structs))
}

// Values among the elements of lists.
ghost use Rattle.std.specs.Prelude.{◌≡◌, length, List, [], ◌∷◌, IfSome};
ghost use Rattle.std.proofs.Math.ListN.{replicate};
ghost use Rattle.vx_value.specs.Types.{LogicalType, list_of};
ghost use Rattle.vx_value.specs.Views.{value_of, data_view};
ghost use Rattle.vx_fn.specs.Functions as functions;
ghost use Rattle.vx_fn.specs.Values as values;
ghost use Rattle.vx_eval.specs.Columns.{rows_view, truth_datum, Evaluates};

mod elements;

use crate::rows::Rows;
use crate::truths::told;
use elements::ElementSet;
use std::alloc::Global;
use vx_dtype::VortexResult;
use vx_value::Value;

// Of at most so many elements or look-ups no set is made: to walk along them costs less.
const FEW: usize = 16;

/// Whether each value is among the elements of the list beside it. Of one list for all rows a set is
/// made once, so that a row costs one look-up. Refuses with `OutOfMemory` (1) alone.
pub fn list_contains<'a>(
    alloc: Global,
    count: usize,
    list: &Rows,
    needle: &Rows,
) -> VortexResult<Rows<'a>>
    requires list { length (rows_view list.now) ≡ count }
    requires needle { length (rows_view needle.now) ≡ count }
    ensures { (ts : List LogicalType) → Evaluates functions.list_contains ts count (rows_view list.now ∷ rows_view needle.now ∷ []) result }
{
    if let Rows::Same(value, _) = list {
        return in_one(alloc, count, *value, needle);
    }
    told(alloc, count, |i| contained(list.row(i), needle.row(i)))
}

// The same with one list for all rows.
fn in_one<'a>(alloc: Global, count: usize, list: &Value, needle: &Rows) -> VortexResult<Rows<'a>>
    requires { length (rows_view needle.now) ≡ count }
    ensures { (ts : List LogicalType) → Evaluates functions.list_contains ts count (replicate count (value_of list.now) ∷ rows_view needle.now ∷ []) result }
{
    match many(count, list) {
        Some(items) => {
            let elements = ElementSet::new(alloc, items)?;
            told(alloc, count, |i| elements.find(needle.row(i)))
        }
        None => told(alloc, count, |i| contained(list, needle.row(i))),
    }
}

// The elements of a list that has many, where many values are looked up among them.
fn many(count: usize, list: &Value) -> Option<&[Value]>
    ensures { IfSome result (λ items. list_of (data_view items.now) ≡ value_of list.now) }
{
    match list {
        Value::List(items) => {
            if count > FEW && items.len() > FEW {
                Some(items.as_slice())
            } else {
                None
            }
        }
        _ => None,
    }
}

// Whether the value is among the list's elements; null of a null list or a null value.
fn contained(list: &Value, needle: &Value) -> Option<bool>
    ensures { truth_datum result ≡ values.contained (value_of list.now) (value_of needle.now) }
{
    match list {
        Value::List(items) => {
            if needle.is_null() {
                None
            } else {
                among(items.as_slice(), needle)
            }
        }
        _ => None,
    }
}

// Whether the value is one of the elements; null where it is none, but one is null.
fn among(items: &[Value], needle: &Value) -> Option<bool>
    ensures { truth_datum result ≡ values.among (data_view items.now) (value_of needle.now) }
{
    let mut has_null = false;
    for item in items {
        if item == needle {
            return Some(true);
        }
        has_null |= item.is_null();
    }
    if has_null { None } else { Some(false) }
}

// Items of structs in buffers.
ghost use Rattle.std.specs.Prelude.{◌≡◌, ◌≤◌, ◌+◌, IfOk, IfSome, List, [], get_or, length, map, take, drop};
ghost use Rattle.vx_value.specs.Items.{item_at, items_at};
ghost use Rattle.vx_value.specs.Types.{null};
ghost use Rattle.vx_value.specs.Views.{value_of};
ghost use Rattle.vx_array.specs.Rows.{lanes_each, lanes_rows};
ghost use Rattle.vx_array.specs.Shown.{shown};

use crate::values::{behind, has_row, value_at};
use crate::{Lanes, Part, Stretch, Validity};
use std::alloc::{AllocError, Global};
use std::sync::Arc;
use vx_value::Value;

impl Lanes {
    /// The item at that place of each struct, null where the struct is: the field's rows, in the same
    /// buffers. There is an answer where these are structs in buffers with such a field, which has all
    /// rows of their stretch, and can be masked by their validity.
    pub fn item(&self, alloc: Global, place: usize) -> Result<Option<Lanes>, AllocError>
        ensures { IfOk result (λ found. IfSome found (λ l. lanes_rows l ≡ map (item_at place) (lanes_rows self.now))) }
    {
        match self {
            Lanes::Structs(fields, stretch, validity) => match fields.get(place) {
                Some(field) => stretched(alloc, field, *stretch, validity),
                None => Ok(None),
            },
            _ => Ok(None),
        }
    }

    /// The item at that place of each struct, null where the struct is: shared where `item` has an answer,
    /// and else copied.
    pub fn each_item(&self, alloc: Global, place: usize) -> Result<Lanes, AllocError>
        ensures { IfOk result (λ l. lanes_rows l ≡ map (item_at place) (lanes_rows self.now)) }
    {
        if let Some(shared) = self.item(alloc, place)? {
            return Ok(shared);
        }
        if let Lanes::Same(value, count) = self {
            let item = item_of(value.as_ref(), place)?;
            return Ok(Lanes::Same(Arc::new(alloc, item)?, *count));
        }
        let items = copied_items(alloc, self, place)?;
        Ok(Lanes::Values(Part::new(alloc, items)?))
    }

    /// The struct of the items at those places of each struct, null where the struct is, in the same
    /// buffers. There is an answer where these are structs in buffers with such fields.
    pub fn items(&self, alloc: Global, places: &[usize]) -> Result<Option<Lanes>, AllocError>
        ensures { IfOk result (λ found. IfSome found (λ l. lanes_rows l ≡ map (items_at places.now) (lanes_rows self.now))) }
    {
        match self {
            Lanes::Structs(fields, stretch, validity) => {
                let Some(some) = fields_at(alloc, fields.as_slice(), places)? else {
                    return Ok(None);
                };
                let some = Arc::new(alloc, some)?;
                Ok(Some(Lanes::Structs(some, *stretch, validity.clone()?)))
            }
            _ => Ok(None),
        }
    }
}

// The field's rows in the stretch, where they are valid.
fn stretched(
    alloc: Global,
    field: &Lanes,
    stretch: Stretch,
    validity: &Validity,
) -> Result<Option<Lanes>, AllocError>
    ensures { IfOk result (λ found. IfSome found (λ l. (stretch.from + stretch.len ≤ length (lanes_rows field.now)) × (lanes_rows l ≡ shown validity.now (take stretch.len (drop stretch.from (lanes_rows field.now)))))) }
{
    if field.len() < stretch.end() {
        return Ok(None);
    }
    let rows = field.slice(stretch.from(), stretch.len())?;
    rows.masked(alloc, validity)
}

// The fields at those places, if there are all of them.
fn fields_at(
    alloc: Global,
    fields: &[Lanes],
    places: &[usize],
) -> Result<Option<Vec<Lanes>>, AllocError>
    ensures { IfOk result (λ found. IfSome found (λ some. lanes_each some.items ≡ map (λ k. get_or (lanes_each fields.now) k []) places.now)) }
{
    let mut some = Vec::with_capacity(alloc, places.len())?;
    for i in 0..places.len() {
        match fields.get(places[i]) {
            Some(field) => some.push(field.clone()?)?,
            None => return Ok(None),
        }
    }
    Ok(Some(some))
}

// A copy of the item at that place of each struct, null where the struct is.
fn copied_items(alloc: Global, lanes: &Lanes, place: usize) -> Result<Vec<Value>, AllocError>
    ensures { IfOk result (λ items. map value_of items.items ≡ map (item_at place) (lanes_rows lanes.now)) }
{
    let count = lanes.len();
    let mut items = Vec::with_capacity(alloc, count)?;
    for i in 0..count {
        items.push(item_in(alloc, lanes, place, i)?)?;
    }
    Ok(items)
}

// A copy of the item at that place of that row's struct, null where there is none.
fn item_in(alloc: Global, lanes: &Lanes, place: usize, i: usize) -> Result<Value, AllocError>
    ensures { IfOk result (λ v. value_of v ≡ item_at place (get_or (lanes_rows lanes.now) i null)) }
{
    match lanes {
        Lanes::Values(values) => match values.as_slice().get(i) {
            Some(value) => item_of(value, place),
            None => Ok(Value::Null),
        },
        Lanes::Structs(fields, stretch, validity) => {
            if has_row(validity, stretch.len, i) {
                match fields.get(place) {
                    Some(field) => behind(alloc, field, stretch.from, i),
                    None => Ok(Value::Null),
                }
            } else {
                Ok(Value::Null)
            }
        }
        _ => {
            let value = value_at(alloc, lanes, i)?;
            item_of(&value, place)
        }
    }
}

// A copy of the item at that place of a struct, null of what is none.
fn item_of(value: &Value, place: usize) -> Result<Value, AllocError>
    ensures { IfOk result (λ item. value_of item ≡ item_at place (value_of value.now)) }
{
    match value {
        Value::Struct(items) => match items.get(place) {
            Some(item) => Ok(item.clone()?),
            None => Ok(Value::Null),
        },
        _ => Ok(Value::Null),
    }
}

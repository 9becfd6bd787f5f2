// Where the values along a path stand in rows: a place in each struct on the way.
ghost use Rattle.std.specs.Prelude.{◌≡◌, ◌⊎◌, ◌∷◌, [], IfErr, IfOk, MatchOption, OnOk, unwrap_or};
ghost use Rattle.vx_value.specs.Fields.{field_type, field_value};
ghost use Rattle.vx_value.specs.Paths.{part_name, path_of};
ghost use Rattle.vx_value.specs.Types.{Data, Datum, null};
ghost use Rattle.vx_value.specs.Views.{fields_of, type_of, value_of};
ghost use Rattle.vx_dtype.specs.declared.error.VortexError.TheVariants.{OutOfMemory};
ghost use Rattle.vx_projection.specs.Lost.{lost};
ghost use Rattle.vx_prune_tree.specs.Reading.{unless_null};
ghost use Rattle.vx_prune_tree.specs.Stats.{at_path};
ghost use Rattle.vx_prune_tree.specs.Lent.{at_places, datum_at, lent_value};

use std::alloc::Global;
use vx_dtype::{DType, FieldName, StructFields, VortexError, VortexResult};
use vx_value::{Field, Value};

// The places along the path in rows of the type. Refuses a path that leads nowhere in it.
pub(crate) fn places_along(alloc: Global, dtype: &DType, path: &[Field]) -> VortexResult<Vec<usize>>
    ensures leads { OnOk result (lost (path_of path.now) (type_of dtype.now) ≡ None) }
    ensures refused { IfErr result (λ e. (e ≡ OutOfMemory) ⊎ (lost (path_of path.now) (type_of dtype.now) ≡ Some e)) }
    ensures found { IfOk result (λ places. (v : Datum) → at_path (type_of dtype.now) (path_of path.now) v ≡ at_places places.items v) }
{
    let mut places = Vec::with_capacity(alloc, path.len())?;
    let mut inside = dtype;
    for part in path {
        let name = part_name(part);
        let Some(fields) = inside.as_struct_fields_opt() else {
            return Err(VortexError::NotAStruct);
        };
        match field_place(fields, name) {
            Some((place, field)) => {
                places.push(place)?;
                inside = field;
            }
            None => return Err(VortexError::NoSuchField(name.clone()?)),
        }
    }
    Ok(places)
}

// The name that a part of a path is.
fn part_name(part: &Field) -> &FieldName
    ensures { result.now ≡ part_name part.now }
{
    match part {
        Field::Name(name) => name,
    }
}

// Where the first field of that name stands, and its type.
fn field_place<'a>(fields: &'a StructFields, name: &FieldName) -> Option<(usize, &'a DType)>
    ensures { MatchOption result
        (field_type name.now (fields_of fields.now) ≡ None)
        (λ found. (field_type name.now (fields_of fields.now) ≡ Some (type_of found.1.now)) × ((vs : Data) → field_value name.now (fields_of fields.now) vs ≡ datum_at found.0 vs)) }
{
    let place = fields.names().find(name)?;
    let field = fields.field(name)?;
    Some((place, field))
}

// The value of a row at the places, unless it or a struct on the way is null.
pub(crate) fn value_at<'a>(row: &'a Value, places: &[usize]) -> Option<&'a Value>
    ensures { lent_value result ≡ unless_null (at_places places.now (value_of row.now)) }
{
    let mut value = row;
    for place in places {
        match item_at(value, *place) {
            Some(item) => value = item,
            None => return None,
        }
    }
    if value.is_null() { None } else { Some(value) }
}

// The item at that place of a struct.
fn item_at(value: &Value, place: usize) -> Option<&Value>
    ensures { unwrap_or (lent_value result) null ≡ at_places (place ∷ []) (value_of value.now) }
{
    match value {
        Value::Struct(items) => items.get(place),
        _ => None,
    }
}

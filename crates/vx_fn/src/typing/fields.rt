// The types of nodes that make a struct or take one apart.
ghost use Rattle.std.specs.Prelude.{◌≡◌, ℕ, map, IfOk, length};
ghost use Rattle.vx_value.specs.Returns.{ReturnsOrOom};
ghost use Rattle.vx_value.specs.Views.{type_of, fields_of, admits_null};
ghost use Rattle.vx_fn.specs.Functions.{get_item, select, item_type, pack_type, select_type, selected};
ghost use Rattle.vx_fn.specs.Memory.{RefusesEarly};

use crate::{FieldSelection, PackOptions, Typed};
use std::alloc::{AllocError, Global};
use vx_dtype::{DType, FieldName, Nullability, StructFields, VortexError, VortexResult};

pub(super) fn item_dtype(name: &FieldName, t: &DType) -> VortexResult<DType>
    ensures typed { ReturnsOrOom type_of result (item_type name.now (type_of t.now)) }
    ensures early { RefusesEarly (get_item name.now) type_of result (item_type name.now (type_of t.now)) }
{
    match t {
        DType::Struct(fields, n) => match fields.field(name) {
            Some(item) => {
                let nullable = item.is_nullable() || n.admits_null();
                Ok(item.clone()?.with_nullability(Nullability::of(nullable)))
            }
            None => Err(VortexError::NoSuchField(name.clone()?)),
        },
        _ => Err(VortexError::NotAStruct),
    }
}

pub(super) fn pack_dtype<T: Typed>(
    alloc: Global,
    options: &PackOptions,
    children: &[T],
) -> VortexResult<DType>
    requires { length children.now ≡ length options.now.names }
    ensures { ReturnsOrOom type_of result (pack_type options.now.names (admits_null options.now.nullability) (map T.dtype_of children.now)) }
{
    let copies = dtypes_of(alloc, children)?;
    let fields = StructFields::new(alloc, options.names.clone()?, copies)?;
    Ok(DType::Struct(fields, options.nullability))
}

/// Copies of the types, from left to right. Fails for want of memory alone.
pub fn dtypes_of<T: Typed>(alloc: Global, children: &[T]) -> Result<Vec<DType>, AllocError>
    ensures types { IfOk result (λ types. map type_of types.items ≡ map T.dtype_of children.now) }
    ensures count { IfOk result (λ types. length types.items ≡ length children.now) }
{
    let mut types = Vec::with_capacity(alloc, children.len())?;
    for child in children {
        types.push(child.as_dtype().clone()?)?;
    }
    Ok(types)
}

pub(super) fn select_dtype(
    alloc: Global,
    selection: &FieldSelection,
    t: &DType,
) -> VortexResult<DType>
    ensures typed { ReturnsOrOom type_of result (select_type selection.now (type_of t.now)) }
    ensures early { RefusesEarly (select selection.now) type_of result (select_type selection.now (type_of t.now)) }
{
    match t {
        DType::Struct(fields, n) => {
            let chosen = selected(alloc, selection, fields)?;
            Ok(DType::Struct(chosen, *n))
        }
        _ => Err(VortexError::NotAStruct),
    }
}

fn selected(
    alloc: Global,
    selection: &FieldSelection,
    fields: &StructFields,
) -> VortexResult<StructFields>
    ensures { ReturnsOrOom fields_of result (selected selection.now (fields_of fields.now)) }
{
    match selection {
        FieldSelection::Include(names) => fields.project(alloc, names),
        FieldSelection::Exclude(names) => fields.without(alloc, names),
    }
}

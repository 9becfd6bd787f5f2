// The rules of fields of a pack, one or some.
ghost use Rattle.std.specs.Prelude.{◌≡◌, Ok, IfOk, IsTrue};
ghost use Rattle.std.specs.List.{list_all};
ghost use Rattle.std.specs.Option.{option_map};
ghost use Rattle.vx_dtype.specs.Views.{fields_of};
ghost use Rattle.vx_value.specs.Returns.{ReturnsOrOom};
ghost use Rattle.vx_value.specs.Types.{is_nullable};
ghost use Rattle.vx_value.specs.Views.{type_of};
ghost use Rattle.vx_rewrite_rule_laws.specs.StandardGiven.{item_given, is_pack, none_given, some_given, select_given};
ghost use Rattle.vx_rewrite_rule_laws.specs.Rules.{mask_node, child_named, children_named, are_nullable};
ghost use Rattle.vx_tree.specs.Views.{bound_of, bounds_of};

use std::alloc::{AllocError, Global};
use vx_dtype::{DType, FieldName, FieldNames, Nullability, StructFields};
use vx_fn::{EmptyOptions, FieldSelection, Pack, PackOptions, ScalarFnRef};
use vx_tree::{BoundExpression, VortexResult};
use vx_value::Scalar;

// A field of a pack is the first child of its name, under a mask where the pack is nullable.
#[inline(never)]
pub(crate) fn item_of_pack(
    alloc: Global,
    name: &FieldName,
    input: &BoundExpression,
) -> VortexResult<Option<BoundExpression>>
    ensures { ReturnsOrOom (option_map bound_of) result (Ok (item_given name.now (bound_of input.now))) }
{
    let BoundExpression::Scalar {
        scalar_fn: ScalarFnRef::Pack(options),
        children,
        ..
    } = input
    else {
        return Ok(None);
    };
    let Some(item) = child_named(name, &options.names, children.as_slice()) else {
        return Ok(None);
    };
    if options.nullability.admits_null() {
        return Ok(Some(masked(alloc, item)?));
    }
    Ok(Some(item.clone()?))
}

// The tree under a mask that is true in every row.
#[inline(never)]
fn masked(alloc: Global, input: &BoundExpression) -> VortexResult<BoundExpression>
    ensures { ReturnsOrOom bound_of result (Ok (mask_node (bound_of input.now))) }
{
    let every_row = BoundExpression::new_typed(
        alloc,
        DType::Bool(Nullability::NonNullable),
        ScalarFnRef::Literal(Scalar::from_bool(true)),
        Vec::new(alloc),
    )?;
    let children = vec![in alloc; input.clone()?, every_row]?;
    BoundExpression::new_typed(
        alloc,
        input.dtype().clone()?.as_nullable(),
        ScalarFnRef::Mask(EmptyOptions),
        children,
    )
}

// A selection, whose type has the fields that it keeps.
#[inline(never)]
pub(crate) fn selection(
    alloc: Global,
    dtype: &DType,
    selection: &FieldSelection,
    child: &BoundExpression,
) -> VortexResult<Option<BoundExpression>>
    ensures { ReturnsOrOom (option_map bound_of) result (Ok (select_given (type_of dtype.now) selection.now (bound_of child.now))) }
{
    let Some(fields) = dtype.as_struct_fields_opt() else {
        return Ok(None);
    };
    if fields.nfields() == 0 {
        return none_of(alloc, dtype, child);
    }
    some_of(alloc, dtype, fields, selection, child)
}

// No field of what is never null, or of a pack, is an empty pack.
#[inline(never)]
fn none_of(
    alloc: Global,
    dtype: &DType,
    child: &BoundExpression,
) -> VortexResult<Option<BoundExpression>>
    ensures { ReturnsOrOom (option_map bound_of) result (Ok (none_given (type_of dtype.now) (bound_of child.now))) }
{
    if child.dtype().is_nullable() && !child.is::<Pack>() {
        return Ok(None);
    }
    let options = PackOptions {
        names: FieldNames::empty(alloc)?,
        nullability: dtype.nullability(),
    };
    Ok(Some(BoundExpression::new_typed(
        alloc,
        dtype.clone()?,
        ScalarFnRef::Pack(options),
        Vec::new(alloc),
    )?))
}

// Some fields of a pack are the pack of the first children of their names, if a null of it leaves each
// of them null.
#[inline(never)]
fn some_of(
    alloc: Global,
    dtype: &DType,
    fields: &StructFields,
    selection: &FieldSelection,
    child: &BoundExpression,
) -> VortexResult<Option<BoundExpression>>
    ensures { ReturnsOrOom (option_map bound_of) result (Ok (some_given (type_of dtype.now) selection.now (fields_of fields.now) (bound_of child.now))) }
{
    let BoundExpression::Scalar {
        scalar_fn: ScalarFnRef::Pack(options),
        children,
        ..
    } = child
    else {
        return Ok(None);
    };
    if options.nullability.admits_null() && !are_nullable(fields) {
        return Ok(None);
    }
    let names = selection.kept(alloc, options.names.as_slice())?;
    let kept = children_named(alloc, names.as_slice(), &options.names, children.as_slice())?;
    let options = PackOptions {
        names,
        nullability: options.nullability,
    };
    Ok(Some(BoundExpression::new_typed(alloc, dtype.clone()?, ScalarFnRef::Pack(options), kept)?))
}

// Whether the type of each field is nullable.
fn are_nullable(fields: &StructFields) -> bool
    ensures { result ≡ are_nullable (fields_of fields.now) }
{
    each_nullable(&fields.types()[..fields.nfields()])
}

fn each_nullable(types: &[DType]) -> bool
    ensures { result ≡ list_all (λ t. is_nullable (type_of t)) types.now }
{
    types.iter().all(|t| t.is_nullable())
}

// For each of the wanted names the first child of that name.
fn children_named(
    alloc: Global,
    wanted: &[FieldName],
    names: &FieldNames,
    children: &[BoundExpression],
) -> Result<Vec<BoundExpression>, AllocError>
    ensures { IfOk result (λ kept. bounds_of kept.items ≡ children_named wanted.now names.now (bounds_of children.now)) }
{
    let mut kept = Vec::with_capacity(alloc, wanted.len())?;
    for name in wanted {
        if let Some(child) = child_named(name, names, children) {
            kept.push(child.clone()?)?;
        }
    }
    Ok(kept)
}

// The first child of that name.
fn child_named<'a>(
    name: &FieldName,
    names: &FieldNames,
    children: &'a [BoundExpression],
) -> Option<&'a BoundExpression>
    ensures { option_map (λ b. bound_of b.now) result ≡ child_named name.now names.now (bounds_of children.now) }
{
    children.get(names.find(name)?)
}

// The fields of the scope that a node reads itself.
ghost use Rattle.std.specs.Prelude.{◌≡◌, IfOk, Ok};
ghost use Rattle.vx_value.specs.Returns.{ReturnsOrOom};
ghost use Rattle.vx_value.specs.Fields.{field_names};
ghost use Rattle.vx_value.specs.Views.{fields_of};
ghost use Rattle.vx_tree.specs.Views.{bound_of, bounds_of};
ghost use Rattle.vx_rewrite_analysis.specs.Fields.{free_fields, field_of_root};

use std::alloc::{AllocError, Global};
use vx_tree::{BoundExpression, FieldName, ScalarFnRef, StructFields, VortexResult};

/// The fields of the scope that the node reads itself, to annotate it with: of a `GetItem` of the
/// scope root its name, of the scope root all names of the scope, of any other node none.
///
/// Refuses with `OutOfMemory` (1) alone.
pub fn free_fields(
    alloc: Global,
    e: &BoundExpression,
    scope: &StructFields,
) -> VortexResult<Vec<FieldName>>
    ensures { ReturnsOrOom (λ names. names.items) result (Ok (free_fields (bound_of e.now) (field_names (fields_of scope.now)))) }
{
    match e {
        BoundExpression::Root { .. } => {
            let names = &scope.names().as_slice()[..scope.nfields()];
            Ok(copies(alloc, names)?)
        }
        BoundExpression::Scalar {
            scalar_fn: ScalarFnRef::GetItem(name),
            children,
            ..
        } => field_of_root(alloc, name, children.as_slice()),
        _ => Ok(Vec::new(alloc)),
    }
}

// The name, where the scope root is the only child.
fn field_of_root(
    alloc: Global,
    name: &FieldName,
    children: &[BoundExpression],
) -> VortexResult<Vec<FieldName>>
    ensures { ReturnsOrOom (λ names. names.items) result (Ok (field_of_root name.now (bounds_of children.now))) }
{
    match children {
        [] => Ok(Vec::new(alloc)),
        [child] => match child {
            BoundExpression::Root { .. } => Ok(copies(alloc, std::slice::from_ref(name))?),
            BoundExpression::Scalar { .. } => Ok(Vec::new(alloc)),
        },
        [_, _, ..] => Ok(Vec::new(alloc)),
    }
}

// The names, which share their texts.
fn copies(alloc: Global, names: &[FieldName]) -> Result<Vec<FieldName>, AllocError>
    ensures { IfOk result (λ copies. copies.items ≡ names.now) }
{
    let mut copies = Vec::with_capacity(alloc, names.len())?;
    for name in names {
        copies.push(name.clone()?)?;
    }
    Ok(copies)
}

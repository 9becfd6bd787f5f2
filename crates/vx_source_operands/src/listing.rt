// Literals that stand in one list.
ghost use Rattle.std.specs.Prelude.{◌≡◌, IfOk, false, map, option_map};
ghost use Rattle.vx_fn.specs.Views.{function_of};
ghost use Rattle.vx_tree.specs.Trees.{call, no_tree};
ghost use Rattle.vx_tree.specs.Views.{tree_of};
ghost use Rattle.vx_value.specs.Joins.{union, union_of};
ghost use Rattle.vx_value.specs.Types.{ty, list, list_of};
ghost use Rattle.vx_value.specs.Views.{data_view, type_of, value_of};
ghost use Rattle.vx_source_types.specs.Literals.{fitting};
ghost use Rattle.vx_source_grammar.specs.Listing.{listed, scalar_at, types_in, values_in};
ghost use Rattle.vx_source_operands.specs.ListViews.{lent_scalars};

use std::alloc::{AllocError, Global};
use std::sync::Arc;
use vx_dtype::{DType, Nullability};
use vx_fn::ScalarFnRef;
use vx_tree::Expression;
use vx_value::{Scalar, Value};

/// The scalar of a literal.
pub fn scalar_at(e: &Expression) -> Option<&Scalar>
    ensures { option_map (λ c. c.now) result ≡ scalar_at (tree_of e.now) }
{
    let Expression::Scalar {
        scalar_fn,
        children,
    } = e
    else {
        return None;
    };
    if children.is_empty() {
        literal_of(scalar_fn)
    } else {
        None
    }
}

// The scalar that the function is as a literal.
fn literal_of(scalar_fn: &ScalarFnRef) -> Option<&Scalar>
    ensures { option_map (λ c. c.now) result ≡ scalar_at (call (function_of scalar_fn.now) no_tree) }
{
    match scalar_fn {
        ScalarFnRef::Literal(scalar) => Some(scalar),
        _ => None,
    }
}

/// The list of the scalars, if their types differ in nullability alone. Its elements are nullable where one of the scalars is.
pub fn listed(alloc: Global, scalars: &[&Scalar]) -> Result<Option<Scalar>, AllocError>
    ensures { IfOk result (λ made. made ≡ listed (lent_scalars scalars.now)) }
{
    let Some(element) = element_type(alloc, scalars)? else {
        return Ok(None);
    };
    let values = values_of(alloc, scalars)?;
    let made = list_of(alloc, element, values)?;
    Ok(made)
}

// The list of the values, if each is one of the type.
fn list_of(alloc: Global, element: DType, values: Vec<Value>) -> Result<Option<Scalar>, AllocError>
    ensures { IfOk result (λ made. made ≡ fitting (ty (list (type_of element)) false) (list_of (data_view values.items))) }
{
    let dtype = DType::List(Arc::new(alloc, element)?, Nullability::NonNullable);
    Ok(fitting(dtype, Value::List(values)))
}

// The value as a scalar of the type, if it is one of it.
fn fitting(dtype: DType, value: Value) -> Option<Scalar>
    ensures { result ≡ fitting (type_of dtype) (value_of value) }
{
    Scalar::try_new(dtype, value).ok()
}

// The union of the scalars' types, if there is one.
fn element_type(alloc: Global, scalars: &[&Scalar]) -> Result<Option<DType>, AllocError>
    ensures { IfOk result (λ t. option_map type_of t ≡ union_of (types_in (lent_scalars scalars.now))) }
{
    let [first, rest @ ..] = scalars else {
        return Ok(None);
    };
    let mut element = first.dtype().clone()?;
    for i in 0..rest.len() {
        element = match united(alloc, &element, rest[i].dtype())? {
            Some(joined) => joined,
            None => return Ok(None),
        };
    }
    Ok(Some(element))
}

// The union of the two types, if there is one.
fn united(alloc: Global, t: &DType, u: &DType) -> Result<Option<DType>, AllocError>
    ensures { IfOk result (λ w. option_map type_of w ≡ union (type_of t.now) (type_of u.now)) }
{
    match t.union(alloc, u) {
        Ok(joined) => Ok(joined),
        Err(_) => Err(AllocError),
    }
}

// The scalars' values.
fn values_of(alloc: Global, scalars: &[&Scalar]) -> Result<Vec<Value>, AllocError>
    ensures { IfOk result (λ values. map value_of values.items ≡ values_in (lent_scalars scalars.now)) }
{
    let mut values = Vec::with_capacity(alloc, scalars.len())?;
    for i in 0..scalars.len() {
        values.push(scalars[i].value().clone()?)?;
    }
    Ok(values)
}

// `in` over literals that are settled: a search in one list of them.
ghost use Rattle.std.specs.Prelude.{◌≡◌, ◌<◌, ◌∷◌, length, option_map, IfErr, IfOk, IfSome, Some};
ghost use Rattle.vx_fn.specs.Functions.{Function};
ghost use Rattle.vx_fn.specs.Views.{function_of};
ghost use Rattle.vx_value.specs.Types.{LogicalType};
ghost use Rattle.vx_source_grammar.specs.Listing.{scalars_in};
ghost use Rattle.vx_source_operands.specs.ListViews.{lent_scalars};
ghost use Rattle.vx_source_over.specs.Reading.{Settles};
ghost use Rattle.vx_source_over.specs.Settling.{contained, list_around, list_from, node_with, odd_one};
ghost use Rattle.vx_source_over.specs.Views.{EachTyped, IsTyped, other_of, settled_tree, settled_trees};
ghost use Rattle.vx_source_over.specs.declared.error.OverError.TheVariants.{OutOfMemory};

use crate::OverError;
use crate::nodes::{Settled, literal_alone, node_over};
use crate::peers::{Beside, beside_child, bytes_of, is_in};
use std::alloc::{AllocError, Global};
use vx_fn::{EmptyOptions, ScalarFnRef};
use vx_source_operands::{listed, scalar_at};
use vx_value::Scalar;

// The node of the function over what is settled below it: for `in` over literals a search in their list.
pub(crate) fn node_with(
    alloc: Global,
    scalar_fn: &ScalarFnRef,
    beside: Beside,
    below: Vec<Settled>,
) -> Result<Settled, OverError>
    ensures tree { Settles settled_tree result (node_with (function_of scalar_fn.now) (other_of beside.entry) (settled_trees below.items)) }
    ensures typed { (s : LogicalType) → EachTyped s below.items → IfOk result (IsTyped s) }
{
    if !is_in(scalar_fn, beside.other) {
        return node_over(alloc, scalar_fn, below);
    }
    match list_around(alloc, beside, below.as_slice())? {
        Some(list) => contained(alloc, list, below),
        None => node_over(alloc, scalar_fn, below),
    }
}

// The list of the literals around the operand, which stands behind the first of them.
fn list_around(
    alloc: Global,
    beside: Beside,
    below: &[Settled],
) -> Result<Option<Scalar>, OverError>
    ensures list { Settles (λ l. l) result (list_around (settled_trees below.now)) }
    ensures operand { IfOk result (λ l. IfSome l (λ _. 1 < length below.now)) }
{
    let [first, _, rest @ ..] = below else {
        return Ok(None);
    };
    match scalars_of(alloc, first, rest)? {
        Some(scalars) => list_from(alloc, beside, scalars.as_slice()),
        None => Ok(None),
    }
}

// The scalars of what was settled, if each is a literal.
fn scalars_of<'a>(
    alloc: Global,
    first: &'a Settled,
    rest: &'a [Settled],
) -> Result<Option<Vec<&'a Scalar>>, AllocError>
    ensures { IfOk result (λ found. option_map (λ scalars. lent_scalars scalars.items) found ≡ scalars_in (settled_trees (first.now ∷ rest.now))) }
{
    let mut scalars = Vec::with_capacity(alloc, rest.len())?;
    let Some(scalar) = scalar_at(&first.tree) else {
        return Ok(None);
    };
    scalars.push(scalar)?;
    for i in 0..rest.len() {
        match scalar_at(&rest[i].tree) {
            Some(scalar) => scalars.push(scalar)?,
            None => return Ok(None),
        }
    }
    Ok(Some(scalars))
}

// The list of the scalars. Refuses the first of another type than the first one's.
fn list_from(
    alloc: Global,
    beside: Beside,
    scalars: &[&Scalar],
) -> Result<Option<Scalar>, OverError>
    ensures { Settles (λ l. l) result (list_from (Some (lent_scalars scalars.now))) }
{
    let [first, rest @ ..] = scalars else {
        return Ok(None);
    };
    if let Some(list) = listed(alloc, scalars)? {
        return Ok(Some(list));
    }
    let (index, odd) = odd_one(first, rest);
    let (start, end) = bytes_of(beside_child(beside, index));
    Err(OverError::Misfit {
        start,
        end,
        scalar: odd.clone()?,
        dtype: first.dtype().clone()?,
    })
}

// The first of the scalars whose type differs from the first one's in more than nullability, else that one, and where its
// literal stands among the children of the node.
fn odd_one<'a>(first: &'a Scalar, rest: &[&'a Scalar]) -> (usize, &'a Scalar)
    ensures { result.1.now ≡ odd_one first.now (lent_scalars rest.now) }
{
    for i in 0..rest.len() {
        let scalar = rest[i];
        if !first.dtype().eq_ignore_nullability(scalar.dtype()) {
            return (i.saturating_add(2), scalar);
        }
    }
    (0, first)
}

// Whether the operand, which stands behind the first literal, is an element of the list.
fn contained(alloc: Global, list: Scalar, below: Vec<Settled>) -> Result<Settled, OverError>
    requires { 1 < length below.items }
    ensures tree { (f : Function) → IfOk result (λ made. settled_tree made ≡ contained f (settled_trees below.items) (Some list)) }
    ensures typed { (s : LogicalType) → EachTyped s below.items → IfOk result (IsTyped s) }
    ensures memory { IfErr result (λ e. e ≡ OutOfMemory) }
{
    let mut below = below;
    let operand = below.swap_remove(1);
    let list = literal_alone(alloc, list)?;
    let both = Vec::from_array(alloc, [list, operand])?;
    node_over(alloc, &ScalarFnRef::ListContains(EmptyOptions), both)
}

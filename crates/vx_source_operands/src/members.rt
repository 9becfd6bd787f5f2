// An operand that is one of some items.
ghost use Rattle.std.specs.Option.{is_some};
ghost use Rattle.std.specs.Prelude.{◌≡◌, IfOk, option_and_then, option_map};
ghost use Rattle.vx_fn.specs.Views.{function_of};
ghost use Rattle.vx_tree.specs.Views.{trees_from};
ghost use Rattle.vx_source_grammar.specs.Joining.{among, behind_first, contained, equal_to, equal_to_one, open_search, over};
ghost use Rattle.vx_source_grammar.specs.Listing.{listed, scalars_in};
ghost use Rattle.vx_source_operands.specs.ListViews.{lent_scalars};
ghost use Rattle.vx_source_operands.specs.OperandViews.{operand_of, operands_in, operands_of};
ghost use Rattle.vx_source_operands.specs.Places.{ReadsUpTo};
ghost use Rattle.vx_source_operands.specs.PlainViews.{reading_of};

use crate::context::Context;
use crate::joining::chain;
use crate::listing::{listed, scalar_at};
use crate::nodes::{node, node_between};
use crate::operand::Operand;
use crate::plain::PlainValues;
use crate::repeated::{equal_again, repeated};
use std::alloc::{AllocError, Global};
use vx_fn::{EmptyOptions, Operator, ScalarFnRef};
use vx_source_types::ParseError;
use vx_value::Scalar;

/// Whether the operand is one of the items: of literals whose types differ in nullability alone, whether it is an element of
/// their list; else its comparisons with each of them as a chain of `or`, in which the operand is repeated as clones, which
/// share what is below its first node. Where literals are left open, one node holds them all and the operand. Refuses as
/// `reduce` does.
pub fn among(
    context: Context,
    plain: PlainValues,
    operand: Operand,
    items: Vec<Operand>,
) -> Result<Operand, ParseError>
    ensures reads { ReadsUpTo context.entry.found.now.at operand_of result (among (reading_of plain) (operand_of operand) context.entry.room (operands_of items.items)) }
{
    match plain {
        PlainValues::Alone => match literal_list(context.alloc, items.as_slice())? {
            Some(list) => {
                let bytes = bytes_of(items.as_slice());
                drop(items);
                contained(context, operand, list, bytes)
            }
            None => equal_to_one(context, operand, items),
        },
        PlainValues::Open(other) if are_literals(items.as_slice()) => {
            let bytes = (operand.places.start, operand.places.end);
            let all = behind_first(operand, items)?;
            node(context, open_search(other), all, bytes)
        }
        PlainValues::Open(_) => equal_to_one(context, operand, items),
    }
}

// The list of the items, if they are literals whose types differ in nullability alone.
fn literal_list(alloc: Global, items: &[Operand]) -> Result<Option<Scalar>, AllocError>
    ensures { IfOk result (λ list. list ≡ option_and_then listed (scalars_in (trees_from (operands_of items.now)))) }
{
    match scalars_of(alloc, items)? {
        Some(scalars) => listed(alloc, scalars.as_slice()),
        None => Ok(None),
    }
}

// The scalars of the items, if each is a literal.
fn scalars_of(alloc: Global, items: &[Operand]) -> Result<Option<Vec<&Scalar>>, AllocError>
    ensures { IfOk result (λ found. option_map (λ scalars. lent_scalars scalars.items) found ≡ scalars_in (trees_from (operands_of items.now))) }
{
    let mut scalars = Vec::with_capacity(alloc, items.len())?;
    for i in 0..items.len() {
        match scalar_at(&items[i].tree) {
            Some(scalar) => scalars.push(scalar)?,
            None => return Ok(None),
        }
    }
    Ok(Some(scalars))
}

// Whether each of the items is a literal.
fn are_literals(items: &[Operand]) -> bool
    ensures { result ≡ is_some (scalars_in (trees_from (operands_of items.now))) }
{
    for i in 0..items.len() {
        if scalar_at(&items[i].tree).is_none() {
            return false;
        }
    }
    true
}

// The first byte of the first item, and the one behind the last of the last.
fn bytes_of(items: &[Operand]) -> (usize, usize) {
    match (items.first(), items.last()) {
        (Some(first), Some(last)) => (first.places.start, last.places.end),
        _ => (0, 0),
    }
}

// The operand is an element of the list, which stands in these bytes.
fn contained(
    context: Context,
    operand: Operand,
    list: Scalar,
    bytes: (usize, usize),
) -> Result<Operand, ParseError>
    ensures reads { ReadsUpTo context.entry.found.now.at operand_of result (contained (operand_of operand) context.entry.room list) }
{
    let none = Vec::new(context.alloc);
    let list = node(context, ScalarFnRef::Literal(list), none, bytes)?;
    node_between(
        context,
        ScalarFnRef::ListContains(EmptyOptions),
        list,
        operand,
    )
}

// The function over literals that are left open and an operand.
fn open_search(other: bool) -> ScalarFnRef
    ensures { function_of result ≡ open_search other }
{
    if other {
        ScalarFnRef::ListContains(EmptyOptions)
    } else {
        ScalarFnRef::Binary(Operator::Eq)
    }
}

// The items, with the operand behind the first of them.
fn behind_first(operand: Operand, items: Vec<Operand>) -> Result<Vec<Operand>, AllocError>
    ensures { IfOk result (λ all. operands_of all.items ≡ behind_first (operand_of operand) (operands_of items.items)) }
{
    let mut all = items;
    let index = all.len().min(1);
    all.insert(index, operand)?;
    Ok(all)
}

// The comparisons of the operand with each of the items as a chain of `or`.
fn equal_to_one(
    context: Context,
    operand: Operand,
    items: Vec<Operand>,
) -> Result<Operand, ParseError>
    ensures reads { ReadsUpTo context.entry.found.now.at operand_of result (equal_to_one (operand_of operand) context.entry.room (operands_of items.items)) }
{
    let equal = equal_to_each(context, operand, items)?;
    chain(context, Operator::Or, equal)
}

// The comparisons of the operand with each of the items.
fn equal_to_each(
    context: Context,
    operand: Operand,
    items: Vec<Operand>,
) -> Result<Vec<Operand>, ParseError>
    ensures reads { ReadsUpTo context.entry.found.now.at operands_in result (equal_to (operand_of operand) context.entry.room (operands_of items.items)) }
{
    let mut equal = Vec::with_capacity(context.alloc, items.len())?;
    let again = repeated(&operand)?;
    let mut items = items.into_iter();
    let Some(first) = items.next() else {
        return Ok(equal);
    };
    let function = ScalarFnRef::Binary(Operator::Eq);
    equal.push(node_between(context, function, operand, first)?)?;
    while let Some(item) = items.next() {
        equal.push(equal_again(context, &again, item)?)?;
    }
    Ok(equal)
}

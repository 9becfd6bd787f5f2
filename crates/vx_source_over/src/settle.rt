// Trees settled: literals take their type from what they stand beside.
ghost use Rattle.std.specs.Prelude.{◌≡◌, ◌&&◌, [], drop, IfErr, IfOk, IfSome, option_map};
ghost use Rattle.vx_fn.specs.Views.{function_of};
ghost use Rattle.vx_tree.specs.Views.{tree_of, trees_of};
ghost use Rattle.vx_value.specs.Types.{LogicalType};
ghost use Rattle.vx_value.specs.Views.{type_of};
ghost use Rattle.vx_source_over.specs.Peers.{has_type_of_peers, is_open};
ghost use Rattle.vx_source_over.specs.Reading.{Settles};
ghost use Rattle.vx_source_over.specs.Settling.{unless, settled, owned, rest, wished, wish_for, first_wish};
ghost use Rattle.vx_source_over.specs.Views.{IsTyped, AreTyped, EachTyped, first_own, none_of, own_trees, other_of, said_of, settled_tree, settled_trees, wish_of};
ghost use Rattle.vx_source_over.specs.declared.error.OverError.TheVariants.{OutOfMemory};

use crate::OverError;
use crate::literals::literal_as;
use crate::nodes::{Settled, are_none, first_type, retyped, scope_root};
use crate::peers::{
    Beside, beside_child, bytes_of, has_type_of_peers, is_peer, is_untyped, open_scalar,
};
use crate::searching::node_with;
use std::alloc::Global;
use std::vec::IntoIter;
use vx_dtype::DType;
use vx_fn::ScalarFnRef;
use vx_tree::Expression;

// What settling goes by: where memory is taken from, and the type of the scope.
#[derive(Clone, Copy)]
pub(crate) struct Over<'a> {
    pub alloc: Global,
    pub scope: &'a DType,
}

// What peers are given by those with a type of their own: these, and the type that is wished of the others.
#[derive(Drop)]
struct Begun {
    own: Vec<Option<Settled>>,
    wish: Option<DType>,
}

// The tree: as a peer with that wish; and else without one, by itself if it has a type of its own.
#[cycle(settle)]
pub(crate) fn settle(
    over: Over,
    e: &Expression,
    beside: Beside,
    is_peer: bool,
    wish: Option<&DType>,
) -> Result<Settled, OverError>
    ensures tree { Settles settled_tree result (said_of (type_of over.entry.scope.now) is_peer (wish_of wish.entry) (tree_of e.now) (other_of beside.entry)) }
    ensures typed { IfOk result (IsTyped (type_of over.entry.scope.now)) }
{
    if is_peer {
        return wished(over, e, beside, wish);
    }
    match own(over, e, beside)? {
        Some(settled) => Ok(settled),
        None => wished(over, e, beside, None),
    }
}

// The tree, if it has a type of its own. First its peers with a type of their own are settled; what the first of them with
// a type wishes is wished of the others.
#[cycle(settle)]
fn own(over: Over, e: &Expression, beside: Beside) -> Result<Option<Settled>, OverError>
    ensures tree { Settles (option_map settled_tree) result (unless (is_open (tree_of e.now) (other_of beside.entry)) (settled (type_of over.entry.scope.now) (tree_of e.now) (other_of beside.entry))) }
    ensures typed { IfOk result (λ own. IfSome own (IsTyped (type_of over.entry.scope.now))) }
{
    let Expression::Scalar {
        scalar_fn,
        children,
    } = e
    else {
        return Ok(Some(scope_root(over.scope)?));
    };
    if is_untyped(scalar_fn, beside.other) {
        return Ok(None);
    }
    let own = own_all(over, scalar_fn, children.as_slice(), beside)?;
    if all_wait(scalar_fn, own.as_slice()) {
        return Ok(None);
    }
    let begun = with_wish(scalar_fn, own)?;
    let below = rest(over, scalar_fn, children.as_slice(), beside, begun)?;
    Ok(Some(node_with(over.alloc, scalar_fn, beside, below)?))
}

// Of the children the peers that have a type of their own, and nothing of the others.
#[cycle(settle)]
fn own_all(
    over: Over,
    scalar_fn: &ScalarFnRef,
    es: &[Expression],
    beside: Beside,
) -> Result<Vec<Option<Settled>>, OverError>
    ensures trees { Settles (λ all. own_trees all.items) result (owned (type_of over.entry.scope.now) (function_of scalar_fn.now) 0 (trees_of es.now) (other_of beside.entry)) }
    ensures typed { IfOk result (λ all. AreTyped (type_of over.entry.scope.now) all.items) }
{
    let mut all = Vec::with_capacity(over.alloc, es.len())?;
    for i in 0..es.len() {
        let e = &es[i];
        if !is_peer(scalar_fn, i) {
            all.push(None)?;
            continue;
        }
        all.push(own(over, e, beside_child(beside, i))?)?;
    }
    Ok(all)
}

// Whether the node has the type of its peers, and none of them has one of its own.
fn all_wait(scalar_fn: &ScalarFnRef, own: &[Option<Settled>]) -> bool
    ensures { result ≡ (has_type_of_peers (function_of scalar_fn.now) && none_of (own_trees own.now)) }
{
    has_type_of_peers(scalar_fn) && are_none(own)
}

// What is wished of the other peers.
#[inline(never)]
fn with_wish(scalar_fn: &ScalarFnRef, own: Vec<Option<Settled>>) -> Result<Begun, OverError>
    ensures own { IfOk result (λ b. b.own ≡ own) }
    ensures wish { IfOk result (λ b. (s : LogicalType) → AreTyped s own.items → option_map type_of b.wish ≡ first_wish s (function_of scalar_fn.now) (own_trees own.items)) }
    ensures memory { IfErr result (λ e. e ≡ OutOfMemory) }
{
    let wish = match first_wish(scalar_fn, own.as_slice()) {
        Some(dtype) => Some(dtype.clone()?),
        None => None,
    };
    Ok(Begun { own, wish })
}

// What the first of the peers with a type wishes.
fn first_wish<'a>(scalar_fn: &ScalarFnRef, own: &'a [Option<Settled>]) -> Option<&'a DType>
    ensures { (s : LogicalType) → AreTyped s own.now → option_map (λ t. type_of t.now) result ≡ first_wish s (function_of scalar_fn.now) (own_trees own.now) }
{
    match first_type(own) {
        Some(dtype) => wish_for(scalar_fn, dtype),
        None => None,
    }
}

// The type that a peer of that type wishes of the others.
fn wish_for<'a>(scalar_fn: &ScalarFnRef, dtype: &'a DType) -> Option<&'a DType>
    ensures { option_map (λ t. type_of t.now) result ≡ wish_for (function_of scalar_fn.now) (type_of dtype.now) }
{
    match scalar_fn {
        ScalarFnRef::ListContains(_) => match dtype {
            DType::List(element, _) => Some(element.as_ref()),
            _ => None,
        },
        _ => Some(dtype),
    }
}

// The children: those that are settled already, and the others, peers with the wish.
#[cycle(settle)]
fn rest(
    over: Over,
    scalar_fn: &ScalarFnRef,
    es: &[Expression],
    beside: Beside,
    begun: Begun,
) -> Result<Vec<Settled>, OverError>
    ensures trees { Settles (λ all. settled_trees all.items) result (rest (type_of over.entry.scope.now) (option_map type_of begun.wish) (function_of scalar_fn.now) 0 (trees_of es.now) (other_of beside.entry) (own_trees begun.own.items)) }
    ensures typed { AreTyped (type_of over.entry.scope.now) begun.own.items → IfOk result (λ all. EachTyped (type_of over.entry.scope.now) all.items) }
{
    let Begun { own, wish } = begun;
    let mut own = own.into_iter();
    let mut all = Vec::with_capacity(over.alloc, es.len())?;
    for i in 0..es.len() {
        let e = &es[i];
        if let Some(settled) = next_own(&mut own) {
            all.push(settled)?;
            continue;
        }
        let peer = is_peer(scalar_fn, i);
        let child = beside_child(beside, i);
        all.push(settle(over, e, child, peer, wish.as_ref())?)?;
    }
    Ok(all)
}

// The next of them, if it is there.
fn next_own(own: &mut IntoIter<Option<Settled>>) -> Option<Settled>
    ensures first { result ≡ first_own own.old.rest.items }
    ensures rest { own.new.rest.items ≡ drop 1 own.old.rest.items }
{
    match own.next() {
        Some(begun) => begun,
        None => None,
    }
}

// The tree without a type of its own: its literals take the type that is wished, if one is.
#[cycle(settle)]
fn wished(
    over: Over,
    e: &Expression,
    beside: Beside,
    wish: Option<&DType>,
) -> Result<Settled, OverError>
    ensures tree { Settles settled_tree result (wished (type_of over.entry.scope.now) (wish_of wish.entry) (tree_of e.now) (other_of beside.entry)) }
    ensures typed { IfOk result (IsTyped (type_of over.entry.scope.now)) }
{
    let Expression::Scalar {
        scalar_fn,
        children,
    } = e
    else {
        return scope_root(over.scope);
    };
    if let Some(scalar) = open_scalar(scalar_fn, beside.other) {
        let literal = literal_as(over.alloc, wish, scalar, bytes_of(beside))?;
        return retyped(literal, children);
    }
    let begun = wishing(over.alloc, wish)?;
    let below = rest(over, scalar_fn, children.as_slice(), beside, begun)?;
    node_with(over.alloc, scalar_fn, beside, below)
}

// Nothing is settled yet, and that type is wished.
#[inline(never)]
fn wishing(alloc: Global, wish: Option<&DType>) -> Result<Begun, OverError>
    ensures own { IfOk result (λ b. b.own.items ≡ []) }
    ensures wish { IfOk result (λ b. option_map type_of b.wish ≡ wish_of wish.entry) }
    ensures memory { IfErr result (λ e. e ≡ OutOfMemory) }
{
    let wish = match wish {
        Some(dtype) => Some(dtype.clone()?),
        None => None,
    };
    Ok(Begun {
        own: Vec::new(alloc),
        wish,
    })
}

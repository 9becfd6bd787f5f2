// Bounds of a tree's values in a chunk of rows of which something is known.
ghost use Rattle.std.specs.Prelude.{◌≡◌, ◌∷◌, [], IsTrue, None, is_some, length};
ghost use Rattle.vx_fn.specs.Views.{function_of};
ghost use Rattle.vx_tree.specs.Trees.{WellTyped};
ghost use Rattle.vx_tree.specs.Views.{bound_of, bounds_of};
ghost use Rattle.vx_prune_bounds.specs.Kernels.{case_bounds};
ghost use Rattle.vx_prune_bounds.specs.Truths.{truths_in};
ghost use Rattle.vx_prune_bounds.specs.Views.{bounds_view};
ghost use Rattle.vx_prune_tree.specs.Bounding.{bounds_in, each_bounds_in, fn_bounds, given_bounds, item_path, path_to, path_to_only, searched};
ghost use Rattle.vx_prune_tree.specs.Cases.{is_of_children};
ghost use Rattle.vx_prune_tree.specs.Verdicts.{BoundsHold};

use crate::chunk_stats::ChunkStats;
use crate::functions::{
    put_literal, put_null, put_of_one, put_of_pair, put_of_three, put_of_type, put_struct,
    put_unknown, unknown,
};
use crate::paths::{is_path, put_along};
use crate::searches::put_of_first;
use vx_fn::ScalarFnRef;
use vx_prune_bounds::{Bounds, Truths};
use vx_tree::BoundExpression;

/// Bounds of the tree's values in a chunk of these statistics. Asks a well-typed tree.
///
/// Those of a path, which is the scope root or a field of a path, are what the statistics say of that
/// path; those of a search in a list that is a literal are made of `=` with each of its elements; those
/// of another tree are made of its children's bounds, by its function; and null is within them only if
/// it is of the tree's type. In each row of a batch of which the statistics are true, and on which the
/// tree doesn't fault, the tree's value is within them.
///
/// Takes no memory. Looks at each node of the tree no more than three times, at each element of such a
/// list once, and besides at each node of a path once for each entry of the statistics.
pub fn bounds<'a>(e: &'a BoundExpression, stats: &'a ChunkStats) -> Bounds<'a>
    requires { WellTyped (bound_of e.now) }
    ensures exact { bounds_view result ≡ bounds_in stats.now (bound_of e.now) }
    ensures hold { BoundsHold stats.now (bound_of e.now) }
{
    let mut known = unknown();
    put_bounds(e, stats, &mut known);
    known
}

// Puts the bounds of any tree there, whatever was there before.
#[cycle(put_bounds)]
fn put_bounds<'a>(e: &'a BoundExpression, stats: &'a ChunkStats, known: &mut Bounds<'a>)
    ensures { bounds_view known.new ≡ bounds_in stats.now (bound_of e.now) }
{
    put_bounds_of(e, stats, is_path(e), known);
}

// The same where it is known whether the tree is a path. It calls itself at each level, so it hands on
// the place for its bounds, and what it calls isn't inlined.
#[cycle(put_bounds)]
#[inline(never)]
fn put_bounds_of<'a>(
    e: &'a BoundExpression,
    stats: &'a ChunkStats,
    is_path: bool,
    known: &mut Bounds<'a>,
)
    requires { is_path ≡ is_some (path_to (bound_of e.now)) }
    ensures { bounds_view known.new ≡ bounds_in stats.now (bound_of e.now) }
{
    if is_path {
        put_along(e, stats, known);
        put_of_type(e.dtype(), known);
        return;
    }
    match e {
        BoundExpression::Root { .. } => unreachable!(),
        BoundExpression::Scalar {
            dtype,
            scalar_fn,
            children,
        } => {
            put_given(scalar_fn, children.as_slice(), stats, known);
            put_of_type(dtype, known);
        }
    }
}

// Puts those that the function gives of its children's there, where the tree is no path.
#[cycle(put_bounds)]
fn put_given<'a>(
    f: &'a ScalarFnRef,
    children: &'a [BoundExpression],
    stats: &'a ChunkStats,
    known: &mut Bounds<'a>,
)
    requires { item_path (function_of f.now) (path_to_only (bounds_of children.now)) ≡ None }
    ensures { bounds_view known.new ≡ given_bounds (function_of f.now) (searched (function_of f.now) (bounds_of children.now)) (each_bounds_in stats.now (bounds_of children.now)) }
{
    match f {
        ScalarFnRef::CaseWhen(_) => put_case(children, stats, known),
        ScalarFnRef::Literal(scalar) => put_literal(scalar, known),
        ScalarFnRef::Pack(_) => put_struct(known),
        _ => match children {
            [] => put_unknown(known),
            [x] => put_of_one_child(f, x, stats, known),
            [_, _] => put_of_two_children(f, children, stats, known),
            [_, _, _] => put_of_three_children(f, children, stats, known),
            _ => put_unknown(known),
        },
    }
}

// Puts those of a function of one child there. The child is no path where the function is an item.
#[cycle(put_bounds)]
#[inline(never)]
fn put_of_one_child<'a>(
    f: &'a ScalarFnRef,
    x: &'a BoundExpression,
    stats: &'a ChunkStats,
    known: &mut Bounds<'a>,
)
    requires kind { IsTrue (is_of_children (function_of f.now)) }
    requires no_path { item_path (function_of f.now) (path_to (bound_of x.now)) ≡ None }
    ensures { bounds_view known.new ≡ fn_bounds (function_of f.now) (bounds_in stats.now (bound_of x.now) ∷ []) }
{
    let is_path = !matches!(f, ScalarFnRef::GetItem(_)) && is_path(x);
    put_bounds_of(x, stats, is_path, known);
    put_of_one(f, known);
}

// Puts those of a function of two children there.
#[cycle(put_bounds)]
#[inline(never)]
fn put_of_two_children<'a>(
    f: &'a ScalarFnRef,
    children: &'a [BoundExpression],
    stats: &'a ChunkStats,
    known: &mut Bounds<'a>,
)
    requires kind { IsTrue (is_of_children (function_of f.now)) }
    requires number { length children.now ≡ 2 }
    ensures { bounds_view known.new ≡ given_bounds (function_of f.now) (searched (function_of f.now) (bounds_of children.now)) (each_bounds_in stats.now (bounds_of children.now)) }
{
    put_bounds(&children[0], stats, known);
    let mut second = *known;
    put_bounds(&children[1], stats, &mut second);
    put_of_first(f, &children[0], known, &second);
}

// Puts those of a function of three children there.
#[cycle(put_bounds)]
#[inline(never)]
fn put_of_three_children<'a>(
    f: &'a ScalarFnRef,
    children: &'a [BoundExpression],
    stats: &'a ChunkStats,
    known: &mut Bounds<'a>,
)
    requires kind { IsTrue (is_of_children (function_of f.now)) }
    requires number { length children.now ≡ 3 }
    ensures { bounds_view known.new ≡ fn_bounds (function_of f.now) (each_bounds_in stats.now (bounds_of children.now)) }
{
    put_bounds(&children[0], stats, known);
    let (mut second, mut third) = (*known, *known);
    put_bounds(&children[1], stats, &mut second);
    put_bounds(&children[2], stats, &mut third);
    put_of_three(f, known, &second, &third);
}

// Puts those of a CASE over conditions and values in turn there, from the last pair on.
#[cycle(put_bounds)]
#[inline(never)]
fn put_case<'a>(children: &'a [BoundExpression], stats: &'a ChunkStats, known: &mut Bounds<'a>)
    ensures { bounds_view known.new ≡ case_bounds (each_bounds_in stats.now (bounds_of children.now)) }
{
    let pairs = children.len() / 2;
    match children.get(2 * pairs) {
        Some(e) => put_bounds(e, stats, known),
        None => put_null(known),
    }
    for pair in (0..pairs).rev() {
        let condition = truths_of(&children[2 * pair], stats);
        let mut value = *known;
        put_bounds(&children[2 * pair + 1], stats, &mut value);
        put_of_pair(condition, &value, known);
    }
}

// What the value of a condition may be.
#[cycle(put_bounds)]
#[inline(never)]
fn truths_of(e: &BoundExpression, stats: &ChunkStats) -> Truths
    ensures { result ≡ truths_in (bounds_in stats.now (bound_of e.now)) }
{
    let mut known = unknown();
    put_bounds(e, stats, &mut known);
    known.truths()
}

// The first node of a tree without an SQL text.
ghost use Rattle.std.specs.Prelude.{◌≡◌, Result, Ok, IfOk, drop};
ghost use Rattle.vx_fn.specs.Views.{function_of};
ghost use Rattle.vx_tree.specs.Views.{bound_of, bounds_of};
ghost use Rattle.vx_sql.specs.Unsupported.{is_column, first_asked, first_unsupported, first_unsupported_from, refused_of, LeadsToUnsupported};

use crate::Dialect;
use crate::children::is_row;
use crate::reasons::own_reason;
use crate::unsupported::{Reason, Unsupported};
use std::alloc::{AllocError, Global};
use vx_fn::ScalarFnRef;
use vx_tree::BoundExpression;

/// The first node without an SQL text for the engine: the tree's own, then the children's from left to
/// right. None exactly where [`crate::to_sql`] gives one. Fails for want of memory alone.
pub fn first_unsupported(
    alloc: Global,
    b: &BoundExpression,
    dialect: Dialect,
) -> Result<Option<Unsupported>, AllocError>
    ensures { IfOk result (λ found. refused_of found ≡ first_unsupported dialect (bound_of b.now)) }
{
    let mut path = Vec::new(alloc);
    match look(b, dialect, &mut path)? {
        Some(reason) => Ok(Some(Unsupported::Node { path, reason })),
        None => Ok(None),
    }
}

// Why some node has no text, and then the path leads to it.
#[cycle(unsupported)]
fn look(
    b: &BoundExpression,
    dialect: Dialect,
    path: &mut Vec<usize>,
) -> Result<Option<Reason>, AllocError>
    ensures { IfOk result (LeadsToUnsupported path.old.items (first_unsupported dialect (bound_of b.now)) path.new.items) }
{
    let BoundExpression::Scalar {
        dtype,
        scalar_fn,
        children,
    } = b
    else {
        return Ok(Some(Reason::Row));
    };
    let children = children.as_slice();
    if let Some(reason) = own_reason(dialect, dtype, scalar_fn, children) {
        return Ok(Some(reason));
    }
    if is_column(scalar_fn, children) {
        return Ok(None);
    }
    look_below(children, first_asked(scalar_fn), dialect, path)
}

// The same of the children from that index on.
#[cycle(unsupported)]
fn look_below(
    children: &[BoundExpression],
    first: usize,
    dialect: Dialect,
    path: &mut Vec<usize>,
) -> Result<Option<Reason>, AllocError>
    ensures { IfOk result (LeadsToUnsupported path.old.items (first_unsupported_from dialect first (bounds_of (drop first children.now))) path.new.items) }
{
    for i in first..children.len() {
        path.push(i)?;
        if let Some(reason) = look(&children[i], dialect, path)? {
            return Ok(Some(reason));
        }
        path.pop();
    }
    Ok(None)
}

// Whether the node is a column: then the row below it isn't asked for a text.
fn is_column(scalar_fn: &ScalarFnRef, children: &[BoundExpression]) -> bool
    ensures { result ≡ is_column (function_of scalar_fn.now) (bounds_of children.now) }
{
    matches!(scalar_fn, ScalarFnRef::GetItem(_)) && is_row(children)
}

// The first child that is asked for a text: a list that values are looked up in has none, as the node's own has its
// elements.
fn first_asked(scalar_fn: &ScalarFnRef) -> usize
    ensures { result ≡ first_asked (function_of scalar_fn.now) }
{
    match scalar_fn {
        ScalarFnRef::ListContains(_) => 1,
        _ => 0,
    }
}

// What is known of an expression in one chunk, as lines.
ghost use Rattle.vx_tree.specs.Trees.{EachWellTyped, WellTyped};
ghost use Rattle.vx_tree.specs.Views.{bound_of, bounds_of};

use std::alloc::{AllocError, Global};
use vx_command_pages::{Shown, joins_conjuncts};
use vx_prune::{ChunkStats, TypedBounds, Verdict, bounds, verdict};
use vx_tree::{BoundExpression, DType, ScalarFnRef};

/// The lines of a chunk: its number, its rows and, of a truth value, the verdict; and of each conjunct
/// and below it of each operand that is no literal, between which values it is there.
pub fn chunk_page(
    alloc: Global,
    number: u64,
    tree: &BoundExpression,
    stats: &ChunkStats,
) -> Result<String, AllocError>
    requires { WellTyped (bound_of tree.now) }
{
    let rows = stats.rows();
    let said = verdict_said(tree, stats);
    let mut page = format!(in alloc; "chunk {number}, {rows} rows{said}\n")?;
    push_conjuncts(alloc, tree, stats, &mut page)?;
    Ok(page)
}

// What is said of the verdict behind the number of rows; nothing where the tree is no truth value.
fn verdict_said(tree: &BoundExpression, stats: &ChunkStats) -> &'static str
    requires { WellTyped (bound_of tree.now) }
{
    let DType::Bool(_) = tree.dtype() else {
        return "";
    };
    match verdict(tree, stats) {
        Verdict::NoRow => ": no row",
        Verdict::EveryRow => ": every row",
        Verdict::Unknown => ": to be read",
    }
}

// Adds the lines of each conjunct, from left to right.
#[cycle(conjuncts)]
fn push_conjuncts(
    alloc: Global,
    tree: &BoundExpression,
    stats: &ChunkStats,
    page: &mut String,
) -> Result<(), AllocError>
    requires { WellTyped (bound_of tree.now) }
{
    let BoundExpression::Scalar {
        scalar_fn,
        children,
        ..
    } = tree
    else {
        return push_known(alloc, "  ", tree, stats, page);
    };
    match (scalar_fn, children.as_slice()) {
        (ScalarFnRef::Binary(operator), [left, right]) if joins_conjuncts(*operator) => {
            push_conjuncts(alloc, left, stats, page)?;
            push_conjuncts(alloc, right, stats, page)
        }
        (_, children) => {
            push_known(alloc, "  ", tree, stats, page)?;
            push_operands(alloc, children, stats, page)
        }
    }
}

// Adds a line for each of the trees that is no literal.
fn push_operands(
    alloc: Global,
    trees: &[BoundExpression],
    stats: &ChunkStats,
    page: &mut String,
) -> Result<(), AllocError>
    requires { EachWellTyped (bounds_of trees.now) }
{
    for tree in trees {
        if !is_literal(tree) {
            push_known(alloc, "    ", tree, stats, page)?;
        }
    }
    Ok(())
}

fn is_literal(tree: &BoundExpression) -> bool {
    matches!(tree.as_scalar(), Some(ScalarFnRef::Literal(_)))
}

// Adds the line of a tree: its text, and between which values it is.
fn push_known(
    alloc: Global,
    margin: &str,
    tree: &BoundExpression,
    stats: &ChunkStats,
    page: &mut String,
) -> Result<(), AllocError>
    requires { WellTyped (bound_of tree.now) }
{
    let within = TypedBounds {
        bounds: bounds(tree, stats),
        dtype: tree.dtype(),
    };
    let (tree, within) = (Shown(tree), Shown(within));
    page.push_str(format!(in alloc; "{margin}{tree}: {within}\n")?.as_str())
}

// Trees over whole columns, children first.
ghost use Rattle.std.specs.Prelude.{◌≡◌, ◌<◌, [], length, get_or, IfOk, IsOk, Err, Ok};
ghost use Rattle.vx_dtype.specs.Returns.{ReturnsOrOom};
ghost use Rattle.vx_value.specs.Fits.{IsBatch};
ghost use Rattle.vx_fn.specs.Functions.{fn_type};
ghost use Rattle.vx_fn.specs.Views.{function_of};
ghost use Rattle.vx_tree.specs.Pushed.{Pushes};
ghost use Rattle.vx_tree.specs.Trees.{node_type, node_types, WellTyped, EachWellTyped, Over};
ghost use Rattle.vx_tree.specs.Views.{bound_of, bounds_of};
ghost use Rattle.vx_eval.specs.Columns.{values_of, rows_view, rows_views, rows_of, node_answer, AllLong};
ghost use Rattle.vx_eval.specs.Evaluation.{tree_answer, each_answer};
ghost use Rattle.vx_eval.specs.PackedItem.{item_answer, PacksAt};

use crate::nodes::{apply, one};
use crate::packed::item_place;
use crate::rows::Rows;
use std::alloc::Global;
use std::slice;
use vx_dtype::{VortexError, VortexResult};
use vx_fn::ScalarFnRef;
use vx_tree::BoundExpression;
use vx_value::Value;

// What is the same at each node of a tree: the rows that it is evaluated over.
#[derive(Clone, Copy)]
struct Scope<'a> {
    alloc: Global,
    batch: &'a [Value],
}

/// The tree's value in each row of a batch, or the first fault. Refuses with `OutOfMemory` (1) too.
pub fn evaluate<'a>(
    alloc: Global,
    b: &'a BoundExpression,
    batch: &'a [Value],
) -> VortexResult<Rows<'a>>
    requires { WellTyped (bound_of b.now) }
    ensures { ReturnsOrOom rows_view result (tree_answer (bound_of b.now) (values_of batch.now)) }
{
    let scope = Scope { alloc, batch };
    let columns = evaluate_each(scope, slice::from_ref(b))?;
    Ok(one(columns))
}

// A column for each child. The recursion handles no column: its frame has a place for each that a
// function handles. So what makes, stores or lets go of columns stands in functions that aren't
// inlined.
#[cycle(evaluate)]
fn evaluate_each<'a>(
    scope: Scope<'a>,
    children: &'a [BoundExpression],
) -> VortexResult<Vec<Rows<'a>>>
    requires { EachWellTyped (bounds_of children.now) }
    ensures { ReturnsOrOom (λ v. rows_views v.items) result (each_answer (bounds_of children.now) (values_of scope.entry.batch.now)) }
{
    let mut columns = Vec::with_capacity(scope.alloc, children.len())?;
    for child in children {
        if let Err(fault) = push_evaluated(scope, child, &mut columns) {
            return refused(columns, fault);
        }
    }
    Ok(columns)
}

// Adds the tree's value in each row of the batch to the columns.
#[cycle(evaluate)]
fn push_evaluated<'a>(
    scope: Scope<'a>,
    b: &'a BoundExpression,
    columns: &mut Vec<Rows<'a>>,
) -> VortexResult<()>
    requires { WellTyped (bound_of b.now) }
    ensures { Pushes rows_view columns.old.items result (tree_answer (bound_of b.now) (values_of scope.entry.batch.now)) columns.new.items }
{
    match b {
        BoundExpression::Root { .. } => push_batch(scope.batch, columns),
        BoundExpression::Scalar {
            scalar_fn,
            children,
            ..
        } => {
            let children = children.as_slice();
            match item_place(scalar_fn, children) {
                Some(place) => push_item(scope, &children[0], place, columns),
                None => {
                    let below = evaluate_each(scope, children)?;
                    push_applied(scope, scalar_fn, children, below, columns)
                }
            }
        }
    }
}

// Adds the column at that place of those that a `pack` packs.
#[cycle(evaluate)]
fn push_item<'a>(
    scope: Scope<'a>,
    pack: &'a BoundExpression,
    place: usize,
    columns: &mut Vec<Rows<'a>>,
) -> VortexResult<()>
    requires typed { WellTyped (bound_of pack.now) }
    requires packs { PacksAt (bound_of pack.now) place }
    ensures { Pushes rows_view columns.old.items result (item_answer (bound_of pack.now) place (values_of scope.entry.batch.now)) columns.new.items }
{
    match pack {
        BoundExpression::Scalar { children, .. } => {
            let below = evaluate_each(scope, children.as_slice())?;
            push_picked(below, place, columns)
        }
        BoundExpression::Root { .. } => unreachable!(),
    }
}

// Adds the rows of the batch, lent.
#[inline(never)]
fn push_batch<'a>(batch: &'a [Value], columns: &mut Vec<Rows<'a>>) -> VortexResult<()>
    ensures { Pushes rows_view columns.old.items result (Ok (values_of batch.now)) columns.new.items }
{
    columns.push(Rows::Lent(batch))?;
    Ok(())
}

// Adds what the function gives over its children's columns.
#[inline(never)]
fn push_applied<'a>(
    scope: Scope<'a>,
    f: &'a ScalarFnRef,
    children: &'a [BoundExpression],
    below: Vec<Rows<'a>>,
    columns: &mut Vec<Rows<'a>>,
) -> VortexResult<()>
    requires typed { IsOk (fn_type (function_of f.now) (node_types (bounds_of children.now))) }
    requires number { length below.items ≡ length (node_types (bounds_of children.now)) }
    requires long { AllLong (length scope.batch.now) (rows_views below.items) }
    ensures { Pushes rows_view columns.old.items result (node_answer (function_of f.now) (node_types (bounds_of children.now)) (rows_of (length scope.entry.batch.now) (rows_views below.entry.items))) columns.new.items }
{
    columns.push(apply(scope.alloc, scope.batch.len(), f, children, below)?)?;
    Ok(())
}

// Adds the column at that place, and lets the others go.
#[inline(never)]
fn push_picked<'a>(
    mut below: Vec<Rows<'a>>,
    place: usize,
    columns: &mut Vec<Rows<'a>>,
) -> VortexResult<()>
    requires { place < length below.items }
    ensures { Pushes rows_view columns.old.items result (Ok (get_or (rows_views below.entry.items) place [])) columns.new.items }
{
    columns.push(below.swap_remove(place))?;
    Ok(())
}

// The fault, after the columns so far are let go.
#[inline(never)]
fn refused<'a>(columns: Vec<Rows<'a>>, fault: VortexError) -> VortexResult<Vec<Rows<'a>>>
    ensures { result ≡ Err fault }
{
    drop(columns);
    Err(fault)
}

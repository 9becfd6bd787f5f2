// The field paths of its scope that a bound tree references.
ghost use Rattle.std.specs.Prelude.{◌≡◌, ◌≢◌, ◌++◌, [], IfErr, IfOk, OnOk};
ghost use Rattle.vx_dtype.specs.declared.error.VortexError.TheVariants.{OutOfMemory};
ghost use Rattle.vx_value.specs.Paths.{minimal_paths};
ghost use Rattle.vx_fn.specs.Functions.{get_item, select};
ghost use Rattle.vx_tree.specs.Trees.{WellTyped, node_types};
ghost use Rattle.vx_tree.specs.Views.{bound_of, bounds_of};
ghost use Rattle.vx_rewrite_paths.specs.Agreement.{FixTheMeaning};
ghost use Rattle.vx_rewrite_paths.specs.Asked.{asked, child_paths, each_asked, referenced};
ghost use Rattle.vx_rewrite_paths.specs.Requests.{requested};

use crate::request::{Front, Request};
use crate::selection::asked_by;
use std::alloc::Global;
use vx_dtype::{FieldName, VortexResult};
use vx_fn::{FieldSelection, ScalarFnRef};
use vx_tree::BoundExpression;
use vx_value::{FieldPath, FieldPathSet};

/// The paths of its scope's row that the tree asks for, each at its first place, from left to right.
/// Asks a well-typed tree.
///
/// The whole tree is asked for the root path. `GetItem` asks its child for the field of its name, or
/// what is asked for inside it; `Select` for those paths that begin with an included name, and for
/// each included name where it is asked for the whole; any other function for the root path. A
/// `Select` of nothing asks for nothing of a struct that is never null, and else for the root path,
/// which shows whether it is null.
///
/// Two batches of the scope's type, on neither of which the tree faults, give it equal meanings in
/// every row where they agree along the paths of [`FieldPathSet::iter`] in every row. Refuses with
/// `OutOfMemory` (1) alone.
pub fn referenced_field_paths(alloc: Global, e: &BoundExpression) -> VortexResult<FieldPathSet>
    requires { WellTyped (bound_of e.now) }
    ensures asked { IfOk result (λ paths. paths ≡ referenced (bound_of e.now)) }
    ensures fixes { IfOk result (λ paths. FixTheMeaning (bound_of e.now) (minimal_paths paths)) }
    ensures memory { IfErr result (λ refusal. refusal ≡ OutOfMemory) }
{
    let mut recorded = Vec::new(alloc);
    ask(alloc, e, &Request::whole(), &mut recorded)?;
    let mut paths = FieldPathSet::new(alloc);
    paths.extend(recorded)?;
    Ok(paths)
}

// Records what the tree asks for where it is asked for the paths of the request. It calls itself at
// each level, so a request is lent, and what an item, a selection and a scope root take stands in
// functions that aren't inlined.
#[cycle(ask)]
fn ask(
    alloc: Global,
    b: &BoundExpression,
    request: &Request<'_>,
    recorded: &mut Vec<FieldPath>,
) -> VortexResult<()>
    ensures recorded { OnOk result (recorded.new.items ≡ recorded.old.items ++ asked (bound_of b.now) (requested request.now)) }
    ensures memory { IfErr result (λ refusal. refusal ≡ OutOfMemory) }
{
    if request.is_nothing() {
        return Ok(());
    }
    match b {
        BoundExpression::Root { .. } => request.record(alloc, recorded),
        BoundExpression::Scalar {
            scalar_fn,
            children,
            ..
        } => {
            let children = children.as_slice();
            match scalar_fn {
                ScalarFnRef::GetItem(name) => ask_item(alloc, name, children, request, recorded),
                ScalarFnRef::Select(selection) => ask_selected(
                    alloc, selection, children, request, recorded,
                ),
                _ => ask_each(alloc, children, &Request::whole(), recorded),
            }
        }
    }
}

// What an item of that name asks its children for.
#[cycle(ask)]
#[inline(never)]
fn ask_item(
    alloc: Global,
    name: &FieldName,
    children: &[BoundExpression],
    request: &Request<'_>,
    recorded: &mut Vec<FieldPath>,
) -> VortexResult<()>
    ensures recorded { OnOk result (recorded.new.items ≡ recorded.old.items ++ each_asked (bounds_of children.now) (child_paths (get_item name.now) (node_types (bounds_of children.now)) (requested request.now))) }
    ensures memory { IfErr result (λ refusal. refusal ≡ OutOfMemory) }
{
    let item = Request {
        front: Front::Item(name, &request.front),
        ends: request.ends,
    };
    ask_each(alloc, children, &item, recorded)
}

// What a selection that is asked for something asks its children for.
#[cycle(ask)]
#[inline(never)]
fn ask_selected(
    alloc: Global,
    selection: &FieldSelection,
    children: &[BoundExpression],
    request: &Request<'_>,
    recorded: &mut Vec<FieldPath>,
) -> VortexResult<()>
    requires { requested request.now ≢ [] }
    ensures recorded { OnOk result (recorded.new.items ≡ recorded.old.items ++ each_asked (bounds_of children.now) (child_paths (select selection.now) (node_types (bounds_of children.now)) (requested request.now))) }
    ensures memory { IfErr result (λ refusal. refusal ≡ OutOfMemory) }
{
    let Some(child) = children.first() else {
        return Ok(());
    };
    let selected = asked_by(alloc, selection, child.dtype(), request)?;
    ask_each(alloc, children, &selected.request(*request), recorded)
}

// So for each of the trees, from left to right.
#[cycle(ask)]
fn ask_each(
    alloc: Global,
    bs: &[BoundExpression],
    request: &Request<'_>,
    recorded: &mut Vec<FieldPath>,
) -> VortexResult<()>
    ensures recorded { OnOk result (recorded.new.items ≡ recorded.old.items ++ each_asked (bounds_of bs.now) (requested request.now)) }
    ensures memory { IfErr result (λ refusal. refusal ≡ OutOfMemory) }
{
    for b in bs {
        ask(alloc, b, request, recorded)?;
    }
    Ok(())
}

// Where a command reads the rows of records.
ghost use Rattle.std.specs.Prelude.{◌≡◌, IfSome};
ghost use Rattle.vx_value.specs.Views.{type_of};
ghost use Rattle.vx_tree.specs.Trees.{BoundTree};
ghost use Rattle.vx_tree.specs.Views.{tree_of};
ghost use Rattle.vx_rewrite_paths.specs.Asked.{referenced};
ghost use Rattle.vx_commands.specs.Rows.{IsBoundTo};

use crate::rows::RecordsTask;
use crate::tasks::ReadCommand;
use std::alloc::Global;
use vx_command_pages::bind;
use vx_dtype::DType;
use vx_rewrite_paths::referenced_field_paths;
use vx_source::Placed;
use vx_value::FieldPathSet;

/// The paths of the records' type at which the command reads rows: those that the expression asks for, and what is selected.
/// None where one of these is refused, or memory runs out, which then stops the command.
pub(crate) fn asked_paths(
    alloc: Global,
    command: &ReadCommand<'_>,
    scope: &DType,
) -> Option<FieldPathSet> {
    let paths = paths_of(alloc, command.query.placed, scope)?;
    if !matches!(command.work, RecordsTask::Select(_)) {
        return Some(paths);
    }
    let others = paths_of(alloc, command.value, scope)?;
    joined(alloc, paths, &others)
}

// The paths that the expression asks for over that type.
fn paths_of(alloc: Global, placed: &Placed, scope: &DType) -> Option<FieldPathSet>
    ensures { IfSome result (λ paths. (b : BoundTree) × IsBoundTo (tree_of placed.now.expression) (type_of scope.now) b × (paths ≡ referenced b)) }
{
    let Ok(tree) = bind(alloc, placed, scope) else {
        return None;
    };
    referenced_field_paths(alloc, &tree).ok()
}

// The paths, and the others behind them.
fn joined(alloc: Global, paths: FieldPathSet, others: &FieldPathSet) -> Option<FieldPathSet> {
    let mut all = paths;
    let mut more = Vec::new(alloc);
    for path in others.iter() {
        more.push(path.clone().ok()?).ok()?;
    }
    all.extend(more).ok()?;
    Some(all)
}

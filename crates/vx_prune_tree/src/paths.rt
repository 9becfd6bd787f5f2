// Trees that are paths: the scope root, and fields of such trees. None of these calls takes memory.
ghost use Rattle.std.specs.Prelude.{◌≡◌, ◌∷◌, ◌++◌, [], Some, is_some, option_map};
ghost use Rattle.std.specs.Map.{lookup};
ghost use Rattle.vx_value.specs.Paths.{Path, part_name, path_of};
ghost use Rattle.vx_tree.specs.Views.{bound_of, bounds_of};
ghost use Rattle.vx_prune_bounds.specs.Views.{bounds_view};
ghost use Rattle.vx_prune_tree.specs.Stats.{facts_at, field_bounds};
ghost use Rattle.vx_prune_tree.specs.Views.{stats_facts};
ghost use Rattle.vx_prune_tree.specs.Bounding.{path_to, path_to_only};
ghost use Rattle.vx_prune_tree.specs.Cases.{is_that_path};

use crate::chunk_stats::ChunkStats;
use crate::field_stats::FieldStats;
use vx_dtype::FieldName;
use vx_fn::ScalarFnRef;
use vx_prune_bounds::Bounds;
use vx_tree::BoundExpression;
use vx_value::Field;

// Whether the tree's values are the rows' along a path.
#[cycle(is_path)]
pub(crate) fn is_path(e: &BoundExpression) -> bool
    ensures { result ≡ is_some (path_to (bound_of e.now)) }
{
    match e {
        BoundExpression::Root { .. } => true,
        BoundExpression::Scalar {
            scalar_fn,
            children,
            ..
        } => match scalar_fn {
            ScalarFnRef::GetItem(_) => is_only_path(children.as_slice()),
            _ => false,
        },
    }
}

// Whether the values of the only child are.
#[cycle(is_path)]
fn is_only_path(children: &[BoundExpression]) -> bool
    ensures { result ≡ is_some (path_to_only (bounds_of children.now)) }
{
    match children {
        [child] => is_path(child),
        _ => false,
    }
}

// Puts bounds of a path's values there: those that its first entry tells, if there is one.
#[inline(never)]
pub(crate) fn put_along<'a>(e: &BoundExpression, stats: &'a ChunkStats, known: &mut Bounds<'a>)
    ensures { (path : Path) → path_to (bound_of e.now) ≡ Some path → bounds_view known.new ≡ field_bounds stats.now.rows (facts_at stats.now.fields path) }
{
    *known = stats.bounds_of(entry_of(e, stats));
}

// The first entry of the tree's path.
fn entry_of<'a>(e: &BoundExpression, stats: &'a ChunkStats) -> Option<&'a FieldStats>
    ensures { option_map (λ s. stats_facts s.now) result ≡ lookup (is_that_path (path_to (bound_of e.now))) stats.now.fields }
{
    let entries = stats.entries();
    for entry in entries {
        if is_at(e, entry.0.parts()) {
            return Some(&entry.1);
        }
    }
    None
}

// Whether the tree is the path of these parts: its names are compared from the last one on.
#[cycle(is_at)]
fn is_at(e: &BoundExpression, parts: &[Field]) -> bool
    ensures { result ≡ is_that_path (path_to (bound_of e.now)) (path_of parts.now) }
{
    match e {
        BoundExpression::Root { .. } => parts.is_empty(),
        BoundExpression::Scalar {
            scalar_fn,
            children,
            ..
        } => match scalar_fn {
            ScalarFnRef::GetItem(name) => is_item_at(name, children.as_slice(), parts),
            _ => false,
        },
    }
}

// Whether the field of that name in the only child is.
#[cycle(is_at)]
fn is_item_at(name: &FieldName, children: &[BoundExpression], parts: &[Field]) -> bool
    ensures { result ≡ is_that_path (option_map (λ path. path ++ name.now ∷ []) (path_to_only (bounds_of children.now))) (path_of parts.now) }
{
    let [child] = children else {
        return false;
    };
    let Some((last, front)) = parts.split_last() else {
        return false;
    };
    name == name_of(last) && is_at(child, front)
}

// The name that a part of a path is.
fn name_of(part: &Field) -> &FieldName
    ensures { result.now ≡ part_name part.now }
{
    match part {
        Field::Name(name) => name,
    }
}

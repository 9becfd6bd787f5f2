// Entries of maps whose keys are bound trees, by the tree.
ghost use Rattle.std.specs.Prelude.{◌≡◌, ◌&&◌, cond, is_some, Some, IfOk, OnOk};
ghost use Rattle.std.specs.Option.{option_copied};
ghost use Rattle.vx_tree.specs.Equality.{equal_bound};
ghost use Rattle.vx_tree.specs.Views.{bound_of};
ghost use Rattle.vx_rewrite_analysis.specs.Keys.{key_of, entry_at};

use std::alloc::AllocError;
use std::collections::HashMap;
use vx_tree::{BoundExpression, ExactBoundExpr};

// What the map has at the tree. A look-up needs a key, so the tree is cloned, which shares; each of
// its nodes is visited.
pub(crate) fn entry<'a, X>(
    map: &'a HashMap<ExactBoundExpr, X>,
    b: &BoundExpression,
) -> Result<Option<&'a X>, AllocError>
    ensures { IfOk result (λ found. option_copied found ≡ entry_at (bound_of b.now) map.now) }
{
    let key = ExactBoundExpr::new(b.clone()?);
    Ok(map.get(&key))
}

// Gives the map that entry at the tree. Each of its nodes is visited.
pub(crate) fn put<X: Drop>(
    map: &mut HashMap<ExactBoundExpr, X>,
    b: &BoundExpression,
    value: X,
) -> Result<(), AllocError>
    ensures { OnOk result ((k : _) → entry_at (key_of k) map.new ≡ cond (equal_bound (bound_of b.now) (key_of k)) (Some value) (entry_at (key_of k) map.old)) }
{
    map.insert(ExactBoundExpr::new(b.clone()?), value)?;
    Ok(())
}

// Gives the map that entry at the key.
pub(crate) fn put_at<X: Drop>(
    map: &mut HashMap<ExactBoundExpr, X>,
    key: ExactBoundExpr,
    value: X,
) -> Result<(), AllocError>
    ensures { OnOk result ((k : _) → entry_at (key_of k) map.new ≡ cond (equal_bound (key_of key) (key_of k)) (Some value) (entry_at (key_of k) map.old)) }
{
    map.insert(key, value)?;
    Ok(())
}

// Gives the map that entry at the key, if it is one.
pub(crate) fn put_some<X: Drop>(
    map: &mut HashMap<ExactBoundExpr, X>,
    key: ExactBoundExpr,
    value: Option<X>,
) -> Result<(), AllocError>
    ensures { OnOk result ((k : _) → entry_at (key_of k) map.new ≡ cond (is_some value && equal_bound (key_of key) (key_of k)) value (entry_at (key_of k) map.old)) }
{
    match value {
        Some(value) => put_at(map, key, value),
        None => Ok(()),
    }
}

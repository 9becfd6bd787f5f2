// The constructor of a search in a list.
ghost use Rattle.std.specs.Prelude.{[], ◌∷◌};
ghost use Rattle.vx_fn.specs.Functions.{list_contains};

use crate::node::node_of_two;
use std::alloc::Global;
use vx_tree::{EmptyOptions, ScalarFnRef, TreeNode, VortexResult};

/// Whether the value is among the list's elements, by SQL's rule for nulls. Over sources it refuses with
/// `OutOfMemory` (1) alone, over bound trees as the node does: `NotComparable` (8), `BaseTypesDiffer`
/// (6).
pub fn list_contains<T: TreeNode>(alloc: Global, list: T, value: T) -> VortexResult<T>
    ensures { T.gives list_contains (list ∷ value ∷ []) result }
{
    node_of_two(alloc, ScalarFnRef::ListContains(EmptyOptions), list, value)
}

// Constructors that deal with null.
ghost use Rattle.std.specs.Prelude.{[], ◌∷◌};
ghost use Rattle.vx_fn.specs.Functions.{fill_null, is_null, is_not_null};

use crate::node::{node_of_one, node_of_two};
use std::alloc::Global;
use vx_tree::{EmptyOptions, ScalarFnRef, TreeNode, VortexResult};

/// Whether the child is null. Refuses with `OutOfMemory` (1) alone.
pub fn is_null<T: TreeNode>(alloc: Global, child: T) -> VortexResult<T>
    ensures { T.gives is_null (child ∷ []) result }
{
    node_of_one(alloc, ScalarFnRef::IsNull(EmptyOptions), child)
}

/// Whether the child isn't null. Refuses with `OutOfMemory` (1) alone.
pub fn is_not_null<T: TreeNode>(alloc: Global, child: T) -> VortexResult<T>
    ensures { T.gives is_not_null (child ∷ []) result }
{
    node_of_one(alloc, ScalarFnRef::IsNotNull(EmptyOptions), child)
}

/// The child, or the fill value where the child is null. Over sources it refuses with `OutOfMemory`
/// (1) alone, over bound trees as the node does: `BaseTypesDiffer` (6).
pub fn fill_null<T: TreeNode>(alloc: Global, child: T, fill_value: T) -> VortexResult<T>
    ensures { T.gives fill_null (child ∷ fill_value ∷ []) result }
{
    let fill = ScalarFnRef::FillNull(EmptyOptions);
    node_of_two(alloc, fill, child, fill_value)
}

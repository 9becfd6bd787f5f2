// Constructors of literals and casts.
ghost use Rattle.std.specs.Prelude.{[], ◌∷◌};
ghost use Rattle.vx_value.specs.Views.{type_of};
ghost use Rattle.vx_fn.specs.Functions.{literal, cast};
ghost use Rattle.vx_tree.specs.Built.{GivesNode};
ghost use Rattle.vx_tree.specs.Trees.{no_tree};

use crate::node::node_of_one;
use std::alloc::Global;
use vx_tree::{DType, Expression, Scalar, ScalarFnRef, TreeNode, VortexResult};

/// The scalar, whatever the row. Refuses with `OutOfMemory` (1) alone.
pub fn lit(alloc: Global, value: Scalar) -> VortexResult<Expression>
    ensures { GivesNode (literal value.type value.value) no_tree result }
{
    Expression::of_function(alloc, ScalarFnRef::Literal(value), Vec::new(alloc))
}

/// The child as a value of that type, which may differ in nullability alone. Over sources it
/// refuses with `OutOfMemory` (1) alone, over bound trees as the node does: `BaseTypesDiffer` (6).
pub fn cast<T: TreeNode>(alloc: Global, child: T, target: DType) -> VortexResult<T>
    ensures { T.gives (cast (type_of target)) (child ∷ []) result }
{
    node_of_one(alloc, ScalarFnRef::Cast(target), child)
}

// Literals, and casts of operands.
ghost use Rattle.std.specs.Prelude.{[], ◌∷◌};
ghost use Rattle.vx_value.specs.Views.{type_of};
ghost use Rattle.vx_fn.specs.Functions.{literal, cast};
ghost use Rattle.vx_tree.specs.Built.{GivesNode};
ghost use Rattle.vx_tree.specs.Trees.{no_tree};
ghost use Rattle.vx_forms.specs.Given.{GivesOver};

use crate::operands::Operand;
use crate::scalars::IntoScalar;
use std::alloc::Global;
use vx_tree::{DType, Expression, TreeNode, VortexResult};

/// The value, whatever the row, as `lit(alloc, 5)`, `lit(alloc, "a")` or `lit(alloc, None::<i32>)`.
/// Refuses with `OutOfMemory` (1) alone.
pub fn lit<S: IntoScalar>(alloc: Global, value: S) -> VortexResult<Expression>
    ensures { GivesNode (literal (S.constant value).type (S.constant value).value) no_tree result }
{
    vx_build::lit(alloc, value.into_scalar(alloc)?)
}

/// The child as a value of that type, which may differ in nullability alone. Refuses as the child was
/// refused, else over sources with `OutOfMemory` (1) alone, over bound trees as the node does:
/// `BaseTypesDiffer` (6).
pub fn cast<T: TreeNode, O: Operand<T>>(alloc: Global, child: O, target: DType) -> VortexResult<T>
    ensures { GivesOver T.seen (T.over (cast (type_of target))) (O.given child ∷ []) result }
{
    vx_build::cast(alloc, child.into_tree()?, target)
}

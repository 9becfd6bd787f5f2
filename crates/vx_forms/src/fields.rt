// Fields and structs over operands.
ghost use Rattle.std.specs.Prelude.{[], ◌∷◌, map};
ghost use Rattle.vx_value.specs.Views.{admits_null};
ghost use Rattle.vx_fn.specs.Functions.{get_item, pack, select};
ghost use Rattle.vx_fn.specs.declared.options.FieldSelection.TheVariants.{Include, Exclude};
ghost use Rattle.vx_tree.specs.Built.{GivesNode};
ghost use Rattle.vx_tree.specs.Trees.{root, tree, no_tree};
ghost use Rattle.vx_forms.specs.Named.{beside, named};
ghost use Rattle.vx_forms.specs.Given.{GivesOver};

use crate::names::{IntoFieldName, IntoFieldNames, unzip_named};
use crate::operands::{Operand, trees_given};
use std::alloc::Global;
use vx_tree::{
    Expression, FieldNames, Nullability, PackOptions, ScalarFnRef, TreeNode, VortexResult,
};

/// The scope's first field of that name, as `col(alloc, "x")`. Refuses with `OutOfMemory` (1) alone.
pub fn col<N: IntoFieldName>(alloc: Global, name: N) -> VortexResult<Expression>
    ensures { GivesNode (get_item (N.name name)) (tree root no_tree) result }
{
    vx_build::col(alloc, name.into_field_name(alloc)?)
}

/// The child's first field of that name. Refuses as the child was refused, else over sources with
/// `OutOfMemory` (1) alone, over bound trees as the node does: `NotAStruct` (4), `NoSuchField` (5).
pub fn get_item<T: TreeNode, N: IntoFieldName, O: Operand<T>>(
    alloc: Global,
    name: N,
    child: O,
) -> VortexResult<T>
    ensures { GivesOver T.seen (T.over (get_item (N.name name))) (O.given child ∷ []) result }
{
    let child = child.into_tree()?;
    vx_build::get_item(alloc, name.into_field_name(alloc)?, child)
}

/// The child's fields of these names, as `select(alloc, ["a", "b"], child)`, in the order of the names.
/// A name may be repeated. Refuses as the child was refused, else over sources with `OutOfMemory` (1)
/// alone, over bound trees as the node does: `NotAStruct` (4), `NoSuchField` (5).
pub fn select<T: TreeNode, N: IntoFieldNames, O: Operand<T>>(
    alloc: Global,
    names: N,
    child: O,
) -> VortexResult<T>
    ensures { GivesOver T.seen (T.over (select (Include (N.names names)))) (O.given child ∷ []) result }
{
    let child = child.into_tree()?;
    vx_build::select(alloc, names.into_field_names(alloc)?, child)
}

/// The child's fields of all other names, in the child's order. A name may be repeated. Refuses as
/// the child was refused, else over sources with `OutOfMemory` (1) alone, over bound trees as the node
/// does: `NotAStruct` (4), `NoSuchField` (5).
pub fn select_exclude<T: TreeNode, N: IntoFieldNames, O: Operand<T>>(
    alloc: Global,
    names: N,
    child: O,
) -> VortexResult<T>
    ensures { GivesOver T.seen (T.over (select (Exclude (N.names names)))) (O.given child ∷ []) result }
{
    let child = child.into_tree()?;
    vx_build::select_exclude(alloc, names.into_field_names(alloc)?, child)
}

/// A struct of the trees under the names beside them, as `pack(alloc, [("a", tree)], NonNullable)`, in
/// their order. A name may be repeated. Refuses as the first tree that was refused, and with
/// `OutOfMemory` (1).
pub fn pack<T: TreeNode, N: IntoFieldName, O: Operand<T>, const K: usize>(
    alloc: Global,
    elements: [(N, O); K],
    nullability: Nullability,
) -> VortexResult<T>
    ensures { GivesOver T.seen (T.over (pack (named N.name elements) (admits_null nullability))) (map O.given (beside elements)) result }
{
    let (names, operands) = unzip_named(alloc, Vec::from_array(alloc, elements)?)?;
    let names = FieldNames::new(alloc, names)?;
    let children = trees_given(alloc, operands)?;
    let options = PackOptions { names, nullability };
    T::of_function(alloc, ScalarFnRef::Pack(options), children)
}

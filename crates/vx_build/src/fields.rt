// Constructors of the scope and of structs.
ghost use Rattle.std.specs.Prelude.{◌≡◌, [], ◌∷◌};
ghost use Rattle.vx_value.specs.Views.{admits_null};
ghost use Rattle.vx_fn.specs.Functions.{get_item, pack, select};
ghost use Rattle.vx_fn.specs.declared.options.FieldSelection.TheVariants.{Include, Exclude};
ghost use Rattle.vx_tree.specs.Built.{GivesNode};
ghost use Rattle.vx_tree.specs.Nodes.{is_root};
ghost use Rattle.vx_tree.specs.Trees.{root, tree, no_tree};
ghost use Rattle.vx_tree.specs.Views.{tree_of};
ghost use Rattle.vx_build.specs.Operands.{pack_names, pack_operands};

use crate::node::node_of_one;
use crate::operands::unzip;
use std::alloc::Global;
use vx_tree::{
    Expression, FieldName, FieldNames, FieldSelection, Nullability, PackOptions, ScalarFnRef,
    TreeNode, VortexResult,
};

/// The row of the scope.
pub fn root() -> Expression
    ensures { tree_of result ≡ root }
{
    Expression::Root
}

/// Whether the expression is the row of the scope.
pub fn is_root(expr: &Expression) -> bool
    ensures { result ≡ is_root (tree_of expr.now) }
{
    expr.is_root()
}

/// The scope's first field of that name. Refuses with `OutOfMemory` (1) alone.
pub fn col(alloc: Global, name: FieldName) -> VortexResult<Expression>
    ensures { GivesNode (get_item name) (tree root no_tree) result }
{
    get_item(alloc, name, root())
}

/// The child's first field of that name. Over sources it refuses with `OutOfMemory` (1) alone, over
/// bound trees as the node does: `NotAStruct` (4), `NoSuchField` (5).
pub fn get_item<T: TreeNode>(alloc: Global, name: FieldName, child: T) -> VortexResult<T>
    ensures { T.gives (get_item name) (child ∷ []) result }
{
    node_of_one(alloc, ScalarFnRef::GetItem(name), child)
}

/// The child's fields of these names, in the order of the names. A name may be repeated. Over
/// sources it refuses with `OutOfMemory` (1) alone, over bound trees as the node does: `NotAStruct`
/// (4), `NoSuchField` (5).
pub fn select<T: TreeNode>(alloc: Global, names: FieldNames, child: T) -> VortexResult<T>
    ensures { T.gives (select (Include names)) (child ∷ []) result }
{
    let selection = FieldSelection::Include(names);
    node_of_one(alloc, ScalarFnRef::Select(selection), child)
}

/// The child's fields of all other names, in the child's order. A name may be repeated. Over
/// sources it refuses with `OutOfMemory` (1) alone, over bound trees as the node does: `NotAStruct`
/// (4), `NoSuchField` (5).
pub fn select_exclude<T: TreeNode>(alloc: Global, names: FieldNames, child: T) -> VortexResult<T>
    ensures { T.gives (select (Exclude names)) (child ∷ []) result }
{
    let selection = FieldSelection::Exclude(names);
    node_of_one(alloc, ScalarFnRef::Select(selection), child)
}

/// A struct of the trees under the names beside them, in their order. A name may be repeated.
/// Refuses with `OutOfMemory` (1) alone.
pub fn pack<T: TreeNode>(
    alloc: Global,
    elements: Vec<(FieldName, T)>,
    nullability: Nullability,
) -> VortexResult<T>
    ensures { T.gives (pack (pack_names elements.items) (admits_null nullability)) (pack_operands elements.items) result }
{
    let (names, children) = unzip(alloc, elements)?;
    let names = FieldNames::new(alloc, names)?;
    T::of_function(
        alloc,
        ScalarFnRef::Pack(PackOptions { names, nullability }),
        children,
    )
}

// Items of structs that are packed and taken apart again, for which no struct has to be made.
ghost use Rattle.std.specs.Prelude.{◌≡◌, ⊤, MatchOption, IsOk};
ghost use Rattle.vx_fn.specs.Functions.{fn_type};
ghost use Rattle.vx_fn.specs.Views.{function_of};
ghost use Rattle.vx_tree.specs.Trees.{node_types, EachWellTyped};
ghost use Rattle.vx_tree.specs.Views.{bound_of, bounds_of};
ghost use Rattle.vx_eval.specs.PackedItem.{place_in_node, place_taken, TakesOut};

use vx_dtype::FieldName;
use vx_fn::ScalarFnRef;
use vx_tree::BoundExpression;

/// Where the item that the function takes out of its child stands in what the child packs, where
/// the child is a `pack`.
pub fn item_place(f: &ScalarFnRef, children: &[BoundExpression]) -> Option<usize>
    requires typed { IsOk (fn_type (function_of f.now) (node_types (bounds_of children.now))) }
    requires children { EachWellTyped (bounds_of children.now) }
    ensures place { result ≡ place_taken (function_of f.now) (bounds_of children.now) }
    ensures takes { MatchOption result ⊤ (λ place. TakesOut (function_of f.now) (bounds_of children.now) place) }
{
    match f {
        ScalarFnRef::GetItem(name) => packed_place(name, &children[0]),
        _ => None,
    }
}

// Where the item of that name stands in what the node packs, where it is a `pack`.
fn packed_place(name: &FieldName, b: &BoundExpression) -> Option<usize>
    ensures { result ≡ place_in_node name.now (bound_of b.now) }
{
    match b {
        BoundExpression::Scalar { scalar_fn, .. } => match scalar_fn {
            ScalarFnRef::Pack(options) => options.names.find(name),
            _ => None,
        },
        BoundExpression::Root { .. } => None,
    }
}

// Searches in lists: in a null list, of a null, and in a list without elements.
ghost use Rattle.std.specs.Prelude.{◌≡◌, option_and_then};
ghost use Rattle.std.specs.Option.{option_map};
ghost use Rattle.vx_value.specs.Types.{list_of};
ghost use Rattle.vx_value.specs.Views.{data_view, type_of};
ghost use Rattle.vx_rewrite_folding.specs.Known.{tree_of};
ghost use Rattle.vx_rewrite_rule_laws.specs.Folding.{contains_given, is_empty_list, is_literal_of};
ghost use Rattle.vx_rewrite_core.specs.Nodes.{two_of};
ghost use Rattle.vx_tree.specs.Views.{bound_of, bounds_of};

use crate::known::Known;
use crate::nulls::known_of_comparison;
use vx_dtype::DType;
use vx_rewrite_core::{literal_value, pair};
use vx_tree::BoundExpression;
use vx_value::Value;

// What is known of a search of the type: with a null it is null, as a comparison is, and in a list without
// elements there is nothing that is never null.
pub(crate) fn known_of_search<'a>(
    dtype: &'a DType,
    children: &[BoundExpression],
) -> Option<Known<'a>>
    ensures { option_map tree_of result ≡ option_and_then (λ p. contains_given (type_of dtype.now) p.0 p.1) (two_of (bounds_of children.now)) }
{
    let (list, sought) = pair(children)?;
    if let Some(known) = known_of_comparison(dtype, list, sought) {
        return Some(known);
    }
    if is_empty_list(list) && !sought.dtype().is_nullable() {
        return Some(Known::Truth(false));
    }
    None
}

// Whether the tree is the literal of a list without elements.
fn is_empty_list(tree: &BoundExpression) -> bool
    ensures { result ≡ is_literal_of is_empty_list (bound_of tree.now) }
{
    match literal_value(tree) {
        Some(scalar) => match scalar.value() {
            Value::List(items) => is_empty(items.as_slice()),
            _ => false,
        },
        None => false,
    }
}

// Whether there are none.
fn is_empty(items: &[Value]) -> bool
    ensures { result ≡ is_empty_list (list_of (data_view items.now)) }
{
    match items {
        [] => true,
        [_, ..] => false,
    }
}

// Operands that stand before once more.
ghost use Rattle.std.specs.Prelude.{◌≡◌, ◌≤◌, [], ◌∷◌, IfOk};
ghost use Rattle.vx_fn.specs.Functions.{binary, compares, equal};
ghost use Rattle.vx_tree.specs.Views.{tree_of};
ghost use Rattle.vx_source_grammar.specs.Joining.{over};
ghost use Rattle.vx_source_grammar.specs.Nodes.{height_of};
ghost use Rattle.vx_source_operands.specs.Places.{ReadsUpTo};
ghost use Rattle.vx_source_operands.specs.OperandViews.{operand_of};

use crate::context::Context;
use crate::nodes::{NodeParts, measured};
use crate::operand::{Operand, Places};
use std::alloc::AllocError;
use vx_fn::{Operator, ScalarFnRef};
use vx_source_types::ParseError;
use vx_tree::Expression;

// An operand that stands before once more, with the place of its first node alone.
#[derive(Drop)]
pub(crate) struct Again {
    pub tree: Expression,
    pub height: usize,
    pub start: usize,
    pub end: usize,
    ghost counted: { height ≡ height_of (tree_of tree) },
    ghost ordered: { start ≤ end },
}

// The operand once more: a clone, which shares what is below its first node.
pub(crate) fn repeated(operand: &Operand) -> Result<Again, AllocError>
    ensures tree { IfOk result (λ again. tree_of again.tree ≡ operand_of operand.now) }
{
    Ok(Again {
        tree: (*operand.tree).clone()?,
        height: operand.height,
        start: operand.places.start,
        end: operand.places.end,
    })
}

// The comparison of what stands before with the item, read from the first to the second. Refuses as `node` does.
pub(crate) fn equal_again(
    context: Context,
    again: &Again,
    item: Operand,
) -> Result<Operand, ParseError>
    ensures reads { ReadsUpTo context.entry.found.now.at operand_of result (over (binary (compares equal)) (tree_of again.now.tree ∷ operand_of item ∷ []) context.entry.room) }
{
    let start = again.start.min(item.places.start);
    let end = again.end.max(item.places.end);
    let lhs = Places {
        start: again.start,
        end: again.end,
        children: Vec::new(context.alloc),
    };
    let trees = [again.tree.clone()?, Box::into_inner(item.tree)];
    let parts = NodeParts {
        scalar_fn: ScalarFnRef::Binary(Operator::Eq),
        trees: Vec::from_array(context.alloc, trees)?,
        highest: item.height.max(again.height),
        places: Places {
            start,
            end,
            children: Vec::from_array(context.alloc, [lhs, item.places])?,
        },
    };
    measured(context, parts)
}

// Nodes over operands that were read.
ghost use Rattle.std.specs.Prelude.{◌≡◌, [], ◌∷◌, map, IfOk};
ghost use Rattle.vx_fn.specs.Views.{function_of};
ghost use Rattle.vx_tree.specs.Trees.{root, call};
ghost use Rattle.vx_tree.specs.Views.{tree_of, trees_of};
ghost use Rattle.vx_source_grammar.specs.Joining.{over};
ghost use Rattle.vx_source_grammar.specs.Nodes.{heights_of, node_read};
ghost use Rattle.vx_source_operands.specs.Places.{ReadsUpTo};
ghost use Rattle.vx_source_operands.specs.PlacedNodes.{IsPlaced};
ghost use Rattle.vx_source_operands.specs.OperandViews.{operand_of, operands_of};

use crate::context::Context;
use crate::operand::{Operand, Places};
use std::alloc::{AllocError, Global};
use std::sync::Arc;
use vx_fn::ScalarFnRef;
use vx_source_types::{Expected, ParseError, expected};
use vx_tree::Expression;

/// The scope root, read from these bytes.
#[tactic(auto, using(crate::proofs::Placing::root_placed))]
pub fn root(alloc: Global, start: usize, end: usize) -> Result<Operand, AllocError>
    ensures tree { IfOk result (λ made. operand_of made ≡ root) }
{
    Ok(Operand {
        tree: Box::new(alloc, Expression::Root)?,
        height: 0,
        places: Places {
            start: start.min(end),
            end,
            children: Vec::new(alloc),
        },
    })
}

/// The operand between parentheses, which stand in these bytes.
pub fn enclosed(operand: Operand, start: usize, end: usize) -> Operand
    ensures tree { operand_of result ≡ operand_of operand }
{
    let Operand {
        tree,
        height,
        places,
    } = operand;
    Operand {
        tree,
        height,
        places: Places {
            start: start.min(places.start),
            end: end.max(places.end),
            children: places.children,
        },
    }
}

// A node that may be higher than the room: the function, the trees below, the height of the highest of them (0 of none), and
// where they stand.
#[derive(Drop)]
pub(crate) struct NodeParts {
    pub scalar_fn: ScalarFnRef,
    pub trees: Vec<Expression>,
    pub highest: usize,
    pub places: Places,
    ghost counted: { highest ≡ heights_of (trees_of trees.items) },
    ghost placed: { ∥ IsPlaced (call (function_of scalar_fn) (trees_of trees.items)) places ∥₁ },
}

// The node. Refuses with `LessNesting`, at what was found, one that is higher than the room.
pub(crate) fn measured(context: Context, parts: NodeParts) -> Result<Operand, ParseError>
    ensures reads { ReadsUpTo context.entry.found.now.at operand_of result (node_read (function_of parts.scalar_fn) (trees_of parts.trees.items) context.entry.room) }
{
    let Context { alloc, room, found } = context;
    let NodeParts {
        scalar_fn,
        trees,
        highest,
        places,
    } = parts;
    if highest >= room {
        return Err(expected(found, Expected::LessNesting));
    }
    Ok(Operand {
        tree: scalar(alloc, scalar_fn, trees)?,
        height: highest + 1,
        places,
    })
}

// The function over the trees.
fn scalar(
    alloc: Global,
    scalar_fn: ScalarFnRef,
    trees: Vec<Expression>,
) -> Result<Box<Expression>, AllocError>
    ensures tree { IfOk result (λ made. tree_of made.value ≡ call (function_of scalar_fn) (trees_of trees.items)) }
{
    let children = Arc::new(alloc, trees)?;
    let tree = Expression::Scalar {
        scalar_fn,
        children,
    };
    Ok(Box::new(alloc, tree)?)
}

/// The node of the function over the operands, read from these bytes. Refuses with `LessNesting`, at what was found, one
/// that is higher than the room.
pub fn node(
    context: Context,
    scalar_fn: ScalarFnRef,
    operands: Vec<Operand>,
    bytes: (usize, usize),
) -> Result<Operand, ParseError>
    ensures reads { ReadsUpTo context.entry.found.now.at operand_of result (over (function_of scalar_fn) (operands_of operands.items) context.entry.room) }
{
    let parts = parts_of(context.alloc, scalar_fn, operands, bytes)?;
    measured(context, parts)
}

// The node over the operands. Its place has these bytes and the operands'.
fn parts_of(
    alloc: Global,
    scalar_fn: ScalarFnRef,
    operands: Vec<Operand>,
    bytes: (usize, usize),
) -> Result<NodeParts, AllocError>
    ensures function { IfOk result (λ parts. parts.scalar_fn ≡ scalar_fn) }
    ensures trees { IfOk result (λ parts. map tree_of parts.trees.items ≡ operands_of operands.items) }
{
    let mut start = bytes.0.min(bytes.1);
    let mut end = bytes.0.max(bytes.1);
    let mut highest = 0;
    let mut trees = Vec::with_capacity(alloc, operands.len())?;
    let mut children = Vec::with_capacity(alloc, operands.len())?;
    for operand in operands {
        let Operand {
            tree,
            height,
            places,
        } = operand;
        start = start.min(places.start);
        end = end.max(places.end);
        highest = height.max(highest);
        trees.push(Box::into_inner(tree))?;
        children.push(places)?;
    }
    Ok(NodeParts {
        scalar_fn,
        trees,
        highest,
        places: Places {
            start,
            end,
            children,
        },
    })
}

/// The node of the function over one operand, read from these bytes. Refuses as `node` does.
pub fn node_over(
    context: Context,
    scalar_fn: ScalarFnRef,
    operand: Operand,
    bytes: (usize, usize),
) -> Result<Operand, ParseError>
    ensures reads { ReadsUpTo context.entry.found.now.at operand_of result (over (function_of scalar_fn) (operand_of operand ∷ []) context.entry.room) }
{
    let Operand {
        tree,
        height,
        places,
    } = operand;
    let start = bytes.0.min(places.start);
    let end = bytes.1.max(places.end);
    let parts = NodeParts {
        scalar_fn,
        trees: Vec::from_array(context.alloc, [Box::into_inner(tree)])?,
        highest: height,
        places: Places {
            start,
            end,
            children: Vec::from_array(context.alloc, [places])?,
        },
    };
    measured(context, parts)
}

/// The node of the function over two operands, read from the first to the second. Refuses as `node` does.
pub fn node_between(
    context: Context,
    scalar_fn: ScalarFnRef,
    lhs: Operand,
    rhs: Operand,
) -> Result<Operand, ParseError>
    ensures reads { ReadsUpTo context.entry.found.now.at operand_of result (over (function_of scalar_fn) (operand_of lhs ∷ operand_of rhs ∷ []) context.entry.room) }
{
    let start = lhs.places.start.min(rhs.places.start);
    let end = lhs.places.end.max(rhs.places.end);
    let trees = [Box::into_inner(lhs.tree), Box::into_inner(rhs.tree)];
    let parts = NodeParts {
        scalar_fn,
        trees: Vec::from_array(context.alloc, trees)?,
        highest: rhs.height.max(lhs.height),
        places: Places {
            start,
            end,
            children: Vec::from_array(context.alloc, [lhs.places, rhs.places])?,
        },
    };
    measured(context, parts)
}

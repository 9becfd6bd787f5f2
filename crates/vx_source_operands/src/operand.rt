// What stands between the operators of a text: expressions, with the bytes that they were read from.
ghost use Rattle.std.specs.Prelude.{◌≡◌};
ghost use Rattle.vx_tree.specs.Views.{tree_of};
ghost use Rattle.vx_source_grammar.specs.Nodes.{height_of};
ghost use Rattle.vx_source_operands.specs.PlacedNodes.{IsPlaced};

use vx_tree::Expression;

/// The bytes that a node was read from, and those of its children.
#[derive(Debug, Drop)]
pub struct Places {
    /// The first byte.
    pub start: usize,
    /// The byte behind the last.
    pub end: usize,
    /// The children, in the order of the tree's; none where the node is one that stands before once more.
    pub children: Vec<Places>,
}

/// An expression that was read, and where it stands.
#[derive(Drop)]
pub struct Operand {
    /// The expression.
    pub tree: Box<Expression>,
    /// How many function nodes the longest way down has.
    pub height: usize,
    /// The bytes that its nodes were read from.
    pub places: Places,
    ghost counted: { height ≡ height_of (tree_of tree.value) },
    ghost placed: { ∥ IsPlaced (tree_of tree.value) places ∥₁ },
}

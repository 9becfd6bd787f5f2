// Printing trees of either kind over several lines.
ghost use Rattle.std.specs.Prelude.{◌≡◌, Some};
ghost use Rattle.vx_tree.specs.TreeTexts.{tree_text};
ghost use Rattle.vx_tree.specs.Trees.{unbound};
ghost use Rattle.vx_tree.specs.Views.{tree_of, bound_of};

use crate::tree_text::{Prefix, fmt_tree};
use crate::{BoundExpression, Expression};
use std::fmt;
use std::fmt::{Display, Formatter, Write};

/// The two ways to print an expression.
#[derive(Clone, Copy)]
pub enum DisplayFormat {
    /// On one line: the SQL text.
    Compact,
    /// A line for each node: the tree text.
    Tree,
}

/// Prints the tree text of the expression that it refers to, without a newline at the end. Takes
/// no memory, and time in the length of the text: before each line stand as many bars as its node
/// has nodes above it.
#[derive(Drop)]
pub struct DisplayTreeExpr<'a, T = Expression>(pub &'a T);

/// The tree text of the tree.
impl Display for DisplayTreeExpr<'_, Expression> {
    ghost output = { λ d. Some (tree_text (tree_of d.0.now)) };

    fn fmt<W: Write>(&self, f: &mut Formatter<W>) -> fmt::Result {
        fmt_tree(self.0, &Prefix::Empty, f)
    }
}

/// The tree text of the tree without types.
impl Display for DisplayTreeExpr<'_, BoundExpression> {
    ghost output = { λ d. Some (tree_text (unbound (bound_of d.0.now))) };

    fn fmt<W: Write>(&self, f: &mut Formatter<W>) -> fmt::Result {
        fmt_tree(self.0, &Prefix::Empty, f)
    }
}

impl Expression {
    /// The tree as something that prints its tree text.
    pub fn display_tree(&self) -> DisplayTreeExpr<'_>
        ensures { result.0.now ≡ self.now }
    {
        DisplayTreeExpr(self)
    }
}

impl BoundExpression {
    /// The tree as something that prints the tree text of its source.
    pub fn display_tree(&self) -> DisplayTreeExpr<'_, BoundExpression>
        ensures { result.0.now ≡ self.now }
    {
        DisplayTreeExpr(self)
    }
}

// Printing trees of either kind.
ghost use Rattle.std.specs.Prelude.{◌≡◌, ◌<◌, Some, refl};
ghost use Rattle.std.specs.Fmt.{WritesOnOk};
ghost use Rattle.vx_tree.specs.Nodes.{children_of, count_of, tree_at, bound_children_of, bound_at};
ghost use Rattle.vx_tree.specs.Texts.{sql};
ghost use Rattle.vx_tree.specs.Trees.{Tree, unbound};
ghost use Rattle.vx_tree.specs.Views.{tree_of, bound_of};

use crate::sql::fmt_sql;
use crate::{BoundExpression, Expression};
use std::fmt;
use std::fmt::{Display, Formatter, Write};

/// An expression that can be printed child by child.
pub trait ExprDisplay: Display + Sized {
    /// The tree, without types.
    ghost tree: { Self → Tree };

    /// The child at that index, counted from 0. Asks for an index below the number of children.
    fn display_child(&self, i: usize) -> &Self
        requires { i < count_of (children_of (tree self.now)) }
        ensures { Some (tree result.now) ≡ tree_at (children_of (tree self.now)) i };

    /// The number of children.
    fn display_children_count(&self) -> usize
        ensures { result ≡ count_of (children_of (tree self.now)) };

    /// It prints as the SQL text of its tree.
    ghost shown: { (e : Self) → Self.Display.output e ≡ Some (sql (tree e)) };
}

impl Expression {
    /// Writes the SQL text of the tree. Takes no memory.
    pub fn fmt_sql<W: Write>(&self, f: &mut Formatter<W>) -> fmt::Result
        ensures { WritesOnOk W.write_str_gives f.old result (sql (tree_of self.now)) f.new }
    {
        fmt_sql(self, f)
    }
}

/// The SQL text of the tree.
impl Display for Expression {
    ghost output = { λ e. Some (sql (tree_of e)) };

    fn fmt<W: Write>(&self, f: &mut Formatter<W>) -> fmt::Result {
        fmt_sql(self, f)
    }
}

/// The SQL text of the tree without types.
impl Display for BoundExpression {
    ghost output = { λ b. Some (sql (unbound (bound_of b))) };

    fn fmt<W: Write>(&self, f: &mut Formatter<W>) -> fmt::Result {
        fmt_sql(self, f)
    }
}

impl ExprDisplay for Expression {
    ghost tree = { tree_of };

    ghost shown = { λ e. refl };

    fn display_child(&self, i: usize) -> &Expression {
        self.child(i)
    }

    fn display_children_count(&self) -> usize {
        self.children().len()
    }
}

impl ExprDisplay for BoundExpression {
    ghost tree = { λ b. unbound (bound_of b) };

    ghost shown = { λ b. refl };

    fn display_child(&self, i: usize) -> &BoundExpression
        requires { i < count_of (children_of (unbound (bound_of self.now))) }
        ensures source { Some (unbound (bound_of result.now)) ≡ tree_at (children_of (unbound (bound_of self.now))) i }
        ensures bound { Some (bound_of result.now) ≡ bound_at (bound_children_of (bound_of self.now)) i }
    {
        self.child(i)
    }

    fn display_children_count(&self) -> usize {
        self.children().len()
    }
}

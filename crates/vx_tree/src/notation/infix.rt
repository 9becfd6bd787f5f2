// The texts of operators, LIKE and BETWEEN, whose signs stand between their children.
ghost use Rattle.std.specs.Prelude.{◌≡◌, ◌<◌, ◌++◌, length, get_or, [], codes};
ghost use Rattle.std.specs.Fmt.{WritesOnOk};
ghost use Rattle.vx_fn.specs.Texts.{between_sql, bound_text, like_text, operation_text, operator_sql};
ghost use Rattle.vx_fn.specs.Views.{is_strict, operation_of};
ghost use Rattle.vx_tree.specs.Notations.{texts_of};

use super::{Notation, write_child};
use crate::TreeNode;
use std::fmt;
use std::fmt::{Display, Formatter, Write};
use vx_fn::{BetweenOptions, LikeOptions, Operator, StrictComparison};

// An operator between its operands.
#[cycle(written)]
pub(super) fn write_binary<N: Notation, T: TreeNode, W: Write>(
    notation: &N,
    operator: Operator,
    operands: &[T],
    f: &mut Formatter<W>,
) -> fmt::Result
    requires { length operands.now ≡ 2 }
    ensures { WritesOnOk W.write_str_gives f.old result
        (operator_sql (operation_text (operation_of operator)) (get_or (texts_of N.words T.tree operands.now) 0 []) (get_or (texts_of N.words T.tree operands.now) 1 []))
        f.new }
{
    f.write_str("(")?;
    write_child(notation, operands, 0, f)?;
    write_sign(operator, f)?;
    write_child(notation, operands, 1, f)?;
    f.write_str(")")
}

// The word of a LIKE between the text and the pattern.
#[cycle(written)]
pub(super) fn write_like<N: Notation, T: TreeNode, W: Write>(
    notation: &N,
    options: LikeOptions,
    children: &[T],
    f: &mut Formatter<W>,
) -> fmt::Result
    requires { length children.now ≡ 2 }
    ensures { WritesOnOk W.write_str_gives f.old result
        (operator_sql (like_text options.negated options.case_insensitive) (get_or (texts_of N.words T.tree children.now) 0 []) (get_or (texts_of N.words T.tree children.now) 1 []))
        f.new }
{
    f.write_str("(")?;
    write_child(notation, children, 0, f)?;
    write_like_word(options, f)?;
    write_child(notation, children, 1, f)?;
    f.write_str(")")
}

// The lower bound and its sign, the middle, and the sign and the upper bound.
#[cycle(written)]
pub(super) fn write_between<N: Notation, T: TreeNode, W: Write>(
    notation: &N,
    options: BetweenOptions,
    children: &[T],
    f: &mut Formatter<W>,
) -> fmt::Result
    requires { length children.now ≡ 3 }
    ensures { WritesOnOk W.write_str_gives f.old result
        (between_sql (is_strict options.lower_strict) (is_strict options.upper_strict)
        (get_or (texts_of N.words T.tree children.now) 0 []) (get_or (texts_of N.words T.tree children.now) 1 []) (get_or (texts_of N.words T.tree children.now) 2 []))
        f.new }
{
    f.write_str("(")?;
    write_below(notation, children, 1, options.lower_strict, f)?;
    write_below(notation, children, 0, options.upper_strict, f)?;
    write_child(notation, children, 2, f)?;
    f.write_str(")")
}

// One of the children, and the sign between it and what is above it.
#[cycle(written)]
fn write_below<N: Notation, T: TreeNode, W: Write>(
    notation: &N,
    children: &[T],
    index: usize,
    strict: StrictComparison,
    f: &mut Formatter<W>,
) -> fmt::Result
    requires { index < length children.now }
    ensures { WritesOnOk W.write_str_gives f.old result
        (get_or (texts_of N.words T.tree children.now) index [] ++ (codes " " ++ (bound_text (is_strict strict) ++ codes " "))) f.new }
{
    write_child(notation, children, index, f)?;
    f.write_str(" ")?;
    f.write_str(strict.sign())?;
    f.write_str(" ")
}

// The operator between spaces.
fn write_sign<W: Write>(operator: Operator, f: &mut Formatter<W>) -> fmt::Result
    ensures { WritesOnOk W.write_str_gives f.old result (codes " " ++ (operation_text (operation_of operator) ++ codes " ")) f.new }
{
    f.write_str(" ")?;
    operator.fmt(f)?;
    f.write_str(" ")
}

// The word of a LIKE between spaces.
fn write_like_word<W: Write>(options: LikeOptions, f: &mut Formatter<W>) -> fmt::Result
    ensures { WritesOnOk W.write_str_gives f.old result (codes " " ++ (like_text options.negated options.case_insensitive ++ codes " ")) f.new }
{
    f.write_str(" ")?;
    options.fmt(f)?;
    f.write_str(" ")
}

// The text of a CASE.
ghost use Rattle.std.specs.Prelude.{◌<◌, ◌+◌, ◌++◌, length, codes};
ghost use Rattle.std.specs.Fmt.{WritesOnOk};
ghost use Rattle.vx_fn.specs.Texts.{pairs_sql};
ghost use Rattle.vx_tree.specs.Notations.{texts_of};
ghost use Rattle.vx_tree.specs.Texts.{pair_sql};

use super::{Notation, write_child};
use crate::TreeNode;
use std::fmt;
use std::fmt::{Formatter, Write};

// A CASE: conditions and values in turn, and what is left over as the ELSE.
#[cycle(written)]
pub(super) fn write_case<N: Notation, T: TreeNode, W: Write>(
    notation: &N,
    children: &[T],
    f: &mut Formatter<W>,
) -> fmt::Result
    ensures { WritesOnOk W.write_str_gives f.old result (codes "CASE" ++ (pairs_sql (texts_of N.words T.tree children.now) ++ codes " END")) f.new }
{
    f.write_str("CASE")?;
    write_branches(notation, children, f)?;
    f.write_str(" END")
}

#[cycle(written)]
fn write_branches<N: Notation, T: TreeNode, W: Write>(
    notation: &N,
    children: &[T],
    f: &mut Formatter<W>,
) -> fmt::Result
    ensures { WritesOnOk W.write_str_gives f.old result (pairs_sql (texts_of N.words T.tree children.now)) f.new }
{
    let pairs = children.len() / 2;
    for pair in 0..pairs {
        write_pair(notation, children, 2 * pair, f)?;
    }
    if 2 * pairs < children.len() {
        f.write_str(" ELSE ")?;
        write_child(notation, children, 2 * pairs, f)?;
    }
    Ok(())
}

// A condition and the value behind it.
#[cycle(written)]
fn write_pair<N: Notation, T: TreeNode, W: Write>(
    notation: &N,
    children: &[T],
    index: usize,
    f: &mut Formatter<W>,
) -> fmt::Result
    requires { index + 1 < length children.now }
    ensures { WritesOnOk W.write_str_gives f.old result (pair_sql (texts_of N.words T.tree children.now) index) f.new }
{
    f.write_str(" WHEN ")?;
    write_child(notation, children, index, f)?;
    f.write_str(" THEN ")?;
    write_child(notation, children, index + 1, f)
}

// The tree text of a tree of either kind.
ghost use Rattle.std.specs.Prelude.{◌≡◌, ◌<◌, ◌+◌, ◌++◌, ◌==◌, codes};
ghost use Rattle.std.specs.Fmt.{WritesOnOk};
ghost use Rattle.vx_fn.specs.Views.{function_of};
ghost use Rattle.vx_tree.specs.TreeTexts.{bar, branch, called, prefix_of, text_behind};

use crate::TreeNode;
use std::fmt;
use std::fmt::{Display, Formatter, Write};
use vx_fn::{ChildName, ScalarFnRef};

// The bars before a line, from the innermost out. Each stands on the stack beside its node, so that
// a prefix takes no memory.
#[derive(Clone, Copy)]
pub(crate) enum Prefix<'a> {
    // Below no node.
    Empty,
    // Below a child, the last one or another, and what stands before the child's own line.
    Below(bool, &'a Prefix<'a>),
}

// The text of a node, and a line for each node below it behind the prefix.
pub(crate) fn fmt_tree<T: TreeNode, W: Write>(
    node: &T,
    prefix: &Prefix<'_>,
    f: &mut Formatter<W>,
) -> fmt::Result
    ensures { WritesOnOk W.write_str_gives f.old result (text_behind (prefix_of prefix.now) (T.tree node.now)) f.new }
{
    let Some(scalar_fn) = node.node_function() else {
        return f.write_str("vortex.root()");
    };
    scalar_fn.fmt(f)?;
    let children = node.node_children();
    let count = children.len();
    for (index, child) in children.iter().enumerate() {
        let last = index + 1 == count;
        fmt_branch(prefix, last, f)?;
        fmt_name(scalar_fn, count, index, f)?;
        // Lent anew, for no longer than the child is written.
        fmt_tree(child, &Prefix::Below(last, &*prefix), f)?;
    }
    Ok(())
}

// The beginning of a child's line, up to its name.
fn fmt_branch<W: Write>(prefix: &Prefix<'_>, last: bool, f: &mut Formatter<W>) -> fmt::Result
    ensures { WritesOnOk W.write_str_gives f.old result (codes "\n" ++ (prefix_of prefix.now ++ branch last)) f.new }
{
    f.write_str("\n")?;
    fmt_prefix(prefix, f)?;
    f.write_str(branch(last))
}

// The bars, from the outermost in.
fn fmt_prefix<W: Write>(prefix: &Prefix<'_>, f: &mut Formatter<W>) -> fmt::Result
    ensures { WritesOnOk W.write_str_gives f.old result (prefix_of prefix.now) f.new }
{
    match prefix {
        Prefix::Empty => Ok(()),
        Prefix::Below(last, above) => {
            fmt_prefix(above, f)?;
            f.write_str(bar(*last))
        }
    }
}

// What the child is called in a node of so many children, and the colon behind it.
fn fmt_name<W: Write>(
    scalar_fn: &ScalarFnRef,
    count: usize,
    index: usize,
    f: &mut Formatter<W>,
) -> fmt::Result
    ensures { WritesOnOk W.write_str_gives f.old result (called (function_of scalar_fn.now) count index ++ codes ": ") f.new }
{
    if count == scalar_fn.arity() {
        let name = ChildName { scalar_fn, index };
        name.fmt(f)?;
    } else {
        index.fmt(f)?;
    }
    f.write_str(": ")
}

// The sign before a child's name.
fn branch(last: bool) -> &'static str
    ensures { result.now ≡ branch last }
{
    if last { "└── " } else { "├── " }
}

// What stands before the lines below a child.
fn bar(last: bool) -> &'static str
    ensures { result.now ≡ bar last }
{
    if last { "    " } else { "│   " }
}

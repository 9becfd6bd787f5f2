// The text of a struct of named children.
ghost use Rattle.std.specs.Prelude.{◌≡◌, ◌<◌, length, get_or, []};
ghost use Rattle.std.specs.Fmt.{WritesOnOk};
ghost use Rattle.vx_value.specs.Views.{admits_null};
ghost use Rattle.vx_fn.specs.Texts.{with_commas, named_texts, pack_sql};
ghost use Rattle.vx_tree.specs.Notations.{names_in, texts_of};

use super::{Notation, write_child};
use crate::TreeNode;
use std::fmt;
use std::fmt::{Formatter, Write};
use vx_dtype::FieldName;
use vx_fn::PackOptions;

// A struct of named children, with a question mark where it is nullable.
#[cycle(written)]
pub(super) fn write_pack<N: Notation, T: TreeNode, W: Write>(
    notation: &N,
    options: &PackOptions,
    children: &[T],
    f: &mut Formatter<W>,
) -> fmt::Result
    requires { length children.now ≡ length options.now.names }
    ensures { WritesOnOk W.write_str_gives f.old result (pack_sql (names_in N.words options.now.names) (admits_null options.now.nullability) (texts_of N.words T.tree children.now)) f.new }
{
    f.write_str("pack(")?;
    write_named(notation, options.names.as_slice(), children, f)?;
    f.write_str(")")?;
    f.write_str(if options.nullability.admits_null() {
        "?"
    } else {
        ""
    })
}

// The children, each behind its name, with commas between them.
#[cycle(written)]
fn write_named<N: Notation, T: TreeNode, W: Write>(
    notation: &N,
    names: &[FieldName],
    children: &[T],
    f: &mut Formatter<W>,
) -> fmt::Result
    requires { length children.now ≡ length names.now }
    ensures { WritesOnOk W.write_str_gives f.old result (with_commas (named_texts (names_in N.words names.now) (texts_of N.words T.tree children.now))) f.new }
{
    if children.is_empty() {
        return Ok(());
    }
    write_named_child(notation, names, children, 0, f)?;
    for index in 1..children.len() {
        f.write_str(", ")?;
        write_named_child(notation, names, children, index, f)?;
    }
    Ok(())
}

#[cycle(written)]
fn write_named_child<N: Notation, T: TreeNode, W: Write>(
    notation: &N,
    names: &[FieldName],
    children: &[T],
    index: usize,
    f: &mut Formatter<W>,
) -> fmt::Result
    requires named { index < length names.now }
    requires given { index < length children.now }
    ensures { WritesOnOk W.write_str_gives f.old result (get_or (named_texts (names_in N.words names.now) (texts_of N.words T.tree children.now)) index []) f.new }
{
    notation.write_name(&names[index], f)?;
    f.write_str(": ")?;
    write_child(notation, children, index, f)
}

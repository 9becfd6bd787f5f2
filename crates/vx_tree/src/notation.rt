// Trees of either kind, written in a notation.
ghost use Rattle.std.specs.Prelude.{◌≡◌, ◌<◌, length, get_or, map, []};
ghost use Rattle.std.specs.Fmt.{WritesOnOk};
ghost use Rattle.vx_value.specs.Views.{type_of};
ghost use Rattle.vx_fn.specs.Functions.{arity_of};
ghost use Rattle.vx_fn.specs.Texts.{call_sql, with_commas};
ghost use Rattle.vx_fn.specs.Views.{function_of};
ghost use Rattle.vx_tree.specs.Notations.{name_in, names_in, literal_in, type_in, opening_in, is_shown_in, select_in, own_in, full_in, text_in, texts_of};

mod case;
mod infix;
mod pack;

use crate::TreeNode;
use case::write_case;
use infix::{write_between, write_binary, write_like};
use pack::write_pack;
use std::fmt;
use std::fmt::{Formatter, Write};
use vx_dtype::{DType, FieldName};
use vx_fn::{FieldSelection, ScalarFnRef};
use vx_value::Scalar;

/// What differs between notations of trees, which [`write_tree`] writes: names, literals, types, and
/// nodes that are written by the names of their functions. None of these calls takes memory.
pub trait Notation {
    ghost use Rattle.vx_tree.specs.Notations.{Words};

    ghost words: { Words };

    /// Writes the name of a field.
    fn write_name<W: Write>(&self, name: &FieldName, f: &mut Formatter<W>) -> fmt::Result
        ensures { WritesOnOk W.write_str_gives f.old result (name_in words name.now) f.new };

    /// Writes the names of fields, with commas between them.
    fn write_names<W: Write>(&self, names: &[FieldName], f: &mut Formatter<W>) -> fmt::Result
        ensures { WritesOnOk W.write_str_gives f.old result (with_commas (names_in words names.now)) f.new };

    /// Writes the value of a literal.
    fn write_scalar<W: Write>(&self, scalar: &Scalar, f: &mut Formatter<W>) -> fmt::Result
        ensures { WritesOnOk W.write_str_gives f.old result (literal_in words scalar.now.value scalar.now.type) f.new };

    /// Writes the type that a cast is to.
    fn write_type<W: Write>(&self, t: &DType, f: &mut Formatter<W>) -> fmt::Result
        ensures { WritesOnOk W.write_str_gives f.old result (type_in words (type_of t.now)) f.new };

    /// Whether a node of the function, over as many children as it takes, has a form of its own.
    fn is_shown(&self, scalar_fn: &ScalarFnRef) -> bool
        ensures { result ≡ is_shown_in words (function_of scalar_fn.now) };

    /// Writes what stands between a function's name and its children at any other node.
    fn write_opening<W: Write>(&self, scalar_fn: &ScalarFnRef, f: &mut Formatter<W>) -> fmt::Result
        ensures { WritesOnOk W.write_str_gives f.old result (opening_in words (function_of scalar_fn.now)) f.new };
}

/// Writes the tree in the notation. Takes no memory.
#[cycle(written)]
pub fn write_tree<N: Notation, T: TreeNode, W: Write>(
    notation: &N,
    node: &T,
    f: &mut Formatter<W>,
) -> fmt::Result
    ensures { WritesOnOk W.write_str_gives f.old result (text_in N.words (T.tree node.now)) f.new }
{
    let Some(scalar_fn) = node.node_function() else {
        return f.write_str("$");
    };
    let children = node.node_children();
    if !notation.is_shown(scalar_fn) {
        return write_full(notation, scalar_fn, children, f);
    }
    if children.len() == scalar_fn.arity() {
        write_own(notation, scalar_fn, children, f)
    } else {
        write_full(notation, scalar_fn, children, f)
    }
}

// The text of a node that has its number of children.
#[cycle(written)]
fn write_own<N: Notation, T: TreeNode, W: Write>(
    notation: &N,
    scalar_fn: &ScalarFnRef,
    children: &[T],
    f: &mut Formatter<W>,
) -> fmt::Result
    requires { length children.now ≡ arity_of (function_of scalar_fn.now) }
    ensures { WritesOnOk W.write_str_gives f.old result (own_in N.words (function_of scalar_fn.now) (texts_of N.words T.tree children.now)) f.new }
{
    match scalar_fn {
        ScalarFnRef::CaseWhen(_) => write_case(notation, children, f),
        ScalarFnRef::GetItem(name) => {
            write_child(notation, children, 0, f)?;
            f.write_str(".")?;
            notation.write_name(name, f)
        }
        ScalarFnRef::Literal(scalar) => notation.write_scalar(scalar, f),
        ScalarFnRef::Pack(options) => write_pack(notation, options, children, f),
        ScalarFnRef::Select(selection) => write_select(notation, selection, children, f),
        ScalarFnRef::Zip(_) => {
            f.write_str("zip(")?;
            write_list(notation, children, f)?;
            f.write_str(")")
        }
        ScalarFnRef::Binary(operator) => write_binary(notation, *operator, children, f),
        ScalarFnRef::Between(options) => write_between(notation, *options, children, f),
        ScalarFnRef::Like(options) => write_like(notation, *options, children, f),
        ScalarFnRef::Cast(target) => {
            f.write_str("cast(")?;
            write_child(notation, children, 0, f)?;
            f.write_str(" as ")?;
            notation.write_type(target, f)?;
            f.write_str(")")
        }
        ScalarFnRef::FillNull(_)
        | ScalarFnRef::Not(_)
        | ScalarFnRef::IsNull(_)
        | ScalarFnRef::IsNotNull(_)
        | ScalarFnRef::Mask(_)
        | ScalarFnRef::StartsWith(_)
        | ScalarFnRef::ByteLength(_)
        | ScalarFnRef::ListContains(_) => write_call(notation, scalar_fn, children, f),
    }
}

// The text of one of the children.
#[cycle(written)]
fn write_child<N: Notation, T: TreeNode, W: Write>(
    notation: &N,
    children: &[T],
    index: usize,
    f: &mut Formatter<W>,
) -> fmt::Result
    requires { index < length children.now }
    ensures { WritesOnOk W.write_str_gives f.old result (get_or (texts_of N.words T.tree children.now) index []) f.new }
{
    write_tree(notation, &children[index], f)
}

// The function's name, and the children between parentheses.
#[cycle(written)]
fn write_call<N: Notation, T: TreeNode, W: Write>(
    notation: &N,
    scalar_fn: &ScalarFnRef,
    children: &[T],
    f: &mut Formatter<W>,
) -> fmt::Result
    ensures { WritesOnOk W.write_str_gives f.old result (call_sql (function_of scalar_fn.now) (texts_of N.words T.tree children.now)) f.new }
{
    f.write_str(scalar_fn.id())?;
    f.write_str("(")?;
    write_list(notation, children, f)?;
    f.write_str(")")
}

// The function's name, what the notation writes before the children, and the children.
#[cycle(written)]
fn write_full<N: Notation, T: TreeNode, W: Write>(
    notation: &N,
    scalar_fn: &ScalarFnRef,
    children: &[T],
    f: &mut Formatter<W>,
) -> fmt::Result
    ensures { WritesOnOk W.write_str_gives f.old result (full_in N.words (function_of scalar_fn.now) (texts_of N.words T.tree children.now)) f.new }
{
    f.write_str(scalar_fn.id())?;
    notation.write_opening(scalar_fn, f)?;
    write_list(notation, children, f)?;
    f.write_str(")")
}

// The texts of the children, with commas between them.
#[cycle(written)]
fn write_list<N: Notation, T: TreeNode, W: Write>(
    notation: &N,
    children: &[T],
    f: &mut Formatter<W>,
) -> fmt::Result
    ensures { WritesOnOk W.write_str_gives f.old result (with_commas (texts_of N.words T.tree children.now)) f.new }
{
    if children.is_empty() {
        return Ok(());
    }
    write_child(notation, children, 0, f)?;
    for index in 1..children.len() {
        f.write_str(", ")?;
        write_child(notation, children, index, f)?;
    }
    Ok(())
}

// The child, and the names of the selection between braces, behind a tilde where they are left out.
#[cycle(written)]
fn write_select<N: Notation, T: TreeNode, W: Write>(
    notation: &N,
    selection: &FieldSelection,
    children: &[T],
    f: &mut Formatter<W>,
) -> fmt::Result
    requires { length children.now ≡ 1 }
    ensures { WritesOnOk W.write_str_gives f.old result (select_in N.words selection.now (get_or (texts_of N.words T.tree children.now) 0 [])) f.new }
{
    write_child(notation, children, 0, f)?;
    match selection {
        FieldSelection::Include(names) => {
            f.write_str("{")?;
            notation.write_names(names.as_slice(), f)?;
            f.write_str("}")
        }
        FieldSelection::Exclude(names) => {
            f.write_str("{~ ")?;
            notation.write_names(names.as_slice(), f)?;
            f.write_str("}")
        }
    }
}

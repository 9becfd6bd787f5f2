// Expressions as source text.
ghost use Rattle.std.specs.Prelude.{◌≡◌, Some};
ghost use Rattle.std.specs.Fmt.{WritesOnOk};
ghost use Rattle.vx_value.specs.Views.{type_of};
ghost use Rattle.vx_fn.specs.Texts.{with_commas};
ghost use Rattle.vx_fn.specs.Views.{function_of};
ghost use Rattle.vx_tree.specs.Notations.{name_in, names_in, literal_in, type_in, opening_in, is_shown_in};
ghost use Rattle.vx_source_writer.specs.SourceTexts.{source, source_words};

use crate::options::write_options;
use std::fmt;
use std::fmt::{Display, Formatter, Write};
use vx_source_types::{write_name, write_names, write_scalar, write_type};
use vx_tree::{DType, FieldName, Notation, Scalar, ScalarFnRef, TreeNode, write_tree};

/// An expression, or a bound tree without its types, as source text, from which it is read back: its SQL text with the
/// types of literals that aren't plain, names that are no words between backquotes, and the options of a node that has
/// another number of children than it takes. It takes no memory.
#[derive(Drop)]
pub struct SourceText<'a, T>(pub &'a T);

impl<T: TreeNode> Display for SourceText<'_, T> {
    ghost output = { λ text. Some (source (T.tree text.0.now)) };

    fn fmt<W: Write>(&self, f: &mut Formatter<W>) -> fmt::Result {
        write_source(self.0, f)
    }
}

// Writes the source text of the tree.
fn write_source<T: TreeNode, W: Write>(node: &T, f: &mut Formatter<W>) -> fmt::Result
    ensures { WritesOnOk W.write_str_gives f.old result (source (T.tree node.now)) f.new }
{
    write_tree(&Source, node, f)
}

// Names, literals and types as they are read back, and the options of a function where its node
// doesn't show them.
struct Source;

impl Notation for Source {
    ghost words = { source_words };

    fn write_name<W: Write>(&self, name: &FieldName, f: &mut Formatter<W>) -> fmt::Result {
        write_name(name, f)
    }

    fn write_names<W: Write>(&self, names: &[FieldName], f: &mut Formatter<W>) -> fmt::Result {
        write_names(names, f)
    }

    fn write_scalar<W: Write>(&self, scalar: &Scalar, f: &mut Formatter<W>) -> fmt::Result {
        write_scalar(scalar, f)
    }

    fn write_type<W: Write>(&self, t: &DType, f: &mut Formatter<W>) -> fmt::Result {
        write_type(t, f)
    }

    // A CASE without a pair doesn't show what it is.
    fn is_shown(&self, scalar_fn: &ScalarFnRef) -> bool {
        match scalar_fn {
            ScalarFnRef::CaseWhen(options) => options.num_when_then_pairs != 0,
            _ => true,
        }
    }

    fn write_opening<W: Write>(
        &self,
        scalar_fn: &ScalarFnRef,
        f: &mut Formatter<W>,
    ) -> fmt::Result {
        f.write_str("[")?;
        write_options(scalar_fn, f)?;
        f.write_str("](")
    }
}

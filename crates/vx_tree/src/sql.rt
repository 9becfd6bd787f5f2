// The SQL text of a tree of either kind.
ghost use Rattle.std.specs.Prelude.{◌≡◌};
ghost use Rattle.std.specs.Fmt.{WritesOnOk};
ghost use Rattle.vx_value.specs.Views.{type_of};
ghost use Rattle.vx_fn.specs.Texts.{with_commas};
ghost use Rattle.vx_fn.specs.Views.{function_of};
ghost use Rattle.vx_tree.specs.Notations.{sql_words, name_in, names_in, literal_in, type_in, opening_in, is_shown_in};
ghost use Rattle.vx_tree.specs.Texts.{sql};

use crate::TreeNode;
use crate::notation::{Notation, write_tree};
use std::fmt;
use std::fmt::{Display, Formatter, Write};
use vx_dtype::{DType, FieldName};
use vx_fn::{ScalarFnRef, write_names};
use vx_value::Scalar;

// Writes the SQL text of the tree.
pub(crate) fn fmt_sql<T: TreeNode, W: Write>(node: &T, f: &mut Formatter<W>) -> fmt::Result
    ensures { WritesOnOk W.write_str_gives f.old result (sql (T.tree node.now)) f.new }
{
    write_tree(&Sql, node, f)
}

// Names, literals and types as they are shown, and a call for any node with a wrong number of
// children.
struct Sql;

impl Notation for Sql {
    ghost words = { sql_words };

    fn write_name<W: Write>(&self, name: &FieldName, f: &mut Formatter<W>) -> fmt::Result {
        name.fmt(f)
    }

    fn write_names<W: Write>(&self, names: &[FieldName], f: &mut Formatter<W>) -> fmt::Result {
        write_names(names, f)
    }

    fn write_scalar<W: Write>(&self, scalar: &Scalar, f: &mut Formatter<W>) -> fmt::Result {
        scalar.fmt(f)
    }

    fn write_type<W: Write>(&self, t: &DType, f: &mut Formatter<W>) -> fmt::Result {
        t.fmt(f)
    }

    fn is_shown(&self, _scalar_fn: &ScalarFnRef) -> bool {
        true
    }

    fn write_opening<W: Write>(
        &self,
        _scalar_fn: &ScalarFnRef,
        f: &mut Formatter<W>,
    ) -> fmt::Result {
        f.write_str("(")
    }
}

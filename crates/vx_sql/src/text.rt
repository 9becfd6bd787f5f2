// The SQL texts of bound trees.
ghost use Rattle.std.specs.Prelude.{◌≡◌, ◌<◌, Some, length, get_or, []};
ghost use Rattle.std.specs.Fmt.{WritesOnOk};
ghost use Rattle.vx_fn.specs.Functions.{arity_of};
ghost use Rattle.vx_fn.specs.Views.{function_of};
ghost use Rattle.vx_value.specs.Views.{type_of};
ghost use Rattle.vx_tree.specs.Views.{bound_of};
ghost use Rattle.vx_sql.specs.SqlTexts.{sql, sqls_in, trees_in, own_sql};

mod choices;
mod lists;
mod operators;
mod structs;
mod tests;
mod texts;

use crate::Dialect;
use crate::literals::write_literal;
use choices::{write_case, write_fill, write_mask, write_zip};
use lists::write_membership;
use operators::{write_between, write_binary, write_not};
use std::fmt;
use std::fmt::{Display, Formatter, Write};
use structs::{write_item, write_pack};
use tests::{write_like, write_null_test};
use texts::{write_beginning, write_length};
use vx_dtype::DType;
use vx_fn::ScalarFnRef;
use vx_tree::BoundExpression;

/// The SQL text of a tree in which each node has one.
#[derive(Clone, Copy)]
pub(crate) struct SqlText<'a>(pub &'a BoundExpression, pub Dialect);

impl Display for SqlText<'_> {
    ghost output = { λ t. Some (sql t.1 (bound_of t.0.now)) };

    fn fmt<W: Write>(&self, f: &mut Formatter<W>) -> fmt::Result {
        write_sql(self.0, self.1, f)
    }
}

/// The children of a node, whose texts the engine's text of the node is made of.
#[derive(Clone, Copy)]
struct Children<'a> {
    dialect: Dialect,
    nodes: &'a [BoundExpression],
}

// The text of a node; none of one with another number of children than its function takes.
#[cycle(text)]
fn write_sql<W: Write>(b: &BoundExpression, dialect: Dialect, f: &mut Formatter<W>) -> fmt::Result
    ensures { WritesOnOk W.write_str_gives f.old result (sql dialect (bound_of b.now)) f.new }
{
    match b {
        BoundExpression::Scalar {
            dtype,
            scalar_fn,
            children,
        } => {
            let nodes = children.as_slice();
            if nodes.len() == scalar_fn.arity() {
                write_own(dtype, scalar_fn, Children { dialect, nodes }, f)
            } else {
                Ok(())
            }
        }
        BoundExpression::Root { .. } => Ok(()),
    }
}

// The text of a node that has its number of children.
#[cycle(text)]
fn write_own<W: Write>(
    dtype: &DType,
    scalar_fn: &ScalarFnRef,
    children: Children,
    f: &mut Formatter<W>,
) -> fmt::Result
    requires { length children.nodes.now ≡ arity_of (function_of scalar_fn.now) }
    ensures { WritesOnOk W.write_str_gives f.old result
        (own_sql children.entry.dialect (type_of dtype.now) (function_of scalar_fn.now) (trees_in children.entry) (sqls_in children.entry)) f.new }
{
    match scalar_fn {
        ScalarFnRef::CaseWhen(_) => write_case(children, f),
        ScalarFnRef::GetItem(name) => write_item(name, children, f),
        ScalarFnRef::Literal(scalar) => write_literal(children.dialect, scalar, f),
        ScalarFnRef::Pack(options) => write_pack(options.names.as_slice(), children, f),
        ScalarFnRef::Select(_) => Ok(()),
        ScalarFnRef::FillNull(_) => write_fill(children, f),
        ScalarFnRef::Zip(_) => write_zip(children, f),
        ScalarFnRef::Binary(operator) => write_binary(dtype, *operator, children, f),
        ScalarFnRef::Not(_) => write_not(children, f),
        ScalarFnRef::Between(options) => write_between(*options, children, f),
        ScalarFnRef::Like(options) => write_like(*options, children, f),
        ScalarFnRef::IsNull(_) => write_null_test(true, children, f),
        ScalarFnRef::IsNotNull(_) => write_null_test(false, children, f),
        ScalarFnRef::Mask(_) => write_mask(children, f),
        ScalarFnRef::Cast(_) => write_child(children, 0, f),
        ScalarFnRef::StartsWith(_) => write_beginning(children, f),
        ScalarFnRef::ByteLength(_) => write_length(children, f),
        ScalarFnRef::ListContains(_) => write_membership(dtype, children, f),
    }
}

// The text of one of the children.
#[cycle(text)]
fn write_child<W: Write>(children: Children, index: usize, f: &mut Formatter<W>) -> fmt::Result
    requires { index < length children.nodes.now }
    ensures { WritesOnOk W.write_str_gives f.old result (get_or (sqls_in children.entry) index []) f.new }
{
    write_sql(&children.nodes[index], children.dialect, f)
}

// The page of `dot`.
ghost use Rattle.std.specs.Prelude.{IfErr};
ghost use Rattle.vx_command_pages.specs.Inputs.{IsCommandError};

use crate::error::CommandError;
use crate::input::{bind, read_query};
use std::alloc::{AllocError, Global};
use vx_source::TypeText;
use vx_tree::{BoundExpression, ChildName};

/// The typed tree as a graph in Graphviz's language: a line for each node, which shows its function
/// and its type, and one for each edge, with the name of the child. Fails as
/// [`type_page`](crate::types::type_page) does.
pub fn graph_page(alloc: Global, expression: &str, schema: &str) -> Result<String, CommandError>
    ensures { IfErr result (λ c. IsCommandError expression.now schema.now c) }
{
    let query = read_query(alloc, expression, schema)?;
    let bound = bind(alloc, &query.placed, &query.scope)?;
    Ok(graph(alloc, &bound)?)
}

// The graph of the tree.
fn graph(alloc: Global, tree: &BoundExpression) -> Result<String, AllocError> {
    let mut page = String::from_str(alloc, "digraph expression {\n  node [shape=box];\n")?;
    let mut next = 1;
    push_nodes(alloc, tree, 0, &mut next, &mut page)?;
    page.push_str("}\n")?;
    Ok(page)
}

// Adds the node of that number, and those below it, which are numbered from the next number on.
fn push_nodes(
    alloc: Global,
    node: &BoundExpression,
    number: u64,
    next: &mut u64,
    page: &mut String,
) -> Result<(), AllocError> {
    push_node(alloc, node, number, page)?;
    let BoundExpression::Scalar {
        scalar_fn,
        children,
        ..
    } = node
    else {
        return Ok(());
    };
    for (index, child) in children.iter().enumerate() {
        let below = *next;
        *next = below.saturating_add(1);
        push_nodes(alloc, child, below, next, page)?;
        let name = ChildName { scalar_fn, index };
        push_edge(alloc, name, number, below, page)?;
    }
    Ok(())
}

// Adds the line of a node.
fn push_node(
    alloc: Global,
    node: &BoundExpression,
    number: u64,
    page: &mut String,
) -> Result<(), AllocError> {
    let function = match node.as_scalar() {
        Some(scalar_fn) => scalar_fn.to_string(alloc)?,
        None => String::from_str(alloc, "vortex.root()")?,
    };
    let dtype = TypeText(node.dtype()).to_string(alloc)?;
    page.push_str(format!(in alloc; "  n{number} [label=\"")?.as_str())?;
    push_quoted(alloc, function.as_str(), page)?;
    page.push_str("\\n")?;
    push_quoted(alloc, dtype.as_str(), page)?;
    page.push_str("\"];\n")
}

// Adds the line of an edge, which has the name of the child.
fn push_edge(
    alloc: Global,
    name: ChildName<'_>,
    above: u64,
    below: u64,
    page: &mut String,
) -> Result<(), AllocError> {
    let name = name.to_string(alloc)?;
    page.push_str(format!(in alloc; "  n{above} -> n{below} [label=\"")?.as_str())?;
    push_quoted(alloc, name.as_str(), page)?;
    page.push_str("\"];\n")
}

// Adds what is to stand between double quotes in a label, where an ampersand begins the name of a
// character, as in HTML. Control characters but ends of lines are shown escaped.
fn push_quoted(alloc: Global, text: &str, page: &mut String) -> Result<(), AllocError> {
    for c in text.chars() {
        match c {
            '"' => page.push_str("\\\"")?,
            '\\' => page.push_str("\\\\")?,
            '&' => page.push_str("&amp;")?,
            '\n' => page.push_str("\\n")?,
            _ if c.is_control() => {
                page.push_str(format!(in alloc; "\\{}", c.escape_default())?.as_str())?;
            }
            _ => page.push(c)?,
        }
    }
    Ok(())
}

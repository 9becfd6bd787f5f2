// What the program is asked for, and its page.
ghost use Rattle.std.specs.Prelude.{IfOk, IfErr, string_bytes};
ghost use Rattle.vx_commands.specs.Commands.{IsPage, IsCommandErrorAt};

use std::alloc::Global;
use vx_command_pages::{
    CommandError, Input, Message, explanation_page, graph_page, plan_page, source_page, type_page,
};

/// An expression, and the type of the rows that it is over.
#[derive(Clone, Copy, Debug)]
pub struct Query<'a> {
    /// The expression.
    pub expression: Input<'a>,
    /// The type.
    pub schema: Input<'a>,
}

/// What the program is asked for.
#[derive(Clone, Copy, Debug)]
pub enum Command<'a> {
    /// The type of an expression.
    Check(Query<'a>),
    /// What becomes of an expression.
    Explain(Query<'a>),
    /// The source text of an expression.
    Format(Input<'a>),
    /// The plan of an expression, as JSON.
    Plan(Query<'a>),
    /// The typed tree of an expression, in Graphviz's language.
    Graph(Query<'a>),
}

impl<'a> Command<'a> {
    /// The error as a message about the texts of the command.
    pub fn message<'m>(&self, error: &'m CommandError) -> Message<'m>
    where
        'a: 'm,
    {
        let (expression, schema) = match *self {
            Command::Check(query)
            | Command::Explain(query)
            | Command::Plan(query)
            | Command::Graph(query) => (query.expression, query.schema),
            Command::Format(expression) => (expression, expression),
        };
        Message {
            error,
            expression,
            schema,
        }
    }
}

/// What the command prints, or why it prints nothing.
pub fn page_of(alloc: Global, command: &Command<'_>) -> Result<String, CommandError>
    ensures prints { IfOk result (λ page. IsPage command.now (string_bytes page)) }
    ensures error { IfErr result (λ c. IsCommandErrorAt command.now c) }
{
    match command {
        Command::Check(query) => type_page(alloc, query.expression.text, query.schema.text),
        Command::Explain(query) => {
            explanation_page(alloc, query.expression.text, query.schema.text)
        }
        Command::Format(expression) => source_page(alloc, expression.text),
        Command::Plan(query) => plan_page(alloc, query.expression.text, query.schema.text),
        Command::Graph(query) => graph_page(alloc, query.expression.text, query.schema.text),
    }
}

// A run of the program that writes a plan as SQL.
ghost use Rattle.std.specs.Prelude.{IfOk, IfErr, string_bytes};
ghost use Rattle.vx_commands.specs.SqlRuns.{IsSqlText, IsSqlErrorAt, EndsAtSqlError, EndsAsSql};

use crate::command::Query;
use crate::run::{print, tell_message};
use std::alloc::Global;
use std::io::Write;
use vx_command_pages::{
    Message, Shown, SqlError, SqlQuery, Status, sql_explanation_page, sql_page,
};
use vx_sql::Dialect;

/// What is told of a plan that is written as SQL.
#[derive(Clone, Copy, Debug, PartialEq, Eq)]
pub enum SqlTask {
    /// The statement, and what is left of the plan's tree.
    Plan,
    /// What becomes of the expression, the statement, and of each conjunct whether the engine takes it.
    Explain,
}

/// A query whose plan is written as SQL.
#[derive(Clone, Copy, Debug)]
pub struct SqlCommand<'a> {
    /// What is told of it.
    pub work: SqlTask,
    /// The expression, and the type of the table's rows.
    pub query: Query<'a>,
    /// The engine.
    pub dialect: Dialect,
    /// The table's name.
    pub table: &'a str,
}

/// Runs the command: its page is written on `out`, or an error as a message on `err`, and
/// the other writer is left as it was. All of a page is made before the first of it is written. The
/// status is `Done` for a page; `Wrong` for a text that can't be read, an expression that is refused, and
/// a plan that has no statement; and `Failed` where memory or a writer fails.
pub fn run_sql<W: Write, E: Write>(
    alloc: Global,
    command: &SqlCommand<'_>,
    out: &mut W,
    err: &mut E,
) -> Status
    ensures { EndsAsSql command.now (W.contents out.old) (W.contents out.new) (E.contents err.old) (E.contents err.new) result }
{
    match page_of(alloc, command) {
        Ok(page) => print(page.as_str(), out),
        Err(error) => tell_error(alloc, command, &error, err),
    }
}

// What the command prints, or why it prints nothing.
fn page_of(alloc: Global, command: &SqlCommand<'_>) -> Result<String, SqlError>
    ensures prints { IfOk result (λ page. IsSqlText command.now.work command.now (string_bytes page)) }
    ensures error { IfErr result (λ c. IsSqlErrorAt command.now c) }
{
    let query = SqlQuery {
        expression: command.query.expression.text,
        schema: command.query.schema.text,
        dialect: command.dialect,
        table: command.table,
    };
    match command.work {
        SqlTask::Plan => sql_page(alloc, &query),
        SqlTask::Explain => sql_explanation_page(alloc, &query),
    }
}

// Writes the error as a message.
fn tell_error<E: Write>(
    alloc: Global,
    command: &SqlCommand<'_>,
    error: &SqlError,
    err: &mut E,
) -> Status
    ensures { EndsAtSqlError error.now result }
{
    let wanted = error.status();
    match error {
        SqlError::Query(error) => {
            let message = Message {
                error,
                expression: command.query.expression,
                schema: command.query.schema,
            };
            tell_message(alloc, &message, wanted, err)
        }
        SqlError::Statement(refusal) => {
            tell_message(
                alloc,
                &format_args!("error: {}", Shown(refusal)),
                wanted,
                err,
            )
        }
    }
}

// Plans as SQL.
ghost use Rattle.std.specs.Prelude.{◌≡◌, IfOk, IfErr, option_map, string_bytes};
ghost use Rattle.vx_value.specs.Views.{type_of};
ghost use Rattle.vx_tree.specs.Views.{tree_of};
ghost use Rattle.vx_sql_plan.specs.Pushdown.{tree_in};
ghost use Rattle.vx_command_pages.specs.declared.error.CommandError.TheVariants.{OutOfMemory};
ghost use Rattle.vx_command_pages.specs.Inputs.{ReadsAs, ReadsType};
ghost use Rattle.vx_command_pages.specs.declared.sql.SqlError.TheVariants.{Query, Statement};
ghost use Rattle.vx_command_pages.specs.SqlPages.{lines_of, IsSqlPage, IsSqlError};

use crate::conjuncts::joins_conjuncts;
use crate::error::{CommandError, Status};
use crate::explanation::explanation;
use crate::input::{ReadQuery, read_query};
use crate::planned::plan_of;
use crate::sources::source_text;
use std::alloc::{AllocError, Global};
use vx_scan::ScanPlan;
use vx_sql::{Dialect, first_unsupported};
use vx_sql_plan::{NoStatement, SqlPlan, sql_plan};
use vx_tree::{BoundExpression, DType, ScalarFnRef};

/// What is written as SQL.
#[derive(Clone, Copy, Debug)]
pub struct SqlQuery<'a> {
    /// The text of the expression.
    pub expression: &'a str,
    /// The schema, which says the type of the table's rows.
    pub schema: &'a str,
    /// The engine.
    pub dialect: Dialect,
    /// The table's name.
    pub table: &'a str,
}

/// Why a command prints no SQL.
#[derive(Debug, Drop)]
pub enum SqlError {
    /// The expression or the schema isn't read, or the expression is refused, or memory ran out.
    Query(CommandError),
    /// The plan has no statement.
    Statement(NoStatement),
}

impl SqlError {
    ghost use Rattle.vx_command_pages.specs.SqlPages.{sql_status_of};

    /// How a command ends that stops with it.
    pub fn status(&self) -> Status
        ensures { result ≡ sql_status_of self.now }
    {
        match self {
            SqlError::Query(error) => error.status(),
            SqlError::Statement(refusal) => match refusal {
                NoStatement::OutOfMemory => Status::Failed,
                NoStatement::NoColumns | NoStatement::Table(_) | NoStatement::Column(..) => {
                    Status::Wrong
                }
            },
        }
    }
}

impl From<CommandError> for SqlError {
    ghost from_gives = { λ c e. e ≡ Query c };

    fn from(c: CommandError) -> SqlError {
        SqlError::Query(c)
    }
}

impl From<NoStatement> for SqlError {
    ghost from_gives = { λ refusal e. e ≡ Statement refusal };

    fn from(refusal: NoStatement) -> SqlError {
        SqlError::Statement(refusal)
    }
}

impl From<AllocError> for SqlError {
    ghost from_gives = { λ _ e. e ≡ Query OutOfMemory };

    fn from(_e: AllocError) -> SqlError {
        SqlError::Query(CommandError::OutOfMemory)
    }
}

// What was read of a query, its plan, and the plan's statement.
#[derive(Drop)]
struct Written {
    read: ReadQuery,
    plan: Box<ScanPlan>,
    sql: SqlPlan,
}

// The query that the texts say, its plan by the folding rules, and the plan's statement.
fn plan_written(alloc: Global, query: &SqlQuery<'_>) -> Result<Written, SqlError>
    ensures read { IfOk result (λ w. ReadsAs query.now.expression.now (type_of w.read.scope.value) (tree_of w.read.placed.value.expression)) }
    ensures scope { IfOk result (λ w. ReadsType query.now.schema.now (type_of w.read.scope.value)) }
    ensures lines { IfOk result (λ w. IsSqlPage query.now.expression.now query.now.schema.now query.now.dialect query.now.table.now (lines_of (string_bytes w.sql.statement) (option_map tree_in w.sql.residual))) }
    ensures error { IfErr result (λ c. IsSqlError query.now.expression.now query.now.schema.now query.now.dialect query.now.table.now c) }
{
    let read = read_query(alloc, query.expression, query.schema)?;
    let plan = plan_of(alloc, &read.placed, &read.scope)?;
    let sql = sql_plan(alloc, plan.tree(), plan.scope(), query.table, query.dialect)?;
    Ok(Written { read, plan, sql })
}

/// The plan of the expression over rows of the schema's type, by the folding rules, as a statement for the
/// engine over the table of that name, and behind it, on a line of its own, what is left of the plan's
/// tree as source text, if something is. Fails as [`plan_page`](crate::planned::plan_page) does, and then at
/// what stands in the way of a statement.
pub fn sql_page(alloc: Global, query: &SqlQuery<'_>) -> Result<String, SqlError>
    ensures prints { IfOk result (λ page. IsSqlPage query.now.expression.now query.now.schema.now query.now.dialect query.now.table.now (string_bytes page)) }
    ensures error { IfErr result (λ c. IsSqlError query.now.expression.now query.now.schema.now query.now.dialect query.now.table.now c) }
{
    let written = plan_written(alloc, query)?;
    Ok(lines_of(alloc, &written.sql)?)
}

// The statement on a line, and what is left of the tree, if something is, on another.
fn lines_of(alloc: Global, sql: &SqlPlan) -> Result<String, AllocError>
    ensures { IfOk result (λ page. string_bytes page ≡ lines_of (string_bytes sql.now.statement) (option_map tree_in sql.now.residual)) }
{
    let mut page = format!(in alloc; "{}\n", sql.statement)?;
    if let Some(residual) = &sql.residual {
        let residual = source_text(alloc, residual)?;
        let line = format!(in alloc; "residual: {residual}\n")?;
        page.push_str(line.as_str())?;
    }
    Ok(page)
}

/// What becomes of the expression, as [`explanation_page`](crate::explanation::explanation_page) tells it, and behind it
/// the statement of its plan, and of each conjunct whether the engine takes it, or why it is left.
/// Fails as [`sql_page`] does.
#[tactic(auto, using(crate::proofs::Told::told))]
pub fn sql_explanation_page(alloc: Global, query: &SqlQuery<'_>) -> Result<String, SqlError>
    ensures { IfErr result (λ c. IsSqlError query.now.expression.now query.now.schema.now query.now.dialect query.now.table.now c) }
{
    let written = plan_written(alloc, query)?;
    let read = &written.read;
    let mut page = explanation(alloc, &read.placed, &read.scope, &written.plan)?;
    push_statement(alloc, &written.sql, &mut page)?;
    push_conjuncts(alloc, written.plan.tree(), query.dialect, &mut page)?;
    Ok(page)
}

// Adds the line of the statement.
fn push_statement(alloc: Global, sql: &SqlPlan, page: &mut String) -> Result<(), AllocError> {
    let statement = sql.statement.as_str();
    page.push_str(format!(in alloc; "sql: {statement}\n")?.as_str())
}

// Adds a line for each conjunct, from left to right.
#[cycle(conjuncts)]
fn push_conjuncts(
    alloc: Global,
    tree: &BoundExpression,
    dialect: Dialect,
    page: &mut String,
) -> Result<(), AllocError> {
    let BoundExpression::Scalar {
        scalar_fn,
        children,
        ..
    } = tree
    else {
        return push_conjunct(alloc, tree, dialect, page);
    };
    match (scalar_fn, children.as_slice()) {
        (ScalarFnRef::Binary(operator), [left, right]) if joins_conjuncts(*operator) => {
            push_conjuncts(alloc, left, dialect, page)?;
            push_conjuncts(alloc, right, dialect, page)
        }
        _ => push_conjunct(alloc, tree, dialect, page),
    }
}

fn push_conjunct(
    alloc: Global,
    tree: &BoundExpression,
    dialect: Dialect,
    page: &mut String,
) -> Result<(), AllocError> {
    let text = source_text(alloc, tree)?;
    let line = match first_unsupported(alloc, tree, dialect)? {
        Some(why) => format!(in alloc; "residual: {text}: {why}\n")?,
        None if is_truth(tree.dtype()) => format!(in alloc; "pushed: {text}\n")?,
        None => format!(in alloc; "residual: {text}: it is no truth value\n")?,
    };
    page.push_str(line.as_str())
}

fn is_truth(dtype: &DType) -> bool {
    matches!(dtype, DType::Bool(_))
}

// The plan of a tree as SQL.
ghost use Rattle.std.specs.Prelude.{◌≡◌, None, IfOk, MatchResult, map, option_map, string_bytes};
ghost use Rattle.vx_value.specs.Views.{type_of};
ghost use Rattle.vx_tree.specs.Trees.{WellTyped};
ghost use Rattle.vx_tree.specs.Views.{bound_of};
ghost use Rattle.vx_sql.specs.Children.{is_struct, names_in};
ghost use Rattle.vx_sql.specs.Quotes.{name_sql};
ghost use Rattle.vx_rewrite_fusing.specs.Conjuncts.{tree_in};
ghost use Rattle.vx_sql_plan.specs.Pushdown.{residual};
ghost use Rattle.vx_sql_plan.specs.Statements.{columns_read, columns_text, where_text, select_text, statement, column_refusal, statement_refusal, IsRefusalOf};

use crate::columns::column_texts;
use crate::{NoStatement, Pushdown, push_down};
use std::alloc::{AllocError, Global};
use vx_rewrite_paths::referenced_field_paths;
use vx_sql::{Dialect, SqlName, column_names, spelling_reason};
use vx_tree::{BoundExpression, DType};

/// A tree as a statement for an engine, and what is left to evaluate over the rows that it gives.
#[derive(Drop)]
pub struct SqlPlan {
    /// The `SELECT` of the columns that the tree reads, from the rows of the table of which each pushed
    /// conjunct is true.
    pub statement: String,
    /// What is left of the tree, none where the engine takes all of it.
    pub residual: Option<Box<BoundExpression>>,
}

/// The statement that gives what the tree reads, over the rows of a table of that type, and what is left
/// of the tree. Asks a well-typed tree.
///
/// The columns are selected in the type's order; where none is read the statement gives a constant for
/// each row. A tree that is no truth value is left as it is, and the statement gives all rows.
///
/// Refuses with `NoColumns` where the rows are no structs; with `Table` where the table's name can't be
/// written; with `Column` for the first column that is read and whose name can't be; and with
/// `OutOfMemory`. Each of the type's names is looked for among the paths that the tree reads, and each
/// that is found compared with all others.
pub fn sql_plan(
    alloc: Global,
    tree: &BoundExpression,
    scope: &DType,
    table: &str,
    dialect: Dialect,
) -> Result<SqlPlan, NoStatement>
    requires { WellTyped (bound_of tree.now) }
    ensures { MatchResult result
        (λ p. (statement_refusal dialect (type_of scope.now) (bound_of tree.now) table.now ≡ None)
        × (string_bytes p.statement ≡ statement dialect (type_of scope.now) (bound_of tree.now) table.now)
        × (option_map tree_in p.residual ≡ residual dialect (bound_of tree.now)))
        (IsRefusalOf (statement_refusal dialect (type_of scope.now) (bound_of tree.now) table.now)) }
{
    if !is_struct(scope) {
        return Err(NoStatement::NoColumns);
    }
    if let Some(reason) = spelling_reason(dialect, table) {
        return Err(NoStatement::Table(reason));
    }
    let columns = columns_of(alloc, tree, scope, dialect)?;
    let Pushdown { pushed, residual } = push_down(alloc, tree, dialect)?;
    let statement = select(alloc, dialect, table, columns.as_slice(), pushed.as_slice())?;
    Ok(SqlPlan {
        statement,
        residual,
    })
}

fn is_struct(dtype: &DType) -> bool
    ensures { result ≡ is_struct (type_of dtype.now) }
{
    matches!(dtype, DType::Struct(..))
}

// The texts of the columns that the tree reads.
fn columns_of(
    alloc: Global,
    tree: &BoundExpression,
    scope: &DType,
    dialect: Dialect,
) -> Result<Vec<String>, NoStatement>
    requires { WellTyped (bound_of tree.now) }
    ensures { let columns = columns_read (type_of scope.now) (bound_of tree.now) in
        MatchResult result
        (λ texts. (column_refusal dialect (names_in (type_of scope.now)) columns ≡ None) × (map string_bytes texts.items ≡ map (name_sql dialect) columns))
        (IsRefusalOf (column_refusal dialect (names_in (type_of scope.now)) columns)) }
{
    match referenced_field_paths(alloc, tree) {
        Ok(paths) => column_texts(alloc, dialect, column_names(scope), &paths),
        Err(_) => Err(NoStatement::OutOfMemory),
    }
}

// The statement over texts of columns and conditions.
fn select(
    alloc: Global,
    dialect: Dialect,
    table: &str,
    columns: &[String],
    conditions: &[String],
) -> Result<String, AllocError>
    ensures { IfOk result (λ text. string_bytes text ≡ select_text (map string_bytes columns.now) (name_sql dialect table.now) (map string_bytes conditions.now)) }
{
    let columns = columns_text(alloc, columns)?;
    let condition = where_text(alloc, conditions)?;
    let table = SqlName(table, dialect);
    format!(in alloc; "SELECT {columns} FROM {table}{condition}")
}

// The columns with commas between them. Where there is none it is a constant, since a SELECT has to give
// something.
fn columns_text(alloc: Global, columns: &[String]) -> Result<String, AllocError>
    ensures { IfOk result (λ text. string_bytes text ≡ columns_text (map string_bytes columns.now)) }
{
    if columns.is_empty() {
        String::from_str(alloc, "1")
    } else {
        columns.join(alloc, ", ")
    }
}

// The conditions that all have to be true, if there are any.
fn where_text(alloc: Global, conditions: &[String]) -> Result<String, AllocError>
    ensures { IfOk result (λ text. string_bytes text ≡ where_text (map string_bytes conditions.now)) }
{
    if conditions.is_empty() {
        return Ok(String::new(alloc));
    }
    let condition = conditions.join(alloc, " AND ")?;
    format!(in alloc; " WHERE {condition}")
}

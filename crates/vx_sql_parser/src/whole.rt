// Whole texts of SQL.
ghost use Rattle.std.specs.Prelude.{◌≡◌, IfErr, IfOk, Ok, string_bytes};
ghost use Rattle.vx_value.specs.Views.{type_of};
ghost use Rattle.vx_tree.specs.Trees.{Tree};
ghost use Rattle.vx_tree.specs.Views.{tree_of};
ghost use Rattle.vx_sql_parser.specs.Rules.{sql_source};
ghost use Rattle.vx_sql_parser.specs.Reading.{GivesSql, IsPlacedIn, IsUnread, ReadsSql, ReadsSqlOver, RefusesSql, RefusesSqlOver};

use crate::error::SqlError;
use crate::places::{placed, unread};
use crate::source::{SqlSource, source_of};
use std::alloc::Global;
use vx_dtype::DType;
use vx_source_over::{OverError, parse_over};
use vx_source_parser::parse;
use vx_sql::Dialect;
use vx_tree::Expression;

/// The source text that the condition of a WHERE is read as, in the engine's own words, token by token; and of each piece the
/// token that it is written of.
///
/// Refuses with `SqlError::Unread` at the first token that isn't read, and with `OutOfMemory`. Time is linear in the text, but
/// for a column behind `case`, whose name is written behind each `when`.
pub fn sql_source(alloc: Global, text: &str, dialect: Dialect) -> Result<SqlSource, SqlError>
    ensures source { IfOk result (λ s. sql_source dialect text.now ≡ Ok (string_bytes s.text)) }
    ensures refuses { IfErr result (IsUnread dialect text.now) }
    ensures placed { IfErr result (IsPlacedIn text.now) }
{
    match source_of(alloc, dialect, text) {
        Ok(source) => Ok(source),
        Err(refusal) => Err(unread(refusal, text)),
    }
}

/// The expression that the condition of a WHERE means, in the engine's own words: the one that its source text says
/// ([`sql_source`]).
///
/// Read are names, texts, whole numbers, bytes, days, instants, comparisons, `+`, `-`, `*`, `%`, the quotient of whole numbers,
/// `and`, `or`, `not`, `is [not]` before `null`, `true` and `false`, `[not] in`, `[not] between`, `[not] like` with an escape or
/// without, `ilike`, CASE over conditions or over a column, casts, and `coalesce` of a value and a literal. Words are made small
/// in PostgreSQL, and stay as they are elsewhere. Texts are compared by bytes. `like` ignores the case of ASCII letters in
/// SQLite; elsewhere `ilike` does, before a pattern of ASCII alone. A literal within a cast is of the cast's type.
///
/// Refuses as [`sql_source`], and with `SqlError::Source` where something else should stand. Time is that of both.
pub fn parse_sql(alloc: Global, text: &str, dialect: Dialect) -> Result<Expression, SqlError>
    ensures reads { IfOk result (λ e. ReadsSql dialect text.now (tree_of e)) }
    ensures refuses { IfErr result (RefusesSql dialect text.now) }
    ensures complete { (e : Tree) → ReadsSql dialect text.now e → GivesSql tree_of result e }
    ensures placed { IfErr result (IsPlacedIn text.now) }
{
    let source = sql_source(alloc, text, dialect)?;
    match parse(alloc, source.text.as_str()) {
        Ok(expression) => Ok(expression),
        Err(error) => Err(placed(OverError::from(error), &source, text)),
    }
}

/// The same over rows of that type, where each number, text or null without a type takes that of what it stands beside, as
/// `vx_source_over::over` says.
pub fn parse_sql_over(
    alloc: Global,
    text: &str,
    dialect: Dialect,
    scope: &DType,
) -> Result<Expression, SqlError>
    ensures reads { IfOk result (λ e. ReadsSqlOver dialect text.now (type_of scope.now) (tree_of e)) }
    ensures refuses { IfErr result (RefusesSqlOver dialect text.now (type_of scope.now)) }
    ensures complete { (e : Tree) → ReadsSqlOver dialect text.now (type_of scope.now) e → GivesSql tree_of result e }
    ensures placed { IfErr result (IsPlacedIn text.now) }
{
    let source = sql_source(alloc, text, dialect)?;
    match parse_over(alloc, source.text.as_str(), scope) {
        Ok(expression) => Ok(expression),
        Err(error) => Err(placed(error, &source, text)),
    }
}

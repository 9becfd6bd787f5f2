// The columns that a tree reads of its rows.
ghost use Rattle.std.specs.Prelude.{◌≡◌, ◌++◌, ◌∷◌, [], None, IfOk, MatchResult, filter, map, string_bytes};
ghost use Rattle.std.specs.List.{list_any};
ghost use Rattle.vx_value.specs.Paths.{minimal_paths, path_of};
ghost use Rattle.vx_sql.specs.Quotes.{name_sql};
ghost use Rattle.vx_sql_plan.specs.Statements.{leads_into, column_refusal, IsRefusalOf};

use crate::NoStatement;
use std::alloc::{AllocError, Global};
use vx_dtype::FieldName;
use vx_sql::{Dialect, SqlName, name_reason};
use vx_value::{Field, FieldPathSet};

/// The texts of those names, of all of a row, into whose columns a path leads. Refuses with the first
/// that can't be written.
pub(crate) fn column_texts<'a>(
    alloc: Global,
    dialect: Dialect,
    names: &'a [FieldName],
    paths: &'a FieldPathSet,
) -> Result<Vec<String>, NoStatement>
    ensures { let columns = filter (λ a. list_any (leads_into a) (minimal_paths paths.now)) names.now in
        MatchResult result (λ texts. (column_refusal dialect names.now columns ≡ None) × (map string_bytes texts.items ≡ map (name_sql dialect) columns))
        (IsRefusalOf (column_refusal dialect names.now columns)) }
{
    let columns = Columns {
        dialect,
        names,
        paths,
    };
    let mut texts = Vec::new(alloc);
    for i in 0..names.len() {
        columns.push_text(alloc, &names[i], &mut texts)?;
    }
    Ok(texts)
}

// The names of a row's columns, the paths that lead into some of them, and the engine that reads them.
#[derive(Clone, Copy)]
struct Columns<'a> {
    dialect: Dialect,
    names: &'a [FieldName],
    paths: &'a FieldPathSet,
}

impl Columns<'_> {
    // Puts the name's text behind the others, if a path leads into its column.
    fn push_text(
        &self,
        alloc: Global,
        name: &FieldName,
        texts: &mut Vec<String>,
    ) -> Result<(), NoStatement>
        ensures { let columns = filter (λ a. list_any (leads_into a) (minimal_paths self.now.paths.now)) (name.now ∷ []) in
            MatchResult result (λ _. (column_refusal self.now.dialect self.now.names.now columns ≡ None) × (map string_bytes texts.new.items ≡ map string_bytes texts.old.items ++ map (name_sql self.now.dialect) columns))
            (IsRefusalOf (column_refusal self.now.dialect self.now.names.now columns)) }
    {
        if !is_read(name, self.paths) {
            return Ok(());
        }
        if let Some(reason) = name_reason(self.dialect, self.names, name) {
            return Err(NoStatement::Column(name.clone()?, reason));
        }
        texts.push(name_text(alloc, self.dialect, name)?)?;
        Ok(())
    }
}

fn name_text(alloc: Global, dialect: Dialect, name: &FieldName) -> Result<String, AllocError>
    ensures { IfOk result (λ text. string_bytes text ≡ name_sql dialect name.now) }
{
    let name = SqlName(name.as_str(), dialect);
    format!(in alloc; "{name}")
}

// Whether a path leads into the column of that name.
fn is_read(name: &FieldName, paths: &FieldPathSet) -> bool
    ensures { result ≡ list_any (leads_into name.now) (minimal_paths paths.now) }
{
    paths.iter().any(|path| leads_into(name, path.parts()))
}

fn leads_into(name: &FieldName, path: &[Field]) -> bool
    ensures { result ≡ leads_into name.now (path_of path.now) }
{
    match path {
        [Field::Name(first), ..] => *first == *name,
        [] => true,
    }
}

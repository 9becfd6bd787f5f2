// The SQL text of a tree.
ghost use Rattle.std.specs.Prelude.{◌≡◌, ◌⊎◌, Ok, MatchResult, string_bytes};
ghost use Rattle.vx_tree.specs.Views.{bound_of};
ghost use Rattle.vx_sql.specs.Unsupported.{sql_text, IsRefusal};

use crate::text::SqlText;
use crate::walk::first_unsupported;
use crate::{Dialect, Unsupported};
use std::alloc::Global;
use vx_tree::BoundExpression;

/// The SQL text of the tree over the columns of its scope, or the first node that has none: the tree's
/// own, then the children's from left to right.
///
/// Where the source faults on no row, the engine gives its values on a table that has the columns that
/// docs/embed/ENGINES.md asks for, which also says which faults of the source are errors there.
///
/// Refuses with `Unsupported::Node` exactly where some node has no text, want of memory aside, and with
/// `Unsupported::OutOfMemory`.
pub fn to_sql(alloc: Global, b: &BoundExpression, dialect: Dialect) -> Result<String, Unsupported>
    ensures { MatchResult result (λ text. sql_text dialect (bound_of b.now) ≡ Ok (string_bytes text)) (IsRefusal (sql_text dialect (bound_of b.now))) }
{
    match first_unsupported(alloc, b, dialect)? {
        Some(unsupported) => Err(unsupported),
        None => {
            let text = SqlText(b, dialect);
            Ok(format!(in alloc; "{text}")?)
        }
    }
}

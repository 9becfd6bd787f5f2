// The page of `check`.
ghost use Rattle.std.specs.Prelude.{◌≡◌, IfOk, IfErr, Ok, string_bytes};
ghost use Rattle.vx_value.specs.Types.{LogicalType};
ghost use Rattle.vx_value.specs.Views.{type_of};
ghost use Rattle.vx_tree.specs.Trees.{typed};
ghost use Rattle.vx_tree.specs.Views.{tree_of};
ghost use Rattle.vx_source_types.specs.TypeTexts.{type_source};
ghost use Rattle.vx_command_pages.specs.Inputs.{IsCommandError, IsRefusal};
ghost use Rattle.vx_command_pages.specs.Spans.{IsRefusalAt};
ghost use Rattle.vx_command_pages.specs.Pages.{IsTypePage, line};

use crate::error::CommandError;
use crate::input::{bind, read_query};
use std::alloc::Global;
use vx_source::{Placed, TypeText};
use vx_tree::DType;

/// The type of the expression over rows of the schema's type, on one line. Fails at what can't be
/// read, at the expression first; else at the first refusal, with its place; and for want of memory.
pub fn type_page(alloc: Global, expression: &str, schema: &str) -> Result<String, CommandError>
    ensures prints { IfOk result (λ page. IsTypePage expression.now schema.now (string_bytes page)) }
    ensures error { IfErr result (λ c. IsCommandError expression.now schema.now c) }
{
    let query = read_query(alloc, expression, schema)?;
    type_line(alloc, &query.placed, &query.scope)
}

// The same of what was read.
fn type_line(alloc: Global, placed: &Placed, scope: &DType) -> Result<String, CommandError>
    ensures prints { IfOk result (λ page. (t : LogicalType) × (typed (tree_of placed.now.expression) (type_of scope.now) ≡ Ok t) × (string_bytes page ≡ line (type_source t))) }
    ensures error { IfErr result (λ c. IsRefusal (tree_of placed.now.expression) (type_of scope.now) c) }
    ensures place { IfErr result (λ c. IsRefusalAt placed.now (type_of scope.now) c) }
{
    let bound = bind(alloc, placed, scope)?;
    Ok(format!(in alloc; "{}\n", TypeText(bound.dtype()))?)
}

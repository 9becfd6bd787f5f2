// The page of `fmt`.
ghost use Rattle.std.specs.Prelude.{IfOk, IfErr, string_bytes};
ghost use Rattle.vx_command_pages.specs.Inputs.{IsUnread};
ghost use Rattle.vx_command_pages.specs.Pages.{IsSourcePage};

use crate::error::CommandError;
use crate::input::read_expression;
use std::alloc::Global;
use vx_source::SourceText;

/// The source text of the expression that the text says, on one line. Fails at what can't be
/// read, and for want of memory.
pub fn source_page(alloc: Global, expression: &str) -> Result<String, CommandError>
    ensures prints { IfOk result (λ page. IsSourcePage expression.now (string_bytes page)) }
    ensures error { IfErr result (λ c. IsUnread expression.now c) }
{
    let placed = read_expression(alloc, expression)?;
    Ok(format!(in alloc; "{}\n", SourceText(&placed.expression))?)
}

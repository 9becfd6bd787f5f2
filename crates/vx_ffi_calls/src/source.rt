// The call of `fmt`.
ghost use Rattle.std.specs.Prelude.{IfOk, IfErr, []};
ghost use Rattle.vx_command_pages.specs.Inputs.{IsUnread};
ghost use Rattle.vx_command_pages.specs.Pages.{IsSourcePage};
ghost use Rattle.vx_ffi_calls.specs.Endings.{EndsCall};
ghost use Rattle.vx_ffi_calls.specs.Stops.{Stops};

use crate::answer::{Answer, Status};
use crate::ending::ended;
use crate::stop::{CallError, stop_of};
use crate::text::{Given, read_text};
use std::alloc::Global;
use vx_command_pages::source_page;

/// Answers the source text of the expression, on one line. Stops at what can't be read, as
/// [`source_page`] fails.
pub fn answer_source(
    alloc: Global,
    expression: &[u8],
    buffer: &mut [u8],
    answer: &mut Answer,
) -> Status
    ensures { EndsCall (IsSourcePage expression.now) (Stops (IsUnread expression.now) expression.now []) buffer.old result buffer.new answer.new }
{
    ended(&formatted(alloc, expression), buffer, answer)
}

fn formatted(alloc: Global, expression: &[u8]) -> Result<Vec<u8>, CallError>
    ensures prints { IfOk result (λ page. IsSourcePage expression.now page.items) }
    ensures stop { IfErr result (Stops (IsUnread expression.now) expression.now []) }
{
    let text = read_text(alloc, Given::Expression, expression)?;
    match source_page(alloc, text) {
        Ok(page) => Ok(page.into_bytes()),
        Err(error) => Err(stop_of(alloc, &error, text, "")),
    }
}

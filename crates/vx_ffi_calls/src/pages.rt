// The calls that answer a page about an expression over rows.
ghost use Rattle.std.specs.Prelude.{IfOk, IfErr, string_bytes};
ghost use Rattle.vx_command_pages.specs.Inputs.{IsCommandError};
ghost use Rattle.vx_ffi_calls.specs.Endings.{EndsCall};
ghost use Rattle.vx_ffi_calls.specs.QueryPages.{IsPageOf};
ghost use Rattle.vx_ffi_calls.specs.Stops.{Stops};

use crate::answer::{Answer, Status};
use crate::ending::ended;
use crate::stop::{CallError, stop_of};
use crate::text::{Given, GivenQuery, read_text};
use std::alloc::Global;
use vx_command_pages::{CommandError, explanation_page, plan_page, type_page};

/// What a page tells of an expression over rows.
#[derive(Clone, Copy, Debug, PartialEq, Eq)]
pub enum Page {
    /// Its type, on one line: [`type_page`].
    Check,
    /// Its plan, as JSON on one line: [`plan_page`].
    Plan,
    /// What becomes of it, of which nothing is promised: [`explanation_page`].
    Explain,
}

/// Answers that page. Stops at what can't be read, and at the first refusal, as the page fails.
pub fn answer_page(
    alloc: Global,
    page: Page,
    query: &GivenQuery<'_>,
    buffer: &mut [u8],
    answer: &mut Answer,
) -> Status
    ensures { EndsCall (IsPageOf page query.now.expression.now query.now.schema.now) (Stops (IsCommandError query.now.expression.now query.now.schema.now) query.now.expression.now query.now.schema.now) buffer.old result buffer.new answer.new }
{
    ended(&made(alloc, page, query), buffer, answer)
}

fn made(alloc: Global, page: Page, query: &GivenQuery<'_>) -> Result<Vec<u8>, CallError>
    ensures prints { IfOk result (λ text. IsPageOf page query.now.expression.now query.now.schema.now text.items) }
    ensures stop { IfErr result (Stops (IsCommandError query.now.expression.now query.now.schema.now) query.now.expression.now query.now.schema.now) }
{
    let expression = read_text(alloc, Given::Expression, query.expression)?;
    let schema = read_text(alloc, Given::Schema, query.schema)?;
    match page_of(alloc, page, expression, schema) {
        Ok(text) => Ok(text.into_bytes()),
        Err(error) => Err(stop_of(alloc, &error, expression, schema)),
    }
}

fn page_of(
    alloc: Global,
    page: Page,
    expression: &str,
    schema: &str,
) -> Result<String, CommandError>
    ensures prints { IfOk result (λ text. IsPageOf page expression.now schema.now (string_bytes text)) }
    ensures error { IfErr result (IsCommandError expression.now schema.now) }
{
    match page {
        Page::Check => type_page(alloc, expression, schema),
        Page::Plan => plan_page(alloc, expression, schema),
        Page::Explain => explanation_page(alloc, expression, schema),
    }
}

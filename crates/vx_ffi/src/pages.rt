// Calls that need no plan.
ghost use Rattle.std.specs.Prelude.{◌≡◌, []};
ghost use Rattle.vx_command_pages.specs.Inputs.{IsCommandError, IsUnread};
ghost use Rattle.vx_command_pages.specs.Pages.{IsSourcePage, IsTypePage};
ghost use Rattle.vx_ffi_calls.specs.Endings.{EndsWith, version_line};
ghost use Rattle.vx_ffi_calls.specs.Stops.{IsExhausted, Stops};

use std::alloc::Global;
use vx_ffi_calls::{Answer, GivenQuery, Page, answer_page, answer_source, answer_version};

/// Answers the type of the expression over rows of the schema's type, on one line.
#[unsafe(no_mangle)]
pub extern "C" fn vx_check(
    alloc: Global,
    expression: &[u8],
    schema: &[u8],
    buffer: &mut [u8],
    answer: &mut Answer,
) -> u32
    ensures { EndsWith (IsTypePage expression.now schema.now) (Stops (IsCommandError expression.now schema.now) expression.now schema.now) buffer.old result buffer.new answer.new }
{
    let query = GivenQuery { expression, schema };
    answer_page(alloc, Page::Check, &query, buffer, answer).number()
}

/// Answers the source text of the expression, on one line.
#[unsafe(no_mangle)]
pub extern "C" fn vx_fmt(
    alloc: Global,
    expression: &[u8],
    buffer: &mut [u8],
    answer: &mut Answer,
) -> u32
    ensures { EndsWith (IsSourcePage expression.now) (Stops (IsUnread expression.now) expression.now []) buffer.old result buffer.new answer.new }
{
    answer_source(alloc, expression, buffer, answer).number()
}

/// Answers the version of the library, on a line.
#[unsafe(no_mangle)]
pub extern "C" fn vx_version(alloc: Global, buffer: &mut [u8], answer: &mut Answer) -> u32
    ensures { EndsWith (λ page. page ≡ version_line) IsExhausted buffer.old result buffer.new answer.new }
{
    answer_version(alloc, buffer, answer).number()
}

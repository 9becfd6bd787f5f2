// Calls that show plans.
ghost use Rattle.vx_command_pages.specs.Inputs.{IsCommandError};
ghost use Rattle.vx_command_pages.specs.PlanPages.{IsPlanPage};
ghost use Rattle.vx_ffi_calls.specs.Endings.{EndsWith};
ghost use Rattle.vx_ffi_calls.specs.Stops.{Stops};

use std::alloc::Global;
use vx_ffi_calls::{Answer, GivenQuery, Page, answer_page};

/// Answers what becomes of the expression over rows of the schema's type.
#[unsafe(no_mangle)]
pub extern "C" fn vx_explain(
    alloc: Global,
    expression: &[u8],
    schema: &[u8],
    buffer: &mut [u8],
    answer: &mut Answer,
) -> u32
    ensures { EndsWith (λ _. Unit {0}) (Stops (IsCommandError expression.now schema.now) expression.now schema.now) buffer.old result buffer.new answer.new }
{
    let query = GivenQuery { expression, schema };
    answer_page(alloc, Page::Explain, &query, buffer, answer).number()
}

/// Answers the plan of the expression over rows of the schema's type, as JSON on one line.
#[unsafe(no_mangle)]
pub extern "C" fn vx_plan_json(
    alloc: Global,
    expression: &[u8],
    schema: &[u8],
    buffer: &mut [u8],
    answer: &mut Answer,
) -> u32
    ensures { EndsWith (IsPlanPage expression.now schema.now) (Stops (IsCommandError expression.now schema.now) expression.now schema.now) buffer.old result buffer.new answer.new }
{
    let query = GivenQuery { expression, schema };
    answer_page(alloc, Page::Plan, &query, buffer, answer).number()
}

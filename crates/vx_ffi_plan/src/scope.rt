// The calls that tell the types of a plan: of its batches, and of its expression.
ghost use Rattle.std.specs.Prelude.{◌≡◌, IfErr, IfOk, string_bytes};
ghost use Rattle.vx_value.specs.Views.{type_of};
ghost use Rattle.vx_command_pages.specs.Pages.{line};
ghost use Rattle.vx_source_types.specs.TypeTexts.{type_source};
ghost use Rattle.vx_ffi_calls.specs.Endings.{EndsCall};
ghost use Rattle.vx_ffi_calls.specs.Stops.{IsExhausted};
ghost use Rattle.vx_ffi_plan.specs.Kept.{IsPlanTypePage, IsScopePage};

use crate::kept::KeptPlan;
use std::alloc::{AllocError, Global};
use vx_dtype::DType;
use vx_ffi_calls::{Answer, CallError, Status, ended};
use vx_source::TypeText;

/// Answers the type of the plan's batches, as source text on a line. Stops only where memory runs out.
pub fn answer_scope(
    alloc: Global,
    plan: &KeptPlan,
    buffer: &mut [u8],
    answer: &mut Answer,
) -> Status
    ensures { EndsCall (IsScopePage plan.now) IsExhausted buffer.old result buffer.new answer.new }
{
    ended(&type_page(alloc, plan.plan.scope()), buffer, answer)
}

/// Answers the type of the plan's expression, as source text on a line. Stops only where memory runs out.
pub fn answer_type(alloc: Global, plan: &KeptPlan, buffer: &mut [u8], answer: &mut Answer) -> Status
    ensures { EndsCall (IsPlanTypePage plan.now) IsExhausted buffer.old result buffer.new answer.new }
{
    ended(&type_page(alloc, plan.plan.tree().dtype()), buffer, answer)
}

// The type on a line.
fn type_page(alloc: Global, dtype: &DType) -> Result<Vec<u8>, CallError>
    ensures prints { IfOk result (λ page. page.items ≡ line (type_source (type_of dtype.now))) }
    ensures stop { IfErr result IsExhausted }
{
    match type_line(alloc, dtype) {
        Ok(page) => Ok(page.into_bytes()),
        Err(_) => Err(CallError::out_of_memory(alloc)),
    }
}

fn type_line(alloc: Global, dtype: &DType) -> Result<String, AllocError>
    ensures { IfOk result (λ page. string_bytes page ≡ line (type_source (type_of dtype.now))) }
{
    format!(in alloc; "{}\n", TypeText(dtype))
}

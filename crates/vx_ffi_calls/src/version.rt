// The call that says which version the library is of.
ghost use Rattle.std.specs.Prelude.{◌≡◌, IfOk, IfErr};
ghost use Rattle.vx_ffi_calls.specs.Endings.{EndsCall, version_line};
ghost use Rattle.vx_ffi_calls.specs.Stops.{IsExhausted};

use crate::answer::{Answer, Status};
use crate::ending::ended;
use crate::stop::CallError;
use std::alloc::Global;

/// Answers the version of the library, on a line. Stops only where memory runs out.
pub fn answer_version(alloc: Global, buffer: &mut [u8], answer: &mut Answer) -> Status
    ensures { EndsCall (λ page. page ≡ version_line) IsExhausted buffer.old result buffer.new answer.new }
{
    ended(&version_page(alloc), buffer, answer)
}

fn version_page(alloc: Global) -> Result<Vec<u8>, CallError>
    ensures prints { IfOk result (λ page. page.items ≡ version_line) }
    ensures stop { IfErr result IsExhausted }
{
    match Vec::from_slice(alloc, b"0.1.0\n") {
        Ok(page) => Ok(page),
        Err(_) => Err(CallError::out_of_memory(alloc)),
    }
}

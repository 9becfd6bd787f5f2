// What a call leaves in its buffer.
ghost use Rattle.std.specs.Prelude.{◌≡◌, length};
ghost use Rattle.vx_ffi_calls.specs.Endings.{EndsAs, IsPut};

use crate::answer::{Answer, Place, Status};
use crate::stop::CallError;

/// Ends a call that made this page, or was stopped so.
pub fn ended(made: &Result<Vec<u8>, CallError>, buffer: &mut [u8], answer: &mut Answer) -> Status
    ensures { EndsAs made.now buffer.old result buffer.new answer.new }
{
    match made {
        Ok(page) => {
            answer.place = Place::nowhere();
            put(
                page.as_slice(),
                Status::Answered,
                buffer,
                &mut answer.needed,
            )
        }
        Err(stop) => {
            answer.place = stop.place;
            put(
                stop.message.as_bytes(),
                stop.status,
                buffer,
                &mut answer.needed,
            )
        }
    }
}

// Puts the text at the beginning of the buffer, where there is room for it, and tells how many bytes it
// has. The status is the one that is wanted, or `TooSmall`.
fn put(text: &[u8], wanted: Status, buffer: &mut [u8], needed: &mut usize) -> Status
    ensures put { IsPut text.now wanted buffer.old result buffer.new }
    ensures needed { needed.new ≡ length text.now }
{
    *needed = text.len();
    if text.len() > buffer.len() {
        return Status::TooSmall;
    }
    buffer[..text.len()].copy_from_slice(text);
    wanted
}

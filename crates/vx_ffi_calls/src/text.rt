// Texts that a call is given as bytes.
ghost use Rattle.std.specs.Prelude.{◌≡◌, ◌⊎◌, IfOk, IfErr, length};
ghost use Rattle.std.specs.Str.{IsUtf8, IsValidUpTo};
ghost use Rattle.vx_ffi_calls.specs.Stops.{IsExhausted, IsNoText, IsPlaceIn, text_number};

use crate::answer::{Place, Status};
use crate::stop::{CallError, place_of};
use std::alloc::Global;
use std::str;
use vx_command_pages::Span;

/// Which of its texts a call speaks of.
#[derive(Clone, Copy, Debug, PartialEq, Eq)]
pub enum Given {
    /// The expression.
    Expression,
    /// The schema, which says the type of the rows.
    Schema,
    /// The records, or the statistics of chunks.
    Records,
}

impl Given {
    /// The number of the text in a [`Place`].
    pub fn number(self) -> usize
        ensures { result ≡ text_number self }
    {
        match self {
            Given::Expression => 1,
            Given::Schema => 2,
            Given::Records => 3,
        }
    }

    /// What messages call the text.
    pub fn name(self) -> &'static str {
        match self {
            Given::Expression => "expression",
            Given::Schema => "schema",
            Given::Records => "records",
        }
    }
}

/// An expression over rows, as a call is given it.
#[derive(Clone, Copy, Debug)]
pub struct GivenQuery<'a> {
    /// The expression.
    pub expression: &'a [u8],
    /// The schema, which says the type of the rows.
    pub schema: &'a [u8],
}

/// The bytes as text. Stops at the first byte that is of no character of UTF-8, and with want of
/// memory.
pub fn read_text(alloc: Global, given: Given, bytes: &[u8]) -> Result<&str, CallError>
    ensures text { IfOk result (λ text. text.now ≡ bytes.now) }
    ensures stop { IfErr result (λ stop. IsExhausted stop ⊎ IsNoText given bytes.now stop) }
{
    match str::from_utf8(bytes) {
        Ok(text) => Ok(text),
        Err(error) => Err(no_text(alloc, given, bytes, error.valid_up_to())),
    }
}

// The stop at the byte up to which alone the bytes are text.
fn no_text(alloc: Global, given: Given, bytes: &[u8], valid: usize) -> CallError
    requires { IsValidUpTo bytes.now valid }
    ensures { IsExhausted result ⊎ IsNoText given bytes.now result }
{
    let place = place_behind(given, &bytes[..valid]);
    let name = given.name();
    let message = format_args!(
        "error: {name}:{}:{}: expected text in UTF-8 at byte {valid}",
        place.line, place.column
    );
    CallError::new(alloc, Status::Unread, place, &message)
}

// The place of the byte behind those of the text.
fn place_behind(given: Given, before: &[u8]) -> Place
    requires { IsUtf8 before.now }
    ensures { IsPlaceIn given before.now (length before.now) (length before.now) result }
{
    let Ok(text) = str::from_utf8(before) else {
        unreachable!()
    };
    let at = text.len();
    place_of(given, text, Span { start: at, end: at })
}

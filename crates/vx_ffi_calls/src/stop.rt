// What stops a call.
ghost use Rattle.std.specs.Prelude.{◌≡◌, ◌⊎◌, string_bytes};
ghost use Rattle.vx_ffi_calls.specs.Stops.{IsExhausted, IsPlaceIn, Tells};
ghost use Rattle.vx_ffi_calls.specs.declared.answer.Status.TheVariants.{Refused};
ghost use Rattle.vx_ffi_calls.specs.declared.text.Given.TheVariants.{Expression};

use crate::answer::{Place, Status};
use crate::text::Given;
use std::alloc::Global;
use std::fmt::Display;
use vx_command_pages::{CommandError, Input, Message, Position, Span};

/// Why a call makes no page.
#[derive(Debug, Drop)]
pub struct CallError {
    /// How the call ends.
    pub status: Status,
    /// What the message is about.
    pub place: Place,
    /// What is told of it, which is nothing where memory ran out.
    pub message: String,
}

impl CallError {
    /// Memory ran out. Takes none.
    pub fn out_of_memory(alloc: Global) -> CallError
        ensures { IsExhausted result }
    {
        CallError {
            status: Status::OutOfMemory,
            place: Place::nowhere(),
            message: String::new(alloc),
        }
    }

    /// The stop with that message, or want of memory.
    pub fn new<M: Display>(alloc: Global, status: Status, place: Place, message: &M) -> CallError
        ensures { IsExhausted result ⊎ ((result.status ≡ status) × (result.place ≡ place)) }
    {
        match format!(in alloc; "{message}") {
            Ok(message) => CallError {
                status,
                place,
                message,
            },
            Err(_) => CallError::out_of_memory(alloc),
        }
    }
}

/// The error of a call on these texts that stops so.
pub fn stop_of(alloc: Global, error: &CommandError, expression: &str, schema: &str) -> CallError
    ensures { IsExhausted result ⊎ Tells error.now expression.now schema.now result }
{
    let (status, place) = match error {
        CommandError::OutOfMemory => return CallError::out_of_memory(alloc),
        CommandError::UnreadExpression { at, .. } => {
            (Status::Unread, place_at(Given::Expression, expression, *at))
        }
        CommandError::UnreadSchema { at, .. } => {
            (Status::Unread, place_at(Given::Schema, schema, *at))
        }
        CommandError::Unfit(literal) => refused_at(expression, literal.span),
        CommandError::Refused { span, .. } => refused_at(expression, *span),
    };
    let message = Message {
        error,
        expression: input(Given::Expression, expression),
        schema: input(Given::Schema, schema),
    };
    CallError::new(alloc, status, place, &message)
}

// A refusal of those bytes of the expression.
fn refused_at(expression: &str, span: Span) -> (Status, Place)
    ensures status { result.0 ≡ Refused }
    ensures place { IsPlaceIn Expression expression.now span.start span.end result.1 }
{
    (
        Status::Refused,
        place_of(Given::Expression, expression, span),
    )
}

// The text as messages show it.
fn input(given: Given, text: &str) -> Input<'_> {
    Input {
        name: given.name(),
        text,
        names_file: false,
    }
}

// The place at which reading stopped.
fn place_at(given: Given, text: &str, at: usize) -> Place
    ensures { IsPlaceIn given text.now at at result }
{
    let span = Span { start: at, end: at };
    place_of(given, text, span)
}

/// The place of those bytes of the text.
pub fn place_of(given: Given, text: &str, span: Span) -> Place
    ensures { IsPlaceIn given text.now span.start span.end result }
{
    let Position { line, column } = Position::of(text, span.start);
    Place {
        text: given.number(),
        start: span.start,
        end: span.end,
        line,
        column,
        record: 0,
    }
}

// What stops a call that goes over records.
ghost use Rattle.std.specs.Prelude.{◌≡◌, ◌⊎◌};
ghost use Rattle.vx_ffi_calls.specs.declared.text.Given.TheVariants.{Records};
ghost use Rattle.vx_ffi_calls.specs.Stops.{IsExhausted, text_number};
ghost use Rattle.vx_ffi_calls.specs.RowStops.{IsErrorPlace, TellsRows, error_status};

use crate::answer::{Place, Status};
use crate::stop::{CallError, place_of, stop_of};
use crate::text::Given;
use std::alloc::Global;
use vx_command_pages::{Input, Span};
use vx_commands::{RowsError, RowsMessage};
use vx_data::{DataError, Expected, WriteError};
use vx_records::RecordsError;

/// The texts that a call is given which goes over records.
#[derive(Clone, Copy, Debug)]
pub struct Texts<'a> {
    pub expression: &'a str,
    pub schema: &'a str,
    pub records: &'a [u8],
}

/// The error of a call on these texts that stops so.
pub fn rows_stop(alloc: Global, error: &RowsError, texts: &Texts<'_>) -> CallError
    ensures { IsExhausted result ⊎ TellsRows error.now texts.now.expression.now texts.now.schema.now result }
{
    match error {
        RowsError::Query(error) => { stop_of(alloc, error, texts.expression, texts.schema) }
        RowsError::NotBool(_) => {
            let end = texts.expression.len();
            let place = place_of(Given::Expression, texts.expression, Span { start: 0, end });
            told(alloc, Status::Refused, place, error, texts)
        }
        RowsError::Records { error: stop, span } => {
            let place = place_at(stop, *span, texts);
            match status_of(stop) {
                Status::OutOfMemory => CallError::out_of_memory(alloc),
                status => told(alloc, status, place, error, texts),
            }
        }
    }
}

// How a call ends that the error stops.
fn status_of(error: &RecordsError) -> Status
    ensures { result ≡ error_status error.now }
{
    match error {
        RecordsError::OutOfMemory
        | RecordsError::Data(DataError::OutOfMemory)
        | RecordsError::Write(WriteError::OutOfMemory) => Status::OutOfMemory,
        RecordsError::Fault(_) => Status::Faulted,
        RecordsError::Data(DataError::Read(_) | DataError::Unexpected { .. })
        | RecordsError::Write(WriteError::Write(_) | WriteError::Unwritable { .. }) => {
            Status::BadData
        }
    }
}

// What the error is about: of a fault the node in the expression, else a place in the records.
fn place_at(error: &RecordsError, span: Span, texts: &Texts<'_>) -> Place
    ensures { IsErrorPlace error.now span texts.now.expression.now result }
{
    match error {
        RecordsError::Fault(fault) => {
            let mut place = place_of(Given::Expression, texts.expression, span);
            place.record = fault.line.unwrap_or(0);
            place
        }
        RecordsError::Data(DataError::Unexpected { line, expected, .. }) => {
            place_on_line(texts.records, *line, byte_of(expected))
        }
        RecordsError::OutOfMemory
        | RecordsError::Data(DataError::OutOfMemory | DataError::Read(_))
        | RecordsError::Write(_) => in_records(0),
    }
}

// The error with its message.
fn told<'a>(
    alloc: Global,
    status: Status,
    place: Place,
    error: &'a RowsError,
    texts: &'a Texts<'a>,
) -> CallError
    ensures { IsExhausted result ⊎ ((result.status ≡ status) × (result.place ≡ place)) }
{
    let message = RowsMessage {
        error,
        expression: Input::new(Given::Expression.name(), texts.expression),
        schema: Input::new(Given::Schema.name(), texts.schema),
        data: Given::Records.name(),
    };
    CallError::new(alloc, status, place, &message)
}

// At which byte of a record something else is expected, where that is known.
fn byte_of(expected: &Expected) -> usize {
    match expected {
        Expected::Json { at } | Expected::End { at } => *at,
        _ => 0,
    }
}

// The place of that byte of a line of the records.
fn place_on_line(records: &[u8], number: u64, at: usize) -> Place
    ensures { result.text ≡ text_number Records }
{
    let mut place = in_records(number);
    if let Some((start, line)) = line_at(records, number) {
        let before = &line[..at.min(line.len())];
        place.start = start.saturating_add(before.len());
        place.end = start.saturating_add(line.len());
        place.line = usize::try_from(number).unwrap_or(0);
        place.column = characters(before).saturating_add(1);
    }
    place
}

// The line of that number, from 1 on, behind its first byte.
fn line_at(records: &[u8], number: u64) -> Option<(usize, &[u8])> {
    let mut start = 0usize;
    let mut left = number;
    for line in records.split(|byte| *byte == b'\n') {
        left = left.saturating_sub(1);
        if left == 0 {
            return Some((start, line));
        }
        start = start.saturating_add(line.len()).saturating_add(1);
    }
    None
}

// The records, at the one that begins on that line, without a place in them.
fn in_records(number: u64) -> Place
    ensures { result.text ≡ text_number Records }
{
    let mut place = Place::nowhere();
    place.text = Given::Records.number();
    place.record = number;
    place
}

// How many characters begin in the bytes.
fn characters(bytes: &[u8]) -> usize {
    bytes
        .iter()
        .filter(|byte| **byte < 0x80 || **byte >= 0xc0)
        .count()
}

// What stops a scan.
ghost use Rattle.std.specs.Prelude.{◌≡◌, ◌≢◌, ◌⊎◌, false};
ghost use Rattle.vx_data_buffers.specs.declared.error.BufferError.TheVariants.{OutOfMemory};
ghost use Rattle.vx_ffi_calls.specs.declared.answer.Status.TheVariants.{Faulted};
ghost use Rattle.vx_ffi_calls.specs.declared.text.Given.TheVariants.{Records};
ghost use Rattle.vx_ffi_calls.specs.Stops.{IsExhausted, text_number};
ghost use Rattle.vx_fn.specs.Functions.{is_truth};
ghost use Rattle.vx_tree.specs.Trees.{node_type};
ghost use Rattle.vx_ffi_plan.specs.Kept.{planned_tree, scope_of};
ghost use Rattle.vx_ffi_plan.specs.ScanStops.{IsBadData, IsFaultStop, IsNodePlace};
ghost use Rattle.vx_ffi_plan.specs.Selections.{IsNoCondition};

use crate::kept::KeptPlan;
use std::alloc::Global;
use vx_array::Array;
use vx_command_pages::{Input, Span, bind, span_at};
use vx_data::WriteError;
use vx_data_buffers::{BufferError, LayoutError};
use vx_ffi_calls::{CallError, Given, Place, RowsError, RowsMessage, Status, place_of};
use vx_places::{Place as NodePlace, first_fault_at};
use vx_records::{RecordFault, RecordsError};
use vx_source::TypeText;
use vx_value::Column;

/// What stops a scan whose buffers have no batch, with the row that it is on.
pub(crate) fn buffer_stop(alloc: Global, error: &BufferError) -> CallError
    ensures { IsExhausted result ⊎ (IsBadData result × (error.now ≢ OutOfMemory)) }
{
    let record = match error {
        BufferError::OutOfMemory => return CallError::out_of_memory(alloc),
        BufferError::BufferCount { .. } => 0,
        BufferError::EndsEarly { row, .. }
        | BufferError::Unordered { row, .. }
        | BufferError::NotUtf8 { row, .. }
        | BufferError::RowMisfit { row } => number_of(*row),
    };
    let message = format_args!("error: batch: {error}");
    CallError::new(alloc, Status::BadData, in_batch(record), &message)
}

/// What stops a selection of rows whose expression isn't one of truth values.
pub(crate) fn no_condition(alloc: Global, kept: &KeptPlan) -> CallError
    requires { is_truth (node_type (planned_tree kept.now)) ≡ false }
    ensures { IsExhausted result ⊎ IsNoCondition kept.now result }
{
    let text = kept.text.as_str();
    let span = Span {
        start: 0,
        end: text.len(),
    };
    let dtype = TypeText(kept.plan.tree().dtype());
    let message = format_args!("error: the expression is of type {dtype}, and not of truth values");
    CallError::new(
        alloc,
        Status::Refused,
        place_of(Given::Expression, text, span),
        &message,
    )
}

/// What stops a scan whose answer can't be written.
pub(crate) fn write_stop(alloc: Global, error: &WriteError) -> CallError
    ensures { IsExhausted result ⊎ IsBadData result }
{
    match error {
        WriteError::OutOfMemory => CallError::out_of_memory(alloc),
        error => {
            let message = format_args!("error: writing: {error}");
            CallError::new(alloc, Status::BadData, in_batch(0), &message)
        }
    }
}

/// What stops a call whose answer can't be laid out in buffers.
pub(crate) fn layout_stop(alloc: Global, error: &LayoutError) -> CallError
    ensures { IsExhausted result ⊎ IsBadData result }
{
    match error {
        LayoutError::OutOfMemory => CallError::out_of_memory(alloc),
        error => {
            let message = format_args!("error: batch: {error}");
            CallError::new(alloc, Status::BadData, in_batch(0), &message)
        }
    }
}

/// What stops a scan whose plan faults on the batch: the first fault of the expression, with the row.
/// Want of memory, too, where the fault can't be told for that.
pub(crate) fn fault_stop(alloc: Global, kept: &KeptPlan, batch: &Column) -> CallError
    requires { batch.now.type ≡ scope_of kept.now }
    ensures { IsExhausted result ⊎ IsFaultStop kept.now batch.now result }
{
    let Ok(tree) = bind(alloc, &kept.placed, kept.plan.scope()) else {
        return CallError::out_of_memory(alloc);
    };
    match first_fault_at(alloc, &tree, batch) {
        Ok(Some(place)) => stop_at(alloc, kept, place),
        _ => CallError::out_of_memory(alloc),
    }
}

/// The same of a batch in typed buffers, whose rows are read one by one for it.
pub(crate) fn fault_over(alloc: Global, kept: &KeptPlan, batch: &Array) -> CallError
    requires { batch.now.type ≡ scope_of kept.now }
    ensures { IsExhausted result ⊎ IsFaultStop kept.now batch.now result }
{
    match batch.to_column(alloc) {
        Ok(column) => fault_stop(alloc, kept, &column),
        Err(_) => CallError::out_of_memory(alloc),
    }
}

// The stop of that fault of the expression.
fn stop_at(alloc: Global, kept: &KeptPlan, fault: NodePlace) -> CallError
    ensures { IsExhausted result ⊎ ((result.status ≡ Faulted) × IsNodePlace kept.now fault.path.items result.place) }
{
    let row = fault.row();
    let NodePlace { path, refusal } = fault;
    let span = span_at(&kept.placed.places, path.as_slice());
    let mut place = place_of(Given::Expression, kept.text.as_str(), span);
    let stop = RecordsError::Fault(RecordFault {
        line: None,
        path,
        refusal,
    });
    let error = RowsError::Records { error: stop, span };
    let message = RowsMessage {
        error: &error,
        expression: Input {
            name: Given::Expression.name(),
            text: kept.text.as_str(),
            names_file: false,
        },
        schema: Input {
            name: Given::Schema.name(),
            text: "",
            names_file: false,
        },
        data: "batch",
    };
    match row {
        Some(row) => {
            place.record = number_of(row);
            let message = format_args!("{message}\n  = row: {row}");
            CallError::new(alloc, Status::Faulted, place, &message)
        }
        None => CallError::new(alloc, Status::Faulted, place, &message),
    }
}

// The batch, at the row of that number.
fn in_batch(record: u64) -> Place
    ensures { result.text ≡ text_number Records }
{
    let mut place = Place::nowhere();
    place.text = Given::Records.number();
    place.record = record;
    place
}

// The number of a row, from 1 on.
fn number_of(row: usize) -> u64 {
    (row as u64).saturating_add(1)
}

// The expressions of a command over records, over the type of these.
use crate::data::{Guess, Schema, Source};
use crate::guessed::{GuessedQuery, GuessedRecords, UntypedRecords, read_guessed};
use crate::rows::RowsCommand;
use crate::stop::{CommandText, Stop};
use std::alloc::Global;
use vx_command_pages::{CommandError, Input, ReadQuery, read_over, read_query, read_written};
use vx_dtype::DType;
use vx_source::Placed;

/// The expressions of a command.
#[derive(Drop)]
pub(crate) struct Expressions {
    /// The one that it is about.
    pub(crate) placed: Box<Placed>,
    /// What is selected.
    pub(crate) value: Box<Placed>,
    /// The type of its records.
    pub(crate) scope: Box<DType>,
}

/// The expressions over the type of the records, and what was read of these and is to be read again.
pub(crate) fn read_expressions<D: Source>(
    alloc: Global,
    command: &RowsCommand<'_>,
    data: &mut D,
) -> Result<(Expressions, Vec<u8>), Stop> {
    match command.schema {
        Schema::Said(schema) => Ok((said(alloc, command, schema)?, Vec::new(alloc))),
        Schema::Guessed(guess) => guessed(alloc, command, guess, data),
    }
}

// The expressions over the type that is said.
fn said(alloc: Global, command: &RowsCommand<'_>, schema: Input<'_>) -> Result<Expressions, Stop> {
    let ReadQuery { placed, scope } = read_query(alloc, command.expression.text, schema.text)?;
    match selected_value(alloc, command.select.text, &scope) {
        Ok(value) => Ok(Expressions {
            placed,
            value,
            scope,
        }),
        Err(error) => Err(CommandText::Select.stop(error)),
    }
}

// The expressions over the narrowest type of the first records, and what was read of these and is to be read again.
fn guessed<D: Source>(
    alloc: Global,
    command: &RowsCommand<'_>,
    guess: Guess<'_>,
    data: &mut D,
) -> Result<(Expressions, Vec<u8>), Stop> {
    let untyped = UntypedRecords {
        name: command.data,
        format: command.format,
        guess,
        skips: command.skips,
    };
    let GuessedQuery { placed, records } = read_guessed(
        alloc,
        command.expression.text,
        untyped,
        &mut *data,
    )?;
    let select = command.select.text;
    match selected_value(alloc, select, &records.dtype) {
        Ok(value) => {
            let GuessedRecords { dtype, read, .. } = records;
            let expressions = Expressions {
                placed,
                value,
                scope: dtype,
            };
            Ok((expressions, read))
        }
        Err(error) => Err(records.stop(alloc, CommandText::Select, select, error, data)),
    }
}

// What is selected of records of that type.
fn selected_value(alloc: Global, text: &str, scope: &DType) -> Result<Box<Placed>, CommandError> {
    let written = read_written(alloc, text)?;
    read_over(alloc, text, written, scope)
}

// Records whose type is guessed, and expressions over it.
ghost use Rattle.std.specs.Prelude.{IfErr, IfOk, string_bytes};
ghost use Rattle.vx_value.specs.Views.{type_of};
ghost use Rattle.vx_tree.specs.Views.{tree_of};
ghost use Rattle.vx_command_pages.specs.Inputs.{ReadsAs};
ghost use Rattle.vx_commands.specs.Guesses.{IsOfError, IsSchemaFor};

use crate::data::{DataFormat, Guess, Schema, Source, inferred_type};
use crate::error::RowsError;
use crate::number_texts::number_texts;
use crate::run::tell_message;
use crate::stop::{CommandText, Stop, StopMessage};
use std::alloc::Global;
use std::io::Write;
use vx_command_pages::{CommandError, Input, Status, read_over, read_written};
use vx_dtype::DType;
use vx_source::{Placed, TypeText};

/// Records whose type isn't said.
#[derive(Clone, Copy, Debug)]
pub struct UntypedRecords<'a> {
    /// What their file is called.
    pub name: &'a str,
    /// In what form they stand in it.
    pub format: DataFormat<'a>,
    /// How their type is guessed.
    pub guess: Guess<'a>,
    /// Whether those are left out that can't be read.
    pub skips: bool,
}

/// The narrowest type of the first records that the reader gives, as source text, over which the expression is read. Where
/// the expression isn't, they have no type, or memory runs out, that is told on `err`, and the status is how the command ends.
#[tactic(auto, using(crate::proofs::Stopped::told))]
pub fn guess_schema<D: Source, E: Write>(
    alloc: Global,
    expression: Input<'_>,
    records: UntypedRecords<'_>,
    data: &mut D,
    err: &mut E,
) -> Result<String, Status>
    ensures schema { IfOk result (λ schema. IsSchemaFor expression.entry.text.now (string_bytes schema)) }
    ensures status { IfErr result IsOfError }
{
    match type_text(alloc, expression.text, records, &mut *data) {
        Ok(text) => Ok(text),
        Err(stop) => {
            let message = StopMessage {
                stop: &stop,
                expression,
                select: Input::new("", ""),
                schema: Schema::Guessed(records.guess),
                data: records.name,
                has_comments: stop.may_be_comments() && records.format.has_comments(data),
            };
            Err(tell_message(alloc, &message, stop.status(), err))
        }
    }
}

// The type as source text.
fn type_text<D: Source>(
    alloc: Global,
    expression: &str,
    records: UntypedRecords<'_>,
    data: &mut D,
) -> Result<String, Stop>
    ensures { IfOk result (λ schema. IsSchemaFor expression.now (string_bytes schema)) }
{
    let query = read_guessed(alloc, expression, records, data)?;
    match format!(in alloc; "{}", TypeText(&query.records.dtype)) {
        Ok(text) => Ok(text),
        Err(_) => Err(Stop::from(CommandError::OutOfMemory)),
    }
}

/// An expression over the type that was guessed of records.
#[derive(Drop)]
pub(crate) struct GuessedQuery<'a> {
    /// The expression, with the bytes that its nodes were read from.
    pub(crate) placed: Box<Placed>,
    /// The records.
    pub(crate) records: GuessedRecords<'a>,
}

/// Records whose type was guessed.
#[derive(Drop)]
pub(crate) struct GuessedRecords<'a> {
    /// What is said of them.
    pub(crate) untyped: UntypedRecords<'a>,
    /// Their type.
    pub(crate) dtype: Box<DType>,
    /// What was read to tell it, and is to be read before what is left.
    pub(crate) read: Vec<u8>,
}

/// The expression that the text says over the narrowest type of the first records. Fails at the place where reading the text
/// stops, at records without a type, at a literal that is none of the type that it takes, and for want of memory.
pub(crate) fn read_guessed<'a, D: Source>(
    alloc: Global,
    text: &str,
    records: UntypedRecords<'a>,
    data: &mut D,
) -> Result<GuessedQuery<'a>, Stop>
    ensures { IfOk result (λ query. ReadsAs text.now (type_of query.records.dtype.value) (tree_of query.placed.value.expression)) }
{
    let written = read_written(alloc, text)?;
    let (dtype, read) = inferred_type(alloc, records, &mut *data)?;
    let Ok(dtype) = Box::new(alloc, dtype) else {
        return Err(Stop::from(CommandError::OutOfMemory));
    };
    let records = GuessedRecords {
        untyped: records,
        dtype,
        read,
    };
    match read_over(alloc, text, written, &records.dtype) {
        Ok(placed) => Ok(GuessedQuery { placed, records }),
        Err(error) => Err(records.stop(alloc, CommandText::Expression, text, error, data)),
    }
}

impl GuessedRecords<'_> {
    /// Why a run ends at that error of the text, which is read over their type: with the column of number texts that the error
    /// is about, if there is one.
    pub(crate) fn stop<D: Source>(
        self,
        alloc: Global,
        of: CommandText,
        text: &str,
        error: CommandError,
        data: &mut D,
    ) -> Stop {
        let CommandError::Unfit(literal) = error else {
            return of.stop(error);
        };
        let texts = number_texts(alloc, text, &literal, self, data);
        let error = CommandError::Unfit(literal);
        match texts {
            Some(texts) => {
                let error = RowsError::Query(error);
                Stop::Numbers { of, error, texts }
            }
            None => of.stop(error),
        }
    }
}
